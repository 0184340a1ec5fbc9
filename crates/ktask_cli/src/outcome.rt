use plain_engine::PlainEnd;

/// What the tool answers: its exit status, and the end of the run where one was reached.
#[derive(Drop)]
pub struct Outcome {
    pub status: u8,
    pub finished: Option<PlainEnd>,
}
