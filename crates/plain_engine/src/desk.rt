use frame_code::{Few, Frame, Passed};

/// Where a turn writes what it does not keep: the first frame of a new task, that of a new
/// aggregate, what is passed to a task, and the units that a frame gives up. It is used again and
/// again: none of these is handed over by value, and a frame mostly stands over one as long.
#[derive(Drop)]
pub struct Desk {
    pub first: Frame,
    pub gathered: Frame,
    pub passed: Few<Passed, 16>,
    pub given_up: Few<u64, 64>,
}

impl Desk {
    /// A desk with nothing on it.
    pub fn new() -> Desk {
        Desk {
            first: Frame::new(),
            gathered: Frame::new(),
            passed: Few::new(),
            given_up: Few::new(),
        }
    }
}
