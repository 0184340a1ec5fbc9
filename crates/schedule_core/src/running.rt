ghost use Rattle.std.specs.Prelude.{◌≡◌};

use frame_code::Frame;
use record_core::CutTag;
use step_table::Started;
use task_syntax::Priority;

/// An activation that its pass runs, with the frame of its task as far as the task has come.
#[derive(Drop)]
pub struct Running {
    pub(crate) started: Started,
    pub(crate) task: u32,
    // The task of its predecessor, if it has one.
    pub(crate) after: Option<u32>,
    // The priority with which it was ready.
    pub(crate) priority: Priority,
    // What was refused to it last, if its last request was refused.
    pub(crate) refused: Option<CutTag>,
    // The unit of the record that was made for its last request, until a variable names it.
    pub(crate) made: Option<u32>,
    pub frame: Frame,
}

impl Running {
    /// The first unit of its record.
    pub fn unit(&self) -> u32
        ensures { result ≡ self.now.started.unit }
    {
        self.started.unit()
    }

    /// The number of the activation.
    pub fn number(&self) -> u32
        ensures { result ≡ self.now.started.number }
    {
        self.started.number()
    }

    /// Its task, by the number of the task's first activation.
    pub fn task(&self) -> u32
        ensures { result ≡ self.now.task }
    {
        self.task
    }

    /// The task that it was behind, if any.
    pub fn after(&self) -> Option<u32>
        ensures { result ≡ self.now.after }
    {
        self.after
    }
}
