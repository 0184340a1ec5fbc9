ghost use Rattle.task_meaning.specs.RootCounts.{AllRootsLeft, NoRootLeft, OneRootMore, RootTasksCountTheirFrame};

/// The counts of all roots are those of each root, added one by one.
pub fn roots_left()
    ensures all { AllRootsLeft }
    ensures one { OneRootMore }
    ensures none { NoRootLeft }
{}

/// A root with a task counts that task, its first activation, and what is counted from its first frame.
pub fn root_tasks_count()
    ensures { RootTasksCountTheirFrame }
{}
