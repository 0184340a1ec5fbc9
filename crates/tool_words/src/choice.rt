use bench_programs::Family;
use kt_words::Plan;

/// What the words of a run choose.
#[derive(Clone, Copy, Debug)]
pub struct RunWords<'w> {
    /// The name of the program's file.
    pub program: &'w str,
    /// The name of the columns' file, where one is named.
    pub columns: Option<&'w str>,
    /// How many threads are to work, from 1 to 64.
    pub workers: u8,
    /// The pool and the limit of the run, for no roots yet.
    pub plan: Plan,
    /// Whether each activation and each task is reported.
    pub trace: bool,
}

/// What the words of `bench` choose.
#[derive(Clone, Copy, Debug)]
pub struct BenchWords {
    pub family: Family,
    /// The number of the program in its family.
    pub number: u64,
    /// How many threads are to work, from 1 to 64.
    pub workers: u8,
}

/// What the words ask for.
#[derive(Clone, Copy, Debug)]
pub enum Choice<'w> {
    /// A run on threads.
    Run(RunWords<'w>),
    /// A run of a program of a family.
    Bench(BenchWords),
    /// A run on one thread.
    Plain(RunWords<'w>),
    /// The kinds of the program in the file of this name.
    Check(&'w str),
    /// The canonical text of the program in the file of this name.
    Print(&'w str),
    /// The text that says how the tool is called.
    Help,
}
