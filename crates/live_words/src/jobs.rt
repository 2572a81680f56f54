// What the program can be asked to do.

/// The most rounds of the generated workload.
pub const MOST_ROUNDS: u32 = 100_000;

/// What a script is run for.
#[derive(Clone, Copy, PartialEq, Eq)]
pub enum ScriptJob {
    /// To print what it tells.
    Run,
    /// To print that, and the trace of its runs and ends too.
    Trace,
    /// To print what the generated workload of so many rounds came to. It is the script then.
    Bench(u32),
    /// To write what it tells of its pages as frames.
    Wire,
}

/// What the program is asked to do.
#[derive(Clone, Copy, PartialEq, Eq)]
pub enum Job {
    /// Run a script.
    Script(ScriptJob),
    /// Do what frames tell of pages, and print the pages.
    Follow,
}
