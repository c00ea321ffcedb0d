//! What the program can be asked to do, and by which words.

ghost use Rattle.std.specs.Prelude.{◌≡◌, map, string_bytes};
ghost use Rattle.mz_run.specs.Jobs.{job_of, job_named};

/// What a call is to do.
#[derive(Clone, Copy, Debug, PartialEq, Eq)]
pub enum RunJob {
    /// To run the trace that the source gives.
    Trace,
}

/// What a call without threads is to do.
#[derive(Clone, Copy, Debug, PartialEq, Eq)]
pub enum Tool {
    /// To tell whether the source gives a trace.
    Check,
}

/// What the program is to do.
#[derive(Clone, Copy, Debug, PartialEq, Eq)]
pub enum Job {
    /// A job that waits for callers.
    Run(RunJob),
    /// A job that waits for nobody.
    Tool(Tool),
}

/// The job that the words name, or None where they name none.
pub fn job_of(words: &[String]) -> Option<Job>
    ensures { result ≡ job_of (map string_bytes words.now) }
{
    match words {
        [word] => job_named(word.as_str()),
        _ => None,
    }
}

// The job that a single word names.
fn job_named(word: &str) -> Option<Job>
    ensures { result ≡ job_named word.now }
{
    if word == "run" {
        Some(Job::Run(RunJob::Trace))
    } else if word == "check" {
        Some(Job::Tool(Tool::Check))
    } else {
        None
    }
}
