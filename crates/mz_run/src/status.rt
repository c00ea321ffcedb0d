ghost use Rattle.std.specs.Prelude.{◌≡◌};
ghost use Rattle.mz_run.specs.Top.{status_number};

/// How a call of the program has ended.
#[derive(Clone, Copy, Debug, PartialEq, Eq)]
pub enum Status {
    /// It did what it was asked.
    Done,
    /// It was asked a question, and the answer is no.
    No,
    /// It was asked by words that it doesn't know.
    Usage,
    /// The input isn't of the form that it reads.
    BadInput,
    /// The source failed.
    ReadFault,
    /// The sink failed.
    WriteFault,
    /// There wasn't memory enough.
    NoMemory,
    /// The input has more bytes than it may have.
    TooLong,
}

impl Status {
    /// The exit status that stands for it.
    pub fn number(&self) -> u8
        ensures { result ≡ status_number self.now }
    {
        match self {
            Status::Done => 0,
            Status::No => 1,
            Status::Usage => 2,
            Status::BadInput => 3,
            Status::ReadFault => 4,
            Status::WriteFault => 5,
            Status::NoMemory => 6,
            Status::TooLong => 7,
        }
    }
}
