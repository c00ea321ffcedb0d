ghost use Rattle.std.specs.Prelude.{◌≡◌};
ghost use Rattle.mz_lines.specs.Whys.{why_number};

/// What is wrong with a line. The whys are numbered from 1, in this order.
#[derive(Clone, Copy, Debug, PartialEq, Eq)]
pub enum Why {
    /// The line has no line feed, more than 255 bytes before it, or a byte outside 32 to 126.
    NotPlain,
    /// It is the first line, and isn't `mzone-trace 1`.
    NotTrace,
    /// It is the second line, and isn't a profile within the limits.
    NotSpace,
    /// A word is empty.
    EmptyWord,
    /// There is no such command.
    UnknownCommand,
    /// There are too few words, or too many.
    WrongCount,
    /// A word in a number's place is no number.
    NotNumber,
    /// There is no such caller.
    NoSuchCaller,
    /// A word in a name's place hasn't its form.
    NotName,
    /// A byte or a count is out of its limits.
    BeyondLimits,
    /// The line may not stand here.
    OutOfPlace,
    /// A block was given under this name before.
    GivenBefore,
}

impl Why {
    /// The number of this why, from 1 to 12.
    pub fn number(self) -> u8
        ensures { result ≡ why_number self }
    {
        match self {
            Why::NotPlain => 1,
            Why::NotTrace => 2,
            Why::NotSpace => 3,
            Why::EmptyWord => 4,
            Why::UnknownCommand => 5,
            Why::WrongCount => 6,
            Why::NotNumber => 7,
            Why::NoSuchCaller => 8,
            Why::NotName => 9,
            Why::BeyondLimits => 10,
            Why::OutOfPlace => 11,
            Why::GivenBefore => 12,
        }
    }
}
