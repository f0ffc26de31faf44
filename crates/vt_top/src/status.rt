ghost use Rattle.std.specs.Prelude.{◌≡◌};

/// How a call ended.
#[derive(Clone, Copy, Debug, PartialEq, Eq)]
pub enum Status {
    /// The answer was written.
    Done,
    /// The answer was written, and the error stands in a printed type.
    Untyped,
    /// The words are no command.
    Usage,
    /// The file is refused, for the reason that was written.
    Refused,
    /// The file could not be read.
    ReadFault,
    /// The answer could not be written.
    WriteFault,
    /// Memory ran out.
    NoMemory,
}

impl Status {
    /// The number with which the program ends.
    ghost use Rattle.vt_top.specs.Status.{status_number};

    pub fn number(self) -> u8
        ensures { result ≡ status_number self }
    {
        match self {
            Status::Done => 0,
            Status::Untyped => 1,
            Status::Usage => 2,
            Status::Refused => 3,
            Status::ReadFault => 4,
            Status::WriteFault => 5,
            Status::NoMemory => 6,
        }
    }
}
