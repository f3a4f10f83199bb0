//! How the program ends.
ghost use Rattle.std.specs.Prelude.{◌≡◌};
ghost use Rattle.corten_run.specs.Statuses.{status_of};

/// How a command ended.
#[derive(Clone, Copy, Debug, PartialEq, Eq)]
pub enum Ending {
    /// All was read and all was written.
    Done,
    /// The text read was refused, and a line says where.
    Refused,
    /// The words are none of the program's.
    Usage,
    /// A read failed.
    ReadFailed,
    /// A write failed.
    WriteFailed,
    /// Memory ran out.
    NoMemory,
    /// The history read is not legal, and a line says where.
    Illegal,
    /// The space has no image, and a line says why.
    NotSaved,
}

impl Ending {
    /// The exit status.
    pub fn status(self) -> u8
        ensures { result ≡ status_of self }
    {
        match self {
            Ending::Done => 0,
            Ending::Refused => 1,
            Ending::Usage => 2,
            Ending::ReadFailed => 3,
            Ending::WriteFailed => 4,
            Ending::NoMemory => 5,
            Ending::Illegal => 6,
            Ending::NotSaved => 8,
        }
    }
}
