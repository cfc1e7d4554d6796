// How the program ends.
ghost use Rattle.std.specs.Prelude.{◌≡◌};
ghost use Rattle.ep_answer.specs.Status.{code_of};

/// How a call of the program ends.
#[derive(Clone, Copy, Debug, PartialEq, Eq)]
pub enum Status {
    /// The command was done, and its answer is not a no.
    Ok,
    /// The answer is a no.
    No,
    /// The words are no command.
    Usage,
    /// A text was refused.
    Refused,
    /// The library failed.
    ReadFault,
    /// The sink failed after a prefix of the text.
    WriteFault,
    /// Memory was wanting, and nothing was written.
    OutOfMemory,
    /// A bound of the work was met before an answer.
    Undecided,
}

impl Status {
    /// The exit code.
    pub fn code(&self) -> u8
        ensures { result ≡ code_of self.now }
    {
        match self {
            Status::Ok => 0,
            Status::No => 1,
            Status::Usage => 2,
            Status::Refused => 3,
            Status::ReadFault => 4,
            Status::WriteFault => 5,
            Status::OutOfMemory => 6,
            Status::Undecided => 7,
        }
    }
}
