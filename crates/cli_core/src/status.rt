// How a run ends.
ghost use Rattle.std.specs.Prelude.{◌≡◌};
ghost use Rattle.cli_core.specs.Run.{code_of};

/// How a run ends.
#[derive(Clone, Copy, Debug, PartialEq, Eq)]
pub enum Status {
    /// The whole report was written.
    Done,
    /// The document is refused, and the line of the cause was written.
    Refused,
    /// The words are no command.
    Usage,
    /// The source refused a read.
    ReadFault,
    /// The sink refused a write or took nothing; a front of the text was written.
    WriteFault,
    /// The source gave more than the longest document has.
    TooLong,
    /// No memory was found.
    NoMemory,
    /// The tree refused a question.
    TreeFault,
    /// The tree gave two replies to one question, in the trails of two requests of a bundle; nothing was written.
    TwoReplies,
}

impl Status {
    /// The number with which the program ends.
    pub fn code(&self) -> u8
        ensures { result ≡ code_of self.now }
    {
        match self {
            Status::Done => 0,
            Status::Refused => 1,
            Status::Usage => 2,
            Status::ReadFault => 3,
            Status::WriteFault => 4,
            Status::TooLong => 5,
            Status::NoMemory => 6,
            Status::TreeFault | Status::TwoReplies => 7,
        }
    }
}
