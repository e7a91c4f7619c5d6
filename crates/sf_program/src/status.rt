//! How the program ends.
use sf_types::OutOfMemory;

/// How the program ends. The numbers are this project's own.
#[derive(Clone, Copy, Debug, PartialEq, Eq)]
pub enum Status {
    /// The whole output was taken.
    Done,
    /// The words are no command; the usage line was taken.
    Usage,
    /// The input is no script; the line that says so was taken.
    ScriptRefused,
    /// The source failed; nothing was written.
    ReadFault,
    /// The sink failed; a front of the output was taken.
    WriteFault,
    /// Want of memory; nothing was written.
    OutOfMemory,
}

impl From<OutOfMemory> for Status {
    ghost use Rattle.std.specs.Prelude.{◌≡◌};
    ghost use Rattle.sf_program.specs.declared.status.Status.TheVariants as statuses;

    ghost from_gives = { λ _ status. status ≡ statuses.OutOfMemory };

    fn from(_error: OutOfMemory) -> Status {
        Status::OutOfMemory
    }
}

impl Status {
    ghost use Rattle.std.specs.Prelude.{◌≡◌};
    ghost use Rattle.sf_program.specs.StatusNumbers.{number_of};

    /// The status with which the process ends.
    pub fn number(self) -> u8
        ensures { result ≡ number_of self }
    {
        match self {
            Status::Done => 0,
            Status::Usage => 2,
            Status::ScriptRefused => 3,
            Status::ReadFault => 4,
            Status::WriteFault => 5,
            Status::OutOfMemory => 8,
        }
    }
}
