//! Why a text is no script.
use sf_types::OutOfMemory;

/// Why a line is no line of a script.
#[derive(Clone, Copy, Debug, PartialEq, Eq)]
pub enum Reason {
    /// The script has more than 16,777,216 bytes.
    Size,
    /// The line isn't ended by a line feed, or holds a byte outside 0x20 to 0x7E.
    Bytes,
    /// The line's first word may not stand here.
    Place,
    /// A word isn't the number of a session.
    Session,
    /// The line is otherwise of no form.
    Form,
    /// A number is out of its range, or the script passes a limit.
    Limit,
    /// The script has no sessions line.
    Short,
}

impl Reason {
    ghost use Rattle.std.specs.Prelude.{◌≡◌};
    ghost use Rattle.sf_script.specs.Faults.{word_of};

    /// The reason's word, as `form`.
    pub fn word(self) -> &'static str
        ensures { result.now ≡ word_of self }
    {
        match self {
            Reason::Size => "size",
            Reason::Bytes => "bytes",
            Reason::Place => "place",
            Reason::Session => "session",
            Reason::Form => "form",
            Reason::Limit => "limit",
            Reason::Short => "short",
        }
    }
}

/// The first wrong line, counted from 1, and what is wrong with it.
#[derive(Clone, Copy, Debug, PartialEq, Eq)]
pub struct ScriptFault {
    /// The line's number. It is 0 where the script has too many bytes.
    pub line: u32,
    /// What is wrong.
    pub reason: Reason,
}

// Why reading stopped: memory ran out, or the line is refused.
#[derive(Clone, Copy, Debug)]
pub enum Stop {
    Memory,
    Refused(Reason),
}

impl From<OutOfMemory> for Stop {
    ghost use Rattle.std.specs.Prelude.{◌≡◌};
    ghost use Rattle.sf_script.specs.declared.fault.Stop.TheVariants.{Memory};

    ghost from_gives = { λ _ stop. stop ≡ Memory };

    fn from(_error: OutOfMemory) -> Stop {
        Stop::Memory
    }
}
