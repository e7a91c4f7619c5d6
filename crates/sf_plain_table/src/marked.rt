//! Marked bytes.
ghost use Rattle.std.specs.Prelude.{◌≡◌};
ghost use Rattle.sf_types.specs.Values.Marks.{zero_byte, fresh_byte, is_fresh};

use std::marker::Model;

/// The mark of a byte: it needs no content since it is zero; or no content holds it yet; or it is stored as the byte at an
/// index, counted from 0, of a birth's content.
#[derive(Clone, Copy, Debug, PartialEq, Eq)]
pub enum Mark {
    Zero,
    Fresh,
    Stored { birth: u128, index: u64 },
}

/// A byte with its mark, seen as the rules' marked byte.
#[derive(Clone, Copy)]
pub struct Marked {
    pub byte: u8,
    pub mark: Mark,
}

impl Model for Marked {
    ghost use Rattle.sf_types.specs.Values.Marks.{Marked as MarkedByte};
    ghost use Rattle.sf_plain_table.specs.Inside.MarkViews.{mark_of, mark_back, back_of};

    ghost Value = { MarkedByte };

    ghost view = { λ m. record { byte = m.byte; mark = mark_of m.mark } };

    ghost inverse = { λ m. record { byte = m.byte; mark = mark_back m.mark } };

    ghost inverse_ok = { λ m h. back_of m.byte m.mark };
}

impl Marked {
    /// A zero byte.
    pub fn zero() -> Marked
        ensures { result ≡ zero_byte }
    {
        Marked {
            byte: 0,
            mark: Mark::Zero,
        }
    }

    /// A fresh byte.
    pub fn fresh(byte: u8) -> Marked
        ensures { result ≡ fresh_byte byte }
    {
        Marked {
            byte,
            mark: Mark::Fresh,
        }
    }

    /// Whether the byte is fresh.
    pub fn is_fresh(&self) -> bool
        ensures { result ≡ is_fresh self.now }
    {
        match self.mark {
            Mark::Zero => false,
            Mark::Fresh => true,
            Mark::Stored { .. } => false,
        }
    }
}
