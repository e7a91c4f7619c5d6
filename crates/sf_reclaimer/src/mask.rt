//! Masks for words.
ghost use Rattle.std.specs.Prelude.{◌≡◌, ◌+◌, ◌≤◌};
ghost use Rattle.sf_space_words.specs.declared.limits.TheConstants.{WORD_BLOCKS as WORD_SIZE};
ghost use Rattle.sf_reclaimer.specs.Inside.{mask_between};

use sf_space_words::WORD_BLOCKS;

// The mask of so many bits of a word from an offset on.
pub fn mask_from(offset: u32, count: u32) -> u64
    requires some { 1 ≤ count }
    requires within { offset + count ≤ WORD_SIZE }
    ensures { result ≡ mask_between offset (offset + count) }
{
    (u64::MAX >> (WORD_BLOCKS - count)) << offset
}
