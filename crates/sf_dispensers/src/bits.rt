//! The lowest bits of a word.
ghost use Rattle.std.specs.Prelude.{◌≡◌, min};
ghost use Rattle.std.specs.Int.RustNames.{count_ones};
ghost use Rattle.sf_dispensers.specs.Inside.{AreLowestBits};

use sf_space_words::WORD_BLOCKS;

// The lowest set bits of a word, so many of them, or all where it has fewer.
pub fn lowest_bits(word: u64, most: u64) -> u64
    ensures lowest { AreLowestBits word result }
    ensures count { count_ones result ≡ min most (count_ones word) }
{
    if u64::from(word.count_ones()) <= most {
        return word;
    }
    let mut mask = 0;
    let mut count = 0;
    for bit in 0..WORD_BLOCKS {
        if count == most {
            return mask;
        }
        if word >> bit & 1 == 1 {
            mask |= 1 << bit;
            count += 1;
        }
    }
    mask
}
