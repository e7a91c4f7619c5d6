//! The words that the program is given.
ghost use Rattle.std.specs.Prelude.{◌≡◌, ◌<◌, ℕ, List, Err, IfOk, IfErr};
ghost use Rattle.std.specs.IoError.{error_kind};
ghost use Rattle.std.specs.Iterator.{IsFinite};
ghost use Rattle.std.specs.Result.{ForOk};
ghost use Rattle.sf_program.specs.declared.status.Status.TheVariants as status;
ghost use Rattle.sf_program.specs.Words.{AreWordsOf, status_without_words};

use crate::status::Status;
use std::alloc::{AllocError, Global};
use std::io;
use std::io::ErrorKind;

// The items after the first, which is the program's own name and no word.
fn words_of<I: Iterator<Item = String> + Drop>(
    alloc: Global,
    args: I,
) -> Result<Vec<String>, AllocError>
    requires can { I.can_next args }
    requires ends { IsFinite (I.remaining args) }
    ensures { IfOk result (λ words. AreWordsOf I.next_gives args words.items) }
{
    let mut words = Vec::new(alloc);
    let mut is_name = true;
    for arg in args {
        if !is_name {
            words.push(arg)?;
        }
        is_name = false;
    }
    Ok(words)
}

/// The words after the program's own name, or the status with which the program ends without them.
pub fn read_words<I: Iterator<Item = String> + Drop>(
    alloc: Global,
    args: io::Result<I>,
) -> Result<Vec<String>, Status>
    requires can { ForOk args I.can_next }
    requires ends { ForOk args (λ items. IsFinite (I.remaining items)) }
    ensures words { IfOk args (λ items. IfOk result (λ words. AreWordsOf I.next_gives items words.items)) }
    ensures memory { IfOk args (λ _. IfErr result (λ ending. ending ≡ status.OutOfMemory)) }
    ensures lost { IfErr args (λ error. result ≡ Err (status_without_words (error_kind error))) }
{
    match args {
        Ok(items) => words_of(alloc, items).map_err(|_| Status::OutOfMemory),
        Err(error) => Err(match error.kind() {
            ErrorKind::OutOfMemory => Status::OutOfMemory,
            _ => Status::Usage,
        }),
    }
}
