//! Copies of lists.
ghost use Rattle.std.specs.Prelude.{◌≡◌, IfOk};

use sf_types::{Mem, TryCopy};
use std::alloc::Global;

/// The copies of some items, in order.
pub fn copies<T: TryCopy + Drop>(alloc: Global, items: &[T]) -> Mem<Vec<T>>
    ensures { IfOk result (λ copied. copied.items ≡ items.now) }
{
    let mut copied = Vec::new(alloc);
    for item in items {
        copied.push(item.copy()?)?;
    }
    Ok(copied)
}
