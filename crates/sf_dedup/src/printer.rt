//! Who makes the prints of contents.
ghost use Rattle.std.specs.Prelude.{◌≡◌, map, IfOk};
ghost use Rattle.sf_dedup.specs.Prints.{print_of};

use crate::print::{PrintList, print_of};
use sf_types::{BlobList, List, Mem};
use std::alloc::Global;
use std::sync::Wait;
use std::thread::Threads;

/// What makes the prints of contents. It may start threads and wait for them.
pub trait Printer {
    /// The print of each content, in their order.
    fn prints<R: Threads + Wait + Sync>(
        &self,
        rt: &R,
        alloc: Global,
        contents: &BlobList,
    ) -> Mem<PrintList>
        ensures { IfOk result (λ prints. prints ≡ map print_of contents.now) };
}

/// A printer that makes one print after the other, and starts no thread.
#[derive(Clone, Copy, Debug)]
pub struct PlainPrinter;

/// The print of each content, in their order. After want of memory nothing is left of them.
pub fn prints_in_turn(alloc: Global, contents: &BlobList) -> Mem<PrintList>
    ensures { IfOk result (λ prints. prints ≡ map print_of contents.now) }
{
    let mut prints = List::new(alloc);
    for content in contents.as_slice() {
        prints.push(print_of(content))?;
    }
    Ok(prints)
}

impl Printer for PlainPrinter {
    fn prints<R: Threads + Wait + Sync>(
        &self,
        _rt: &R,
        alloc: Global,
        contents: &BlobList,
    ) -> Mem<PrintList> {
        prints_in_turn(alloc, contents)
    }
}
