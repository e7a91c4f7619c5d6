//! Vetchera's program.
#![tactic(auto)]

use sf_outside::{StdSink, StdSource};
use sf_program::{read_words, securefiles};
use std::env;
use std::process::ExitCode;

fn main(rt: HostRuntime) -> ExitCode {
    let words = read_words(rt.alloc(), env::args(&rt));
    let mut source = StdSource::new(rt.stdin());
    let mut sink = StdSink::new(rt.stdout());
    securefiles(rt.alloc(), words, &mut source, &mut sink)
}
