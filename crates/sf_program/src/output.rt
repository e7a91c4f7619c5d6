//! Writing the whole output.
ghost use Rattle.std.specs.Prelude.{◌≡◌, ◌≤◌, OnOk, OnErr};
ghost use Rattle.sf_outside.specs.Causes.{EndsAtFault};
ghost use Rattle.sf_outside.specs.Sink.{GrowsBy};
ghost use Rattle.sf_program.specs.Outputs.{GrowsByFront};

use sf_outside::{Failed, Sink};

/// Writes a text whole. Where the sink fails, a front of the text was taken.
pub fn write_output<K: Sink>(sink: &mut K, text: &[u8]) -> Result<(), Failed>
    ensures whole { OnOk result (GrowsBy (K.taken sink.old) (K.taken sink.new) text.now) }
    ensures front { OnErr result (GrowsByFront (K.taken sink.old) (K.taken sink.new) text.now) }
    ensures later { K.faults sink.old ≤ K.faults sink.new }
    ensures steady { OnOk result (K.faults sink.new ≡ K.faults sink.old) }
    ensures cause { OnErr result (EndsAtFault (K.faults sink.old) (K.faults sink.new) (K.has_failed sink.new)) }
{
    let mut rest = text;
    while !rest.is_empty() {
        match sink.write(rest) {
            Ok(count) => rest = &rest[count..],
            Err(failed) => return Err(failed),
        }
    }
    Ok(())
}
