//! The lines of places.
ghost use Rattle.std.specs.Prelude.{◌≡◌, ◌++◌, OnOk, codes};
ghost use Rattle.std.specs.List.{flat_map, join_by};
ghost use Rattle.std.specs.Fmt.{decimal};
ghost use Rattle.hex.specs.Hex.{encode_lower};
ghost use Rattle.sf_types.specs.Orders.Transcripts.{run_text, place_line};

use sf_types::{Mem, Place, Run, push_decimal, push_hex};

// The number of a birth in decimal digits.
fn push_birth(text: &mut Vec<u8>, birth: u128) -> Mem<()>
    ensures { OnOk result (text.new.items ≡ text.old.items ++ decimal birth) }
{
    let digits = birth.to_string(*text.allocator())?;
    text.extend_from_slice(digits.as_bytes())?;
    Ok(())
}

fn push_run(text: &mut Vec<u8>, run: &Run) -> Mem<()>
    ensures { OnOk result (text.new.items ≡ text.old.items ++ run_text run.now) }
{
    push_decimal(text, u64::from(run.first))?;
    text.extend_from_slice(b"+")?;
    push_decimal(text, u64::from(run.blocks))?;
    Ok(())
}

// Runs behind a first one, each after a comma.
fn push_more_runs(text: &mut Vec<u8>, runs: &[Run]) -> Mem<()>
    ensures { OnOk result (text.new.items ≡ text.old.items ++ flat_map (λ run. codes "," ++ run_text run) runs.now) }
{
    for run in runs {
        text.extend_from_slice(b",")?;
        push_run(text, run)?;
    }
    Ok(())
}

// The runs of a content, joined by commas.
fn push_runs(text: &mut Vec<u8>, runs: &[Run]) -> Mem<()>
    ensures { OnOk result (text.new.items ≡ text.old.items ++ join_by run_text (codes ",") runs.now) }
{
    if let [first, others @ ..] = runs {
        push_run(text, first)?;
        push_more_runs(text, others)?;
    }
    Ok(())
}

// The word of a place line, its birth, its length and its digest, each with a space behind it.
fn push_content(text: &mut Vec<u8>, place: &Place) -> Mem<()>
    ensures { OnOk result (text.new.items ≡ text.old.items ++ (codes "place " ++ decimal place.now.birth ++ codes " "
        ++ decimal place.now.len ++ codes " " ++ encode_lower place.now.sum ++ codes " ")) }
{
    text.extend_from_slice(b"place ")?;
    push_birth(text, place.birth)?;
    text.extend_from_slice(b" ")?;
    push_decimal(text, u64::from(place.len))?;
    text.extend_from_slice(b" ")?;
    push_hex(text, place.sum.as_bytes())?;
    text.extend_from_slice(b" ")?;
    Ok(())
}

fn push_place(text: &mut Vec<u8>, place: &Place) -> Mem<()>
    ensures { OnOk result (text.new.items ≡ text.old.items ++ place_line place.now) }
{
    push_content(text, place)?;
    push_runs(text, place.runs.as_slice())?;
    text.extend_from_slice(b"\n")?;
    Ok(())
}

// The lines of the places.
pub fn push_places(text: &mut Vec<u8>, places: &[Place]) -> Mem<()>
    ensures { OnOk result (text.new.items ≡ text.old.items ++ flat_map place_line places.now) }
{
    for place in places {
        push_place(text, place)?;
    }
    Ok(())
}
