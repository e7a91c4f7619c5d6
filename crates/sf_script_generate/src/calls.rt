//! Generated calls.
ghost use Rattle.std.specs.Prelude.{◌≡◌, ◌≤◌, ◌<◌, IfOk, IsTrue};
ghost use Rattle.sf_types.specs.declared.limits.TheConstants.{LOCATOR_NAME_BYTES};
ghost use Rattle.sf_types.specs.Values.Names.{is_name};
ghost use Rattle.sf_script_generate.specs.GeneratedCalls.{row_of, drawn_payload, drawn_append, drawn_insert, drawn_delete, drawn_move, drawn_read, drawn_copy, plain_call, call_of_draw, drawn_call, generated_call};

use crate::draws::draw;
use sf_types::{Blob, Call, LocName, Mem, Name, push_decimal};
use std::alloc::Global;

// A locator of this name.
fn locator(alloc: Global, text: &[u8]) -> Mem<LocName>
    requires { IsTrue (is_name LOCATOR_NAME_BYTES text.now) }
    ensures { IfOk result (λ name. name ≡ text.now) }
{
    let name = LocName::new(alloc, text)?;
    Ok(name.unwrap())
}

// The text of a session's row.
fn row_text(alloc: Global, session: u16) -> Mem<Vec<u8>>
    ensures { IfOk result (λ text. text.items ≡ row_of session) }
{
    let mut text = Vec::new(alloc);
    text.extend_from_slice(b"r")?;
    push_decimal(&mut text, u64::from(session))?;
    Ok(text)
}

// The row of a session.
fn row_of(alloc: Global, session: u16) -> Mem<Name>
    ensures { IfOk result (λ name. name ≡ row_of session) }
{
    let text = row_text(alloc, session)?;
    let name = Name::new(alloc, text.as_slice())?;
    Ok(name.unwrap())
}

// A payload, and the generator's number after it.
#[tactic(auto, unfolding(crate::specs::GeneratedCalls::drawn_payload))]
fn drawn_payload(alloc: Global, number: u64) -> Mem<(Blob, u64)>
    ensures { IfOk result (λ drawn. drawn ≡ drawn_payload number) }
{
    let (count, number) = draw(3_000, number);
    let (byte, number) = draw(8, number);
    let bytes = vec![in alloc; 97 + byte as u8; 1 + count as usize]?;
    Ok((Blob::from_vec(bytes)?, number))
}

// `writeappend p` with a payload
#[tactic(auto, unfolding(crate::specs::GeneratedCalls::drawn_append))]
fn drawn_append(alloc: Global, number: u64) -> Mem<(Call, u64)>
    ensures { IfOk result (λ drawn. drawn ≡ drawn_append number) }
{
    let (bytes, number) = drawn_payload(alloc, number)?;
    let at = locator(alloc, b"p")?;
    Ok((Call::WriteAppend { at, bytes }, number))
}

// `fraginsert p 1` with a payload
#[tactic(auto, unfolding(crate::specs::GeneratedCalls::drawn_insert))]
fn drawn_insert(alloc: Global, number: u64) -> Mem<(Call, u64)>
    ensures { IfOk result (λ drawn. drawn ≡ drawn_insert number) }
{
    let (bytes, number) = drawn_payload(alloc, number)?;
    let at = locator(alloc, b"p")?;
    Ok((
        Call::FragInsert {
            at,
            offset: 1,
            bytes,
        },
        number,
    ))
}

// `fragdelete p`, amount 1 + draw 100, offset 1
#[tactic(auto, unfolding(crate::specs::GeneratedCalls::drawn_delete))]
fn drawn_delete(alloc: Global, number: u64) -> Mem<(Call, u64)>
    ensures { IfOk result (λ drawn. drawn ≡ drawn_delete number) }
{
    let (amount, number) = draw(100, number);
    let at = locator(alloc, b"p")?;
    Ok((
        Call::FragDelete {
            at,
            amount: 1 + amount,
            offset: 1,
        },
        number,
    ))
}

// `fragmove p`, amount 1 + draw 50, from 1, to 1 + draw 2000
#[tactic(auto, unfolding(crate::specs::GeneratedCalls::drawn_move))]
fn drawn_move(alloc: Global, number: u64) -> Mem<(Call, u64)>
    ensures { IfOk result (λ drawn. drawn ≡ drawn_move number) }
{
    let (amount, number) = draw(50, number);
    let (to, number) = draw(2_000, number);
    let at = locator(alloc, b"p")?;
    Ok((
        Call::FragMove {
            at,
            amount: 1 + amount,
            from_offset: 1,
            to_offset: 1 + to,
        },
        number,
    ))
}

// `read p 100`, offset 1 + draw 4000
#[tactic(auto, unfolding(crate::specs::GeneratedCalls::drawn_read))]
fn drawn_read(alloc: Global, number: u64) -> Mem<(Call, u64)>
    ensures { IfOk result (λ drawn. drawn ≡ drawn_read number) }
{
    let (offset, number) = draw(4_000, number);
    let at = locator(alloc, b"p")?;
    Ok((
        Call::Read {
            at,
            amount: 100,
            offset: 1 + offset,
        },
        number,
    ))
}

// `copy p q`, amount 1 + draw 500, to 1, from 1
#[tactic(auto, unfolding(crate::specs::GeneratedCalls::drawn_copy))]
fn drawn_copy(alloc: Global, number: u64) -> Mem<(Call, u64)>
    ensures { IfOk result (λ drawn. drawn ≡ drawn_copy number) }
{
    let (amount, number) = draw(500, number);
    let at = locator(alloc, b"p")?;
    let from = locator(alloc, b"q")?;
    Ok((
        Call::Copy {
            at,
            from,
            amount: 1 + amount,
            to_offset: 1,
            from_offset: 1,
        },
        number,
    ))
}

// A call that draws no number.
#[tactic(auto, unfolding(crate::specs::GeneratedCalls::plain_call))]
fn plain_call(alloc: Global, session: u16, drawn: u64) -> Mem<Call>
    ensures { IfOk result (λ call. call ≡ plain_call session drawn) }
{
    if drawn == 11 {
        return Ok(Call::Commit);
    }
    if drawn == 12 {
        let to = locator(alloc, b"p")?;
        let row = row_of(alloc, session)?;
        return Ok(Call::Lock { to, row });
    }
    if drawn == 13 {
        let to = locator(alloc, b"q")?;
        let row = row_of(alloc, 1)?;
        return Ok(Call::Select { to, row });
    }
    Ok(Call::Rollback)
}

// The call of a draw of 16.
#[tactic(auto, unfolding(crate::specs::GeneratedCalls::call_of_draw))]
fn call_of_draw(alloc: Global, session: u16, drawn: u64, number: u64) -> Mem<(Call, u64)>
    ensures { IfOk result (λ made. made ≡ call_of_draw session drawn number) }
{
    if drawn <= 5 {
        return drawn_append(alloc, number);
    }
    if drawn <= 7 {
        return drawn_insert(alloc, number);
    }
    if drawn == 8 {
        return drawn_delete(alloc, number);
    }
    if drawn == 9 {
        return drawn_move(alloc, number);
    }
    if drawn == 10 {
        return drawn_read(alloc, number);
    }
    if drawn == 14 {
        return drawn_copy(alloc, number);
    }
    let call = plain_call(alloc, session, drawn)?;
    Ok((call, number))
}

// A later call of a session.
#[tactic(auto, unfolding(crate::specs::GeneratedCalls::drawn_call))]
fn drawn_call(alloc: Global, session: u16, number: u64) -> Mem<(Call, u64)>
    ensures { IfOk result (λ made. made ≡ drawn_call session number) }
{
    let (drawn, number) = draw(16, number);
    call_of_draw(alloc, session, drawn, number)
}

// The call of a session that stands behind so many, and the generator's number after it.
#[tactic(auto, unfolding(crate::specs::GeneratedCalls::generated_call))]
pub fn generated_call(alloc: Global, session: u16, step: u32, number: u64) -> Mem<(Call, u64)>
    ensures { IfOk result (λ made. made ≡ generated_call session step number) }
{
    if step == 0 {
        let row = row_of(alloc, session)?;
        return Ok((Call::Insert { row }, number));
    }
    if step == 1 {
        let to = locator(alloc, b"p")?;
        let row = row_of(alloc, session)?;
        return Ok((Call::Lock { to, row }, number));
    }
    drawn_call(alloc, session, number)
}
