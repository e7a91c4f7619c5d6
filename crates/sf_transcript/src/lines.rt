//! The lines of orders, replies and rows.
ghost use Rattle.std.specs.Prelude.{◌≡◌, ◌++◌, ◌+◌, ◌<◌, ◌≤◌, ◌^◌, length, OnOk, codes};
ghost use Rattle.std.specs.List.{flat_map};
ghost use Rattle.std.specs.Fmt.{decimal};
ghost use Rattle.sf_types.specs.Orders.Transcripts.{token_text, order_line, reply_line, reply_lines, session_lines, row_line, line};

use sf_types::{Kind, Mem, Reply, ReplyList, RowEnd, Token, push_decimal, push_hex, push_reply};

fn push_token(text: &mut Vec<u8>, token: &Token) -> Mem<()>
    ensures { OnOk result (text.new.items ≡ text.old.items ++ token_text token.now) }
{
    text.extend_from_slice(b" ")?;
    push_decimal(text, u64::from(token.session))?;
    match token.kind {
        Kind::Promise => text.extend_from_slice(b"+")?,
        Kind::Call | Kind::Cancel => {}
    }
    Ok(())
}

// The line of the order.
pub fn push_order(text: &mut Vec<u8>, order: &[Token]) -> Mem<()>
    ensures { OnOk result (text.new.items ≡ text.old.items ++ order_line order.now) }
{
    text.extend_from_slice(b"order")?;
    for token in order {
        push_token(text, token)?;
    }
    text.extend_from_slice(b"\n")?;
    Ok(())
}

// The reply to the call of this number, counted from 1.
fn push_reply_line(text: &mut Vec<u8>, session: u64, number: u64, reply: &Reply) -> Mem<()>
    ensures { OnOk result (text.new.items ≡ text.old.items ++ reply_line session number reply.now) }
{
    push_decimal(text, session)?;
    text.extend_from_slice(b".")?;
    push_decimal(text, number)?;
    text.extend_from_slice(b" ")?;
    push_reply(text, reply)?;
    text.extend_from_slice(b"\n")?;
    Ok(())
}

fn push_replies(text: &mut Vec<u8>, session: u64, replies: &[Reply]) -> Mem<()>
    ensures { OnOk result (text.new.items ≡ text.old.items ++ reply_lines session 1 replies.now) }
{
    for (at, reply) in replies.iter().enumerate() {
        push_reply_line(text, session, at as u64 + 1, reply)?;
    }
    Ok(())
}

// The replies of each session, from session 1 on.
pub fn push_sessions(text: &mut Vec<u8>, replies: &[ReplyList]) -> Mem<()>
    ensures { OnOk result (text.new.items ≡ text.old.items ++ session_lines 1 replies.now) }
{
    for (at, list) in replies.iter().enumerate() {
        push_replies(text, at as u64 + 1, list.as_slice())?;
    }
    Ok(())
}

fn push_row(text: &mut Vec<u8>, row: &RowEnd) -> Mem<()>
    ensures { OnOk result (text.new.items ≡ text.old.items ++ row_line row.now) }
{
    text.extend_from_slice(b"row ")?;
    text.extend_from_slice(row.name.as_bytes())?;
    text.extend_from_slice(b" ")?;
    push_decimal(text, row.len)?;
    text.extend_from_slice(b" ")?;
    push_hex(text, row.sum.as_bytes())?;
    text.extend_from_slice(b"\n")?;
    Ok(())
}

// The lines of the rows.
pub fn push_rows(text: &mut Vec<u8>, rows: &[RowEnd]) -> Mem<()>
    ensures { OnOk result (text.new.items ≡ text.old.items ++ flat_map row_line rows.now) }
{
    for row in rows {
        push_row(text, row)?;
    }
    Ok(())
}

// The line of a word, up to its space, and a number.
pub fn push_number_line(text: &mut Vec<u8>, word: &[u8], number: u64) -> Mem<()>
    ensures { OnOk result (text.new.items ≡ text.old.items ++ line (word.now ++ decimal number)) }
{
    text.extend_from_slice(word)?;
    push_decimal(text, number)?;
    text.extend_from_slice(b"\n")?;
    Ok(())
}
