//! A script of some thousand calls on five rows, whose replies and places follow from arithmetic.
use super::one_session::OneSession;
use super::played;
use sf_program::Status;
use sf_types::{push_hex, sum_of};
use std::alloc::Global;
use std::test::*;

// No equal contents share a place, and nothing is flushed before the commit.
const OPTIONS: &str = "capacity 65536\ndedup off\ngather 1048576\n";

const ROWS: u64 = 5;

// How many pieces each row gets, and how many bytes a piece has.
const PIECES: u64 = 400;

const PIECE_BYTES: u64 = 640;

// The most bytes of a content, and the bytes of a block.
const CONTENT_BYTES: usize = 32_768;

const BLOCK_BYTES: u64 = 512;

// The blocks that five rows of 256,000 bytes leave: each has seven contents of 64 blocks and one of 52.
const FREE_BLOCKS: u64 = 65_536 - 5 * (7 * 64 + 52);

// The digests of what the rows hold at the end, as another program computed them.
const SUMS: [&str; 5] = [
    "35504b5e216e67ea4c3f04e7ce13a1dcf8d9a24f277e8257f8bbc11a78fe6d5a",
    "e142c167e0e166fa9f5453565100d718457e1facd90c0150b1c0259c22e5ba81",
    "97233417590d9882fa01a3c461f3151f00f74e9300ef37de555ccf18e9b6f5c8",
    "2c9597cbba7979ffeb1fb2b5b842402a93343f8e374df7baa1c072f7955a8808",
    "79d885b16499b686c64bb88ab2dc97f36e311df8f300a3246d181db4fcc95e9d",
];

// The byte of which a piece of a row is made.
fn letter(row: u64, piece: u64) -> u8 {
    b'a' + ((row % 26 + piece % 26) % 26) as u8
}

// What a row holds.
fn row_bytes(alloc: Global, row: u64) -> Result<Vec<u8>, Fail> {
    let mut bytes = Vec::new(alloc);
    for piece in 0..PIECES {
        let letters = vec![in alloc; letter(row, piece + 1); PIECE_BYTES as usize]?;
        bytes.extend_from_slice(&letters)?;
    }
    Ok(bytes)
}

// One more piece of a row, and a look at the row's length.
fn append(alloc: Global, play: &mut OneSession, row: u64, piece: u64) -> Result<(), Fail> {
    let count = PIECE_BYTES;
    let byte = letter(row, piece);
    play.call(
        &format!(in alloc; "writeappend p{row} {count}*x{byte:02x}")?,
        "ok",
    )?;
    let length = piece.saturating_mul(PIECE_BYTES);
    play.call(
        &format!(in alloc; "length p{row}")?,
        &format!(in alloc; "{length}")?,
    )
}

// Each row gets its pieces by turns, and then the last byte of its first piece and the first of its second are read.
fn many_calls(alloc: Global) -> Result<OneSession, Fail> {
    let mut play = OneSession::new(alloc, OPTIONS)?;
    for row in 0..ROWS {
        play.call(&format!(in alloc; "insert r{row}")?, "ok")?;
        play.call(&format!(in alloc; "lock p{row} r{row}")?, "ok")?;
    }
    for piece in 0..PIECES {
        for row in 0..ROWS {
            append(alloc, &mut play, row, piece + 1)?;
        }
    }
    for row in 0..ROWS {
        let first = letter(row, 1);
        let second = letter(row, 2);
        let read = format!(in alloc; "read p{row} 2 {PIECE_BYTES}")?;
        play.call(&read, &format!(in alloc; "x{first:02x}{second:02x}")?)?;
    }
    play.promise()?;
    play.call("commit", "commit 1")?;
    play.reply("end")?;
    Ok(play)
}

// The contents of all rows stand one behind the other.
fn push_places(alloc: Global, text: &mut Vec<u8>) -> Result<(), Fail> {
    let mut birth = 1u64;
    let mut first = 0u64;
    for row in 0..ROWS {
        let bytes = row_bytes(alloc, row)?;
        for content in bytes.chunks(CONTENT_BYTES) {
            let length = content.len() as u64;
            let count = length.div_ceil(BLOCK_BYTES);
            text.extend_from_slice(format!(in alloc; "place {birth} {length} ")?.as_bytes())?;
            push_hex(text, sum_of(content).as_bytes())?;
            text.extend_from_slice(format!(in alloc; " {first}+{count}\n")?.as_bytes())?;
            birth = birth.saturating_add(1);
            first = first.saturating_add(count);
        }
    }
    Ok(())
}

// What is told of the end.
fn push_end(alloc: Global, text: &mut Vec<u8>) -> Result<(), Fail> {
    push_places(alloc, text)?;
    text.extend_from_slice(format!(in alloc; "free {FREE_BLOCKS}\n")?.as_bytes())?;
    let length = PIECES * PIECE_BYTES;
    for (row, sum) in SUMS.iter().enumerate() {
        let line = format!(in alloc; "row r{row} {length} {sum}\n")?;
        text.extend_from_slice(line.as_bytes())?;
    }
    text.extend_from_slice(b"now 1\n")?;
    Ok(())
}

#[test]
fn plays_a_long_script(rt: HostRuntime) -> Result<(), Fail> {
    let alloc = rt.alloc();
    let play = many_calls(alloc)?;
    let mut wanted = play.transcript()?;
    push_end(alloc, &mut wanted)?;
    let (status, sink) = played(alloc, play.script()?, 100_000)?;
    assert_eq!(rt; status, Status::Done);
    assert!(rt; sink.bytes() == wanted.as_slice());
    Ok(())
}
