//! Calls as they are spelled.
ghost use Rattle.std.specs.Prelude.{◌≡◌, IfOk};
ghost use Rattle.sf_script_calls.specs.Calls.{call_with, spelled_call, payload_length};
ghost use Rattle.sf_script_calls.specs.Views.{call_view};

use crate::payload::{SpelledPayload, bytes_of, length_of};
use sf_types::{Blob, Call, LocName, Mem};
use std::alloc::Global;

/// A call that wants a payload. Offsets count bytes from 1, amounts count bytes.
#[derive(Drop)]
pub enum PayloadCall {
    /// INSTR.
    Instr {
        at: LocName,
        offset: u64,
    },
    /// WRITE.
    Write {
        at: LocName,
        offset: u64,
    },
    /// WRITEAPPEND.
    WriteAppend {
        at: LocName,
    },
    /// FRAGMENT_INSERT.
    FragInsert {
        at: LocName,
        offset: u64,
    },
    /// FRAGMENT_REPLACE.
    FragReplace {
        at: LocName,
        old_amount: u64,
        offset: u64,
    },
}

/// A call as it is spelled.
#[derive(Drop)]
pub enum SpelledCall<'a> {
    /// Without a payload.
    Plain(Call),
    /// With one.
    WithPayload(PayloadCall, SpelledPayload<'a>),
}

// The call with the bytes of its payload.
fn call_with(call: PayloadCall, bytes: Blob) -> Call
    ensures { result ≡ call_with call bytes }
{
    match call {
        PayloadCall::Instr { at, offset } => Call::Instr {
            at,
            pattern: bytes,
            offset,
        },
        PayloadCall::Write { at, offset } => Call::Write { at, offset, bytes },
        PayloadCall::WriteAppend { at } => Call::WriteAppend { at, bytes },
        PayloadCall::FragInsert { at, offset } => Call::FragInsert { at, offset, bytes },
        PayloadCall::FragReplace {
            at,
            old_amount,
            offset,
        } => Call::FragReplace {
            at,
            old_amount,
            offset,
            bytes,
        },
    }
}

/// The number of bytes of a call's payload, 0 where it has none.
pub fn payload_length(call: &Call) -> u64
    ensures { result ≡ payload_length call.now }
{
    match call {
        Call::Instr { pattern, .. } => pattern.len() as u64,
        Call::Write { bytes, .. } => bytes.len() as u64,
        Call::WriteAppend { bytes, .. } => bytes.len() as u64,
        Call::FragInsert { bytes, .. } => bytes.len() as u64,
        Call::FragReplace { bytes, .. } => bytes.len() as u64,
        _ => 0,
    }
}

/// The number of bytes of the payload of a call as it is spelled, 0 where it has none.
pub fn spelled_length(call: &SpelledCall) -> u64
    ensures { result ≡ payload_length (spelled_call (call_view call.now)) }
{
    match call {
        SpelledCall::Plain(call) => payload_length(call),
        SpelledCall::WithPayload(_, payload) => length_of(*payload),
    }
}

/// The call that is spelled so.
pub fn spelled_call(alloc: Global, call: SpelledCall) -> Mem<Call>
    ensures { IfOk result (λ made. made ≡ spelled_call (call_view call.entry)) }
{
    match call {
        SpelledCall::Plain(call) => Ok(call),
        SpelledCall::WithPayload(call, payload) => {
            let bytes = bytes_of(alloc, payload)?;
            Ok(call_with(call, bytes))
        }
    }
}
