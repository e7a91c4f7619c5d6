//! Sources and sinks over those of std, through their traits.
use sf_outside::{Failed, Sink, Source, StdStream};
use std::io;
use std::io::{ErrorKind, Read, Write};
use std::process::Abort;
use std::test::Fail;

// Reads into a buffer of four bytes, and compares the answer and the whole buffer.
fn expect_read<S: Source>(
    rt: &impl Abort,
    source: &mut S,
    wanted: (Result<usize, Failed>, [u8; 4]),
) {
    let mut buffer = *b"....";
    let answer = source.read(&mut buffer);
    assert_eq!(rt; answer, wanted.0);
    assert_eq!(rt; buffer, wanted.1);
}

// Writes a piece, and compares the answer.
fn expect_write<K: Sink>(
    rt: &impl Abort,
    sink: &mut K,
    piece: &[u8],
    wanted: Result<usize, Failed>,
) {
    let answer = sink.write(piece);
    assert_eq!(rt; answer, wanted);
}

// Gives two bytes a call, and fails at its second call.
#[derive(Drop)]
struct FailsOnce<'a> {
    bytes: &'a [u8],
    calls: u8,
}

impl Read for FailsOnce<'_> {
    fn read(&mut self, buf: &mut [u8]) -> io::Result<usize> {
        self.calls = self.calls.saturating_add(1);
        if self.calls == 2 {
            return Err(io::Error::from(ErrorKind::Other));
        }
        let room = buf.len().min(2);
        self.bytes.read(&mut buf[..room])
    }
}

#[test]
fn a_standard_source_counts_faults_and_goes_on(rt: HostRuntime) {
    let mut source = StdStream::new(b"abcdef".as_slice());
    expect_read(&rt, &mut source, (Ok(4), *b"abcd"));
    expect_read(&rt, &mut source, (Ok(2), *b"ef.."));
    expect_read(&rt, &mut source, (Ok(0), *b"...."));
    assert_eq!(rt; source.fault_count(), 0);

    let reader = FailsOnce {
        bytes: b"abc".as_slice(),
        calls: 0,
    };
    let mut source = StdStream::new(reader);
    expect_read(&rt, &mut source, (Ok(2), *b"ab.."));
    assert_eq!(rt; source.fault_count(), 0);
    expect_read(&rt, &mut source, (Err(Failed), *b"...."));
    assert_eq!(rt; source.fault_count(), 1);
    expect_read(&rt, &mut source, (Ok(1), *b"c..."));
    assert_eq!(rt; source.fault_count(), 1);
}

// Takes nothing, and answers so.
#[derive(Drop)]
struct TakesNothing;

impl Write for TakesNothing {
    fn write(&mut self, _buf: &[u8]) -> io::Result<usize> {
        Ok(0)
    }

    fn flush(&mut self) -> io::Result<()> {
        Ok(())
    }
}

#[test]
fn a_standard_sink_counts_a_write_of_nothing(rt: HostRuntime) {
    let mut out = Vec::new(rt.alloc());
    let mut sink = StdStream::new(&mut out);
    expect_write(&rt, &mut sink, b"abc", Ok(3));
    expect_write(&rt, &mut sink, b"", Ok(0));
    expect_write(&rt, &mut sink, b"de", Ok(2));
    assert_eq!(rt; sink.fault_count(), 0);
    assert_eq!(rt; out.as_slice(), b"abcde".as_slice());

    let mut sink = StdStream::new(TakesNothing);
    expect_write(&rt, &mut sink, b"", Ok(0));
    assert_eq!(rt; sink.fault_count(), 0);
    expect_write(&rt, &mut sink, b"abc", Err(Failed));
    assert_eq!(rt; sink.fault_count(), 1);
}
