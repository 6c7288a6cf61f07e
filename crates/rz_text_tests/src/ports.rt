//! The adapters over a reader and a writer that falter.
use crate::comparing::compare;
use rz_ports::{Failed, Sink, Source, StdSink, StdSource};
use std::io;
use std::io::{Error, ErrorKind, Read, Write};
use std::test::Fail;

/// Reads once, through the bound, and gives the bytes that were moved.
fn piece<'a, S: Source>(source: &mut S, out: &'a mut [u8]) -> Result<&'a [u8], Failed> {
    let n = source.read(out)?;
    Ok(&out[..n])
}

/// Writes once, through the bound.
fn offer<S: Sink>(sink: &mut S, piece: &[u8]) -> Result<usize, Failed> {
    sink.write(piece)
}

/// A reader and a writer that is interrupted, moves one byte, fails and then moves none.
#[derive(Drop)]
struct Faltering {
    calls: u8,
}

impl Faltering {
    fn call(&mut self) -> io::Result<usize> {
        self.calls = self.calls.saturating_add(1);
        match self.calls {
            1 => Err(Error::from(ErrorKind::Interrupted)),
            2 => Ok(1),
            3 => Err(Error::from(ErrorKind::BrokenPipe)),
            _ => Ok(0),
        }
    }
}

impl Read for Faltering {
    fn read(&mut self, buf: &mut [u8]) -> io::Result<usize> {
        let n = self.call()?.min(buf.len());
        buf[..n].fill(b'r');
        Ok(n)
    }
}

impl Write for Faltering {
    fn write(&mut self, buf: &[u8]) -> io::Result<usize> {
        Ok(self.call()?.min(buf.len()))
    }

    fn flush(&mut self) -> io::Result<()> {
        Ok(())
    }
}

#[test]
fn adapts_std(rt: HostRuntime) -> Result<(), Fail> {
    let mut source = StdSource::new(Faltering { calls: 0 });
    for want in [Ok(&b"r"[..]), Err(Failed), Ok(b"")] {
        compare(&rt, &piece(&mut source, &mut [0; 4]), &want, "a reader");
    }
    let mut text = StdSource::new(&b"abc"[..]);
    for want in [&b"ab"[..], b"c", b""] {
        compare(&rt, &piece(&mut text, &mut [0; 2]), &Ok(want), "a text");
    }
    let mut sink = StdSink::new(Faltering { calls: 0 });
    for want in [Ok(1), Err(Failed), Ok(0)] {
        compare(&rt, &offer(&mut sink, b"abc"), &want, "a writer");
    }
    Ok(())
}
