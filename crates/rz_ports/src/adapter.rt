//! The reader and the writer of std as a source and a sink.
ghost use Rattle.std.specs.Prelude.{◌≡◌, ◌<◌, ◌≤◌, ◌↔◌, ◌⊎◌, [], length, take, is_err, IfOk, IfSome, OnErr, if◌then◌else◌};
ghost use Rattle.std.specs.Io.KnownBytes.{Appends, Consumes, IsAtEnd, Keeps};
ghost use Rattle.rz_ports.specs.Counts.{Rises, one_more};
ghost use Rattle.rz_ports.specs.Memory.{took_none};

use crate::{Failed, Sink, Source};
use std::io;
use std::io::{ErrorKind, Read, Write};

/// How often a call that a signal interrupts is made again.
const TRIES: u64 = u64::MAX;

/// A source over a reader of std. Each error of the reader counts as a fault. After an interruption
/// the read is made again, and any other error is answered.
#[derive(Drop)]
pub struct StdSource<R: Read + Drop> {
    reader: R,
    faults: u64,
}

impl<R: Read + Drop> StdSource<R> {
    /// A source over this reader, with no faults so far.
    pub fn new(reader: R) -> Self
        ensures left { ⟦<StdSource<R> as Source>⟧.left result ≡ R.remaining reader }
        ensures faults { ⟦<StdSource<R> as Source>⟧.faults result ≡ 0 }
    {
        StdSource { reader, faults: 0 }
    }

    /// One call of the reader, with its own answer: the bytes that it moved to the front of `out`,
    /// by their number, or its error. An interruption is answered like any other error, after
    /// which nothing was moved. Each error counts as one fault, and nothing else does. 0 is given
    /// only at the end, or where `out` is empty.
    pub fn attempt(&mut self, out: &mut [u8]) -> io::Result<usize>
        ensures within { IfOk result (λ n. n ≤ length out.old) }
        ensures moved { IfOk result (λ n. Consumes (⟦<StdSource<R> as Source>⟧.left self.old) (⟦<StdSource<R> as Source>⟧.left self.new) (take n out.new)) }
        ensures ended { IfOk result (λ n. n ≡ 0 → 0 < length out.old → IsAtEnd (⟦<StdSource<R> as Source>⟧.left self.new)) }
        ensures failed { OnErr result (Keeps (⟦<StdSource<R> as Source>⟧.left self.old) (⟦<StdSource<R> as Source>⟧.left self.new)) }
        ensures counted { ⟦<StdSource<R> as Source>⟧.faults self.new ≡ (if is_err result then one_more (⟦<StdSource<R> as Source>⟧.faults self.old) else ⟦<StdSource<R> as Source>⟧.faults self.old) }
    {
        let answer = self.reader.read(out);
        if answer.is_err() {
            self.faults = self.faults.saturating_add(1);
        }
        answer
    }
}

impl<R: Read + Drop> Source for StdSource<R> {
    ghost left = { λ s. R.remaining s.reader };

    ghost faults = { λ s. s.faults };

    fn read(&mut self, out: &mut [u8]) -> Result<usize, Failed> {
        for _ in 0..TRIES {
            match self.attempt(out) {
                Ok(n) => return Ok(n),
                Err(e) if e.kind() == ErrorKind::Interrupted => {}
                Err(_) => return Err(Failed),
            }
        }
        self.faults = self.faults.saturating_add(1);
        Err(Failed)
    }
}

/// A sink over a writer of std. Each error of the writer counts as a fault, and so does a write
/// that takes nothing of a piece that is not empty. After an interruption the write is made again,
/// and any other error is answered. The writer is never flushed.
#[derive(Drop)]
pub struct StdSink<W: Write + Drop> {
    writer: W,
    faults: u64,
}

impl<W: Write + Drop> StdSink<W> {
    /// A sink over this writer, with no faults so far.
    pub fn new(writer: W) -> Self
        ensures taken { ⟦<StdSink<W> as Sink>⟧.taken result ≡ W.contents writer }
        ensures faults { ⟦<StdSink<W> as Sink>⟧.faults result ≡ 0 }
    {
        StdSink { writer, faults: 0 }
    }

    /// One call of the writer, with its own answer: how many bytes it took from the front of
    /// `bytes`, or its error. An interruption is answered like any other error, after which
    /// nothing was taken. Each error counts as one fault, and so does 0 for a piece that is not
    /// empty. Nothing else does.
    pub fn attempt(&mut self, bytes: &[u8]) -> io::Result<usize>
        ensures within { IfOk result (λ n. n ≤ length bytes.now) }
        ensures appended { IfOk result (λ n. Appends (⟦<StdSink<W> as Sink>⟧.taken self.old) (⟦<StdSink<W> as Sink>⟧.taken self.new) (take n bytes.now)) }
        ensures failed { OnErr result (Keeps (⟦<StdSink<W> as Sink>⟧.taken self.old) (⟦<StdSink<W> as Sink>⟧.taken self.new)) }
        ensures counted { IfOk result (λ n. ⟦<StdSink<W> as Sink>⟧.faults self.new ≡ (if took_none n bytes.now then one_more (⟦<StdSink<W> as Sink>⟧.faults self.old) else ⟦<StdSink<W> as Sink>⟧.faults self.old)) }
        ensures counted_error { OnErr result (⟦<StdSink<W> as Sink>⟧.faults self.new ≡ one_more (⟦<StdSink<W> as Sink>⟧.faults self.old)) }
    {
        let answer = self.writer.write(bytes);
        match answer {
            Ok(n) if n > 0 || bytes.is_empty() => {}
            _ => self.faults = self.faults.saturating_add(1),
        }
        answer
    }
}

impl<W: Write + Drop> Sink for StdSink<W> {
    ghost taken = { λ s. W.contents s.writer };

    ghost faults = { λ s. s.faults };

    fn write(&mut self, bytes: &[u8]) -> Result<usize, Failed> {
        for _ in 0..TRIES {
            match self.attempt(bytes) {
                Ok(n) => return Ok(n),
                Err(e) if e.kind() == ErrorKind::Interrupted => {}
                Err(_) => return Err(Failed),
            }
        }
        self.faults = self.faults.saturating_add(1);
        Err(Failed)
    }
}
