//! A script whose operations no line lets go on.

use rz_ports::{Failed, Source};
use rz_script::{Form, Line, Script};
use std::alloc::Global;

/// A source that keeps what is read of it.
#[derive(Drop)]
pub struct Recorded<I: Source> {
    source: I,
    bytes: Vec<u8>,
    /// Whether there was memory for all that was read.
    is_whole: bool,
}

impl<I: Source> Recorded<I> {
    /// A source of which nothing is read so far.
    pub fn new(alloc: Global, source: I) -> Recorded<I> {
        Recorded {
            source,
            bytes: Vec::new(alloc),
            is_whole: true,
        }
    }

    /// Whether what was read is a script with operations.
    pub fn has_operations(&self, alloc: Global) -> bool {
        if !self.is_whole || self.bytes.len() >= 1 << 32 {
            return false;
        }
        match Script::read(alloc, &self.bytes, Form::Replay) {
            Ok(script) => script.lines().iter().any(is_operation),
            Err(_) => false,
        }
    }
}

fn is_operation(line: &Line) -> bool {
    match line {
        Line::Op { .. } => true,
        _ => false,
    }
}

impl<I: Source> Source for Recorded<I> {
    ghost left = { λ s. I.left s.source };

    ghost faults = { λ s. I.faults s.source };

    fn read(&mut self, out: &mut [u8]) -> Result<usize, Failed> {
        let n = self.source.read(out)?;
        self.is_whole &= self.bytes.extend_from_slice(&out[..n]).is_ok();
        Ok(n)
    }
}
