//! The machine of a range.

ghost use Rattle.std.specs.Prelude.{◌≡◌, length};
ghost use Rattle.rz_operation_model.specs.Files.{IsFileAnswer, file_ask, file_end, go_on};
ghost use Rattle.rz_file.specs.Machine.{FitsIfEnough, IsUnderWay, IsLaidOut, IsAskOf, IsKeepAsked, AreBins, IsCountIn, IsTextLong, ComeWith, IsEndIn, IsReaderIn, IsWriterIn, IsReadAsked, IsWriteAsked, machine_with, aim_in, bytes_in, text_in, is_taking};
ghost use Rattle.rz_file.specs.Inside.{IsSpan, AreHands, range_in};

use crate::answers::after;
use crate::asks::{bins_in, found_size, read_ask, write_ask};
use crate::block_writer::BlockWriter;
use crate::span::{Aim, RangeStep, Span};
use crate::steps::go_on;
use mj_angles::Layout;
use rz_client_model::{ReaderState, WriterState};
use rz_events::{FileAnswer, FileAsk, FileEnd};
use rz_reader::Reader;
use std::marker::Model;

/// The write or read of a range of bytes of a file.
///
/// Contracts see how far it has come; the angles and bins of the records of the block that is read, while
/// they are fetched; and the block that fits them, once it is found.
#[derive(Drop)]
pub struct FileMachine {
    layout: Layout,
    span: Span,
    step: RangeStep,
    reader: Reader,
    writer: BlockWriter,
}

impl Model for FileMachine {
    ghost use Rattle.rz_file.specs.Machine.{Machine};

    ghost Value = { Machine };

    ghost use Rattle.rz_file.specs.Inside.{machine_of, IsFile};

    ghost view = { λ m. machine_of m.layout m.span m.reader m.writer m.step };

    ghost invariant = { λ m. IsFile m.layout m.span m.reader m.writer m.step };
}

impl FileMachine {
    /// What the range asks next.
    pub fn next(&self) -> FileAsk
        ensures value { result ≡ file_ask self.now.state }
        ensures under_way { IsUnderWay self.now.state }
        ensures layout { IsLaidOut self.now.layout self.now.state }
        ensures place { IsAskOf self.now.layout result }
    {
        match self.step {
            RangeStep::Reading => read_ask(&self.reader),
            RangeStep::Writing => write_ask(&self.writer),
            RangeStep::Ended(_) => FileAsk::End,
        }
    }

    /// The bins of the position that the write of the block in hand asks a node to keep.
    pub fn bins(&self) -> &[u64]
        requires { IsKeepAsked (file_ask self.now.state) }
        ensures bins { AreBins self.now result.now }
        ensures count { IsCountIn self.now.layout (file_ask self.now.state) result.now }
    {
        bins_in(self.layout, &self.span, &self.writer)
    }

    /// The text of the block in hand: the one that was found, or that is written.
    pub fn text(&self) -> &[u8]
        ensures text { result.now ≡ text_in self.now.state self.now.block }
        ensures long { IsTextLong self.now.state (length result.now) }
    {
        match self.step {
            RangeStep::Reading => &self.span.found[..found_size(&self.reader)],
            RangeStep::Writing => &self.span.text,
            RangeStep::Ended(_) => &[],
        }
    }

    /// Takes the answer to what was asked, and with a record the bins of its position.
    pub fn tell(&mut self, answer: FileAnswer, bins: &[u64])
        requires asked { IsFileAnswer self.old.layout (file_ask self.old.state) answer }
        requires bins { ComeWith self.old.layout (file_ask self.old.state) answer bins.now }
        ensures answered { FitsIfEnough self.old answer bins.now self.new }
        ensures layout { self.new.layout ≡ self.old.layout }
    {
        self.step = after(
            self.layout,
            &mut self.span,
            self.step,
            answer,
            bins,
            &mut self.reader,
            &mut self.writer,
        );
    }

    /// How the range ended, once it has.
    pub fn end(&self) -> Option<FileEnd>
        ensures value { result ≡ file_end self.now.state }
        ensures short { IsEndIn self.now.state }
    {
        match self.step {
            RangeStep::Ended(end) => Some(end),
            _ => None,
        }
    }

    /// What was read so far, or what is written.
    pub fn bytes(&self) -> &[u8]
        ensures { result.now ≡ bytes_in self.now.state }
    {
        &self.span.bytes
    }

    /// What was read, or what is written.
    pub fn into_bytes(self) -> Vec<u8>
        ensures { result.items ≡ bytes_in self.state }
    {
        let FileMachine {
            layout: _,
            span,
            step: _,
            reader: _,
            writer: _,
        } = self;
        span.bytes
    }

    /// Whether the range is read.
    pub fn is_read(&self) -> bool
        ensures { result ≡ is_taking (aim_in self.now.state) }
    {
        matches!(self.span.aim, Aim::Taking)
    }

    /// The read of the block in hand.
    pub fn reader(&self) -> &ReaderState
        requires { IsReadAsked (file_ask self.now.state) }
        ensures { IsReaderIn self.now.state result.now }
    {
        self.reader.state()
    }

    /// The write of the block in hand.
    pub fn writer(&self) -> &WriterState
        requires { IsWriteAsked (file_ask self.now.state) }
        ensures { IsWriterIn self.now.state result.now }
    {
        self.writer.state()
    }
}

/// The machine that begins with a range.
pub fn begin(
    layout: Layout,
    mut span: Span,
    mut reader: Reader,
    mut writer: BlockWriter,
) -> FileMachine
    requires span { IsSpan layout span }
    requires hands { AreHands layout span.aim reader writer }
    ensures { result ≡ machine_with layout (go_on layout (range_in span)) }
{
    let step = go_on(layout, &mut span, &mut reader, &mut writer);
    FileMachine {
        layout,
        span,
        step,
        reader,
        writer,
    }
}
