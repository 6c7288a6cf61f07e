//! How a range goes on.

ghost use Rattle.std.specs.Prelude.{◌≡◌, ◌≤◌, ◌<◌, ◌+◌, ◌/◌, Some, length, take, true};
ghost use Rattle.mj_angles.specs.Layout.{safe_of, block_bytes_of};
ghost use Rattle.rz_reader.specs.Machine.{machine_for};
ghost use Rattle.rz_writer.specs.Machine.{key_in};
ghost use Rattle.rz_client_model.specs.Write.{writer_start};
ghost use Rattle.rz_operation_model.specs.Ranges.{Giving};
ghost use Rattle.rz_operation_model.specs.Files.{go_on, next_block, with_text, after_part, after_block};
ghost use Rattle.rz_file.specs.Ranges.{InRange};
ghost use Rattle.rz_file.specs.Writing.{own_write};
ghost use Rattle.rz_file.specs.Inside.{IsSpan, AreHands, IsFile, HasNoRecords, CanWrite, IsShortMark, size_of, range_in, state_of};

use crate::block_writer::BlockWriter;
use crate::range::RangeProgress;
use crate::span::{Aim, RangeStep, Span};
use crate::texts::{patch, push_cut};
use mj_angles::Layout;
use rz_events::{FileEnd, ReadMark, WriteEnd};
use rz_reader::Reader;

/// The range goes on with its next block, if one is left.
pub fn go_on(
    layout: Layout,
    span: &mut Span,
    reader: &mut Reader,
    writer: &mut BlockWriter,
) -> RangeStep
    requires span { IsSpan layout span.old }
    requires hands { AreHands layout span.old.aim reader.old writer.old }
    ensures state { state_of span.new reader.new.state writer.new.state result ≡ go_on layout (range_in span.old) }
    ensures inside { IsFile layout span.new reader.new writer.new result }
    ensures fresh { HasNoRecords reader.new result }
{
    let range = span.range;
    if range.done == range.size {
        return RangeStep::Ended(FileEnd::Whole { bytes: range.done });
    }
    match span.aim {
        Aim::Taking => read_block(layout, range, reader),
        Aim::Giving => give(layout, span, reader, writer),
    }
}

/// The block in hand is written, or is read first where the range does not cover it whole.
fn give(layout: Layout, span: &mut Span, reader: &mut Reader, writer: &mut BlockWriter) -> RangeStep
    requires span { IsSpan layout span.old }
    requires aim { span.old.aim ≡ Aim.Giving }
    requires hands { AreHands layout span.old.aim reader.old writer.old }
    ensures state { state_of span.new reader.new.state writer.new.state result ≡ next_block layout (range_in span.old) (Giving span.old.bytes.items) }
    ensures inside { IsFile layout span.new reader.new writer.new result }
    ensures fresh { HasNoRecords reader.new result }
{
    let range = span.range;
    if !range.is_whole(layout) {
        return read_block(layout, range, reader);
    }
    span.text.clear();
    push_cut(
        &mut span.text,
        &span.bytes,
        range.done as usize,
        layout.block_bytes(),
    );
    write_whole(layout, span, range.place(layout), writer)
}

/// The block in hand is read.
fn read_block(layout: Layout, range: RangeProgress, reader: &mut Reader) -> RangeStep
    requires layout { reader.old.state.layout ≡ layout }
    requires places { length range.info.places ≡ safe_of layout }
    requires range { InRange range }
    ensures step { result ≡ RangeStep.Reading }
    ensures reader { reader.new ≡ machine_for layout range.info ((range.offset + range.done) / block_bytes_of layout) }
{
    reader.again(&range.info, range.key(layout).block);
    RangeStep::Reading
}

/// The block in hand is written with the text.
fn write_block(layout: Layout, span: &Span, writer: &mut BlockWriter) -> RangeStep
    requires layout { writer.old.layout ≡ layout }
    requires bins { CanWrite Aim.Giving writer.old.own }
    requires places { length span.now.range.info.places ≡ safe_of layout }
    requires range { InRange span.now.range }
    requires short { length span.now.text.items ≤ block_bytes_of layout }
    ensures step { result ≡ RangeStep.Writing }
    ensures writer { writer.new ≡ own_write layout span.now.range.info ((span.now.range.offset + span.now.range.done) / block_bytes_of layout) span.now.text.items }
{
    writer.again(&span.range.info, span.range.key(layout).block, &span.text);
    RangeStep::Writing
}

/// The block in hand is written with the text, which is that of the block at this place in the batch.
fn write_whole(layout: Layout, span: &Span, place: usize, writer: &mut BlockWriter) -> RangeStep
    requires layout { writer.old.layout ≡ layout }
    requires places { length span.now.range.info.places ≡ safe_of layout }
    requires range { InRange span.now.range }
    requires short { length span.now.text.items ≤ block_bytes_of layout }
    ensures step { result ≡ RangeStep.Writing }
    ensures writer { writer.new ≡ record writer.old {
      state = writer_start layout (key_in span.now.range.info ((span.now.range.offset + span.now.range.done) / block_bytes_of layout)) span.now.range.info.places (length span.now.text.items);
      place = Some place;
    } }
{
    let block = span.range.key(layout).block;
    writer.again_at(&span.range.info, block, span.text.len() as u32, place);
    RangeStep::Writing
}

/// The block in hand was found with the first so many bytes of what was found.
fn with_text(
    layout: Layout,
    span: &mut Span,
    size: usize,
    reader: &mut Reader,
    writer: &mut BlockWriter,
) -> RangeStep
    requires span { IsSpan layout span.old }
    requires short { size ≤ block_bytes_of layout }
    requires hands { AreHands layout span.old.aim reader.old writer.old }
    ensures state { state_of span.new reader.new.state writer.new.state result ≡ with_text layout (range_in span.old) (take size span.old.found.items) (range_in span.old).aim }
    ensures inside { IsFile layout span.new reader.new writer.new result }
    ensures fresh { HasNoRecords reader.new result }
{
    let range = span.range;
    let start = range.start(layout);
    let count = range.count(layout);
    match span.aim {
        Aim::Taking => {
            push_cut(&mut span.bytes, &span.found[..size], start, count);
            span.range.done += count as u64;
            go_on(layout, span, reader, writer)
        }
        Aim::Giving => {
            let done = range.done as usize;
            patch(
                &mut span.text,
                &span.found[..size],
                start,
                &span.bytes,
                done,
                count,
            );
            write_block(layout, span, writer)
        }
    }
}

/// How a range goes on after the read of its block.
pub fn after_part(
    layout: Layout,
    span: &mut Span,
    mark: ReadMark,
    reader: &mut Reader,
    writer: &mut BlockWriter,
) -> RangeStep
    requires span { IsSpan layout span.old }
    requires short { IsShortMark layout mark }
    requires hands { AreHands layout span.old.aim reader.old writer.old }
    ensures state { state_of span.new reader.new.state writer.new.state result ≡ after_part layout (range_in span.old) (take (size_of mark) span.old.found.items) mark }
    ensures inside { IsFile layout span.new reader.new writer.new result }
    ensures fresh { HasNoRecords reader.new result }
{
    match mark {
        ReadMark::Found { length, .. } => with_text(layout, span, length as usize, reader, writer),
        ReadMark::Hole => with_text(layout, span, 0, reader, writer),
        _ => RangeStep::Ended(FileEnd::ShortRead {
            bytes: span.range.done,
            end: mark,
        }),
    }
}

/// How a range goes on after the write of its block.
pub fn after_block(
    layout: Layout,
    span: &mut Span,
    end: WriteEnd,
    reader: &mut Reader,
    writer: &mut BlockWriter,
) -> RangeStep
    requires span { IsSpan layout span.old }
    requires aim { span.old.aim ≡ Aim.Giving }
    requires hands { AreHands layout span.old.aim reader.old writer.old }
    ensures state { state_of span.new reader.new.state writer.new.state result ≡ after_block layout (range_in span.old) end }
    ensures inside { IsFile layout span.new reader.new writer.new result }
    ensures fresh { HasNoRecords reader.new result }
{
    let bytes = span.range.done;
    match end {
        WriteEnd::Acked { .. } => {
            span.range.done += span.range.count(layout) as u64;
            go_on(layout, span, reader, writer)
        }
        _ => RangeStep::Ended(FileEnd::ShortWrite { bytes, end }),
    }
}
