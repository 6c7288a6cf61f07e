//! How a range goes on after an answer.

ghost use Rattle.std.specs.Prelude.{◌≡◌, ◌≤◌, length, true, List, ℕ};
ghost use Rattle.mj_angles.specs.Layout.{block_bytes_of};
ghost use Rattle.rz_client_model.specs.Read.{reader_ask, reader_end, reader_told};
ghost use Rattle.rz_client_model.specs.Write.{writer_ask, writer_end};
ghost use Rattle.rz_reader.specs.Machine.{IsBlockOf, pairs_at};
ghost use Rattle.rz_reader.specs.Told.{IsOtherTold, IsFetchedInto};
ghost use Rattle.rz_operation_model.specs.Files.{IsFileAnswer, ask_to_read, ask_to_write, file_ask};
ghost use Rattle.rz_file.specs.Machine.{ComeWith, FitsIfEnough};
ghost use Rattle.rz_file.specs.Told.{IsFetchAsk};
ghost use Rattle.rz_file.specs.Inside.{IsFile, IsFoundText, machine_of, state_of};

use crate::asks::found_size;
use crate::block_writer::BlockWriter;
use crate::span::{RangeStep, Span};
use crate::steps::{after_block, after_part};
use mj_angles::Layout;
use rz_events::{FetchAnswer, FileAnswer, ReadMark, ReaderAnswer};
use rz_reader::Reader;

/// How a range goes on after the answer to what it asked.
pub fn after(
    layout: Layout,
    span: &mut Span,
    step: RangeStep,
    answer: FileAnswer,
    bins: &[u64],
    reader: &mut Reader,
    writer: &mut BlockWriter,
) -> RangeStep
    requires inside { IsFile layout span.old reader.old writer.old step }
    requires asked { IsFileAnswer layout (file_ask (state_of span.old reader.old.state writer.old.state step)) answer }
    requires bins { ComeWith layout (file_ask (state_of span.old reader.old.state writer.old.state step)) answer bins.now }
    ensures answered { FitsIfEnough (machine_of layout span.old reader.old writer.old step) answer bins.now (machine_of layout span.new reader.new writer.new result) }
    ensures inside { IsFile layout span.new reader.new writer.new result }
{
    match step {
        RangeStep::Reading => after_reading(layout, span, answer, bins, reader, writer),
        RangeStep::Writing => after_writing(layout, span, answer, reader, writer),
        RangeStep::Ended(_) => unreachable!(),
    }
}

/// How a range goes on that reads its block.
fn after_reading(
    layout: Layout,
    span: &mut Span,
    answer: FileAnswer,
    bins: &[u64],
    reader: &mut Reader,
    writer: &mut BlockWriter,
) -> RangeStep
    requires inside { IsFile layout span.old reader.old writer.old RangeStep.Reading }
    requires asked { IsFileAnswer layout (ask_to_read reader.old.state.key.block (reader_end reader.old.state) (reader_ask reader.old.state)) answer }
    requires bins { ComeWith layout (ask_to_read reader.old.state.key.block (reader_end reader.old.state) (reader_ask reader.old.state)) answer bins.now }
    ensures answered { FitsIfEnough (machine_of layout span.old reader.old writer.old RangeStep.Reading) answer bins.now (machine_of layout span.new reader.new writer.new result) }
    ensures inside { IsFile layout span.new reader.new writer.new result }
{
    match answer {
        FileAnswer::Read(ReaderAnswer::Fetched(answer)) => {
            tell_fetch(reader, answer, bins);
            keep_found(layout, &mut span.found, reader);
            RangeStep::Reading
        }
        FileAnswer::Read(answer) => {
            tell_other(reader, answer);
            keep_found(layout, &mut span.found, reader);
            RangeStep::Reading
        }
        FileAnswer::Noted => {
            let Some(mark) = reader.end() else {
                unreachable!()
            };
            let _state = reader.state();
            after_part(layout, span, mark, reader, writer)
        }
        FileAnswer::Write(_) => unreachable!(),
    }
}

/// Tells the read what a node answered to its fetch.
fn tell_fetch(reader: &mut Reader, answer: FetchAnswer, bins: &[u64])
    requires { IsFetchAsk reader.old.state.layout answer bins.now (reader_ask reader.old.state) }
    ensures { IsFetchedInto reader.old answer bins.now reader.new }
{
    reader.tell(ReaderAnswer::Fetched(answer), bins);
}

/// Tells the read another answer.
fn tell_other(reader: &mut Reader, answer: ReaderAnswer)
    requires { IsOtherTold reader.old.state.layout (reader_ask reader.old.state) answer }
    ensures state { reader.new.state ≡ reader_told true reader.old.state answer }
    ensures pairs { reader.new.pairs ≡ pairs_at reader.new.state.stage reader.old.pairs }
    ensures block { IsBlockOf reader.old.state.layout reader.old.pairs reader.new.state.stage reader.new.block }
{
    reader.tell(answer, &[]);
}

/// Keeps the text that was found.
fn keep_found(layout: Layout, found: &mut [u8], reader: &Reader)
    requires layout { reader.now.state.layout ≡ layout }
    requires room { length found.old ≡ block_bytes_of layout }
    ensures { IsFoundText (reader_end reader.now.state) reader.now.block found.new }
{
    let size = found_size(reader);
    if let Some(ReadMark::Found { .. }) = reader.end() {
        reader.text_into(&mut found[..size]);
    }
}

/// How a range goes on that writes its block.
fn after_writing(
    layout: Layout,
    span: &mut Span,
    answer: FileAnswer,
    reader: &mut Reader,
    writer: &mut BlockWriter,
) -> RangeStep
    requires inside { IsFile layout span.old reader.old writer.old RangeStep.Writing }
    requires asked { IsFileAnswer layout (ask_to_write writer.old.state.key.block (writer_end writer.old.state) (writer_ask writer.old.state)) answer }
    ensures answered { (bins : List ℕ) → FitsIfEnough (machine_of layout span.old reader.old writer.old RangeStep.Writing) answer bins (machine_of layout span.new reader.new writer.new result) }
    ensures inside { IsFile layout span.new reader.new writer.new result }
{
    match answer {
        FileAnswer::Write(answer) => {
            writer.tell(answer);
            RangeStep::Writing
        }
        FileAnswer::Noted => {
            let Some(end) = writer.end() else {
                unreachable!()
            };
            after_block(layout, span, end, reader, writer)
        }
        FileAnswer::Read(_) => unreachable!(),
    }
}
