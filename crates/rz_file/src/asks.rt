//! What a range asks.

ghost use Rattle.std.specs.Prelude.{◌≡◌, ◌≤◌};
ghost use Rattle.mj_angles.specs.Layout.{block_bytes_of};
ghost use Rattle.rz_client_model.specs.Read.{reader_ask, reader_end};
ghost use Rattle.rz_client_model.specs.Write.{IsWrite, writer_ask, writer_end};
ghost use Rattle.rz_operation_model.specs.Files.{ask_to_read, ask_to_write};
ghost use Rattle.rz_writer.specs.Machine.{IsCountOf};
ghost use Rattle.rz_file.specs.Inside.{IsSpan, WritesText, size_found};
ghost use Rattle.rz_file.specs.Machine.{AreBinsAt, IsAskOf, IsKeepIn};

use crate::block_writer::BlockWriter;
use crate::span::Span;
use mj_angles::Layout;
use rz_client_model::ReadStage;
use rz_events::{FileAsk, ReadMark, WriterAsk};
use rz_reader::Reader;

/// What the read of the block in hand asks, or how it ended.
pub fn read_ask(reader: &Reader) -> FileAsk
    ensures place { IsAskOf reader.now.state.layout result }
    ensures value { result ≡ ask_to_read reader.now.state.key.block (reader_end reader.now.state) (reader_ask reader.now.state) }
{
    let block = reader.state().key.block;
    match reader.end() {
        None => FileAsk::Read {
            block,
            ask: reader.next(),
        },
        Some(end) => FileAsk::Got { block, end },
    }
}

/// What the write of the block in hand asks, or how it ended.
pub fn write_ask(writer: &BlockWriter) -> FileAsk
    ensures write { IsWrite writer.now.state }
    ensures place { IsAskOf writer.now.state.layout result }
    ensures value { result ≡ ask_to_write writer.now.state.key.block (writer_end writer.now.state) (writer_ask writer.now.state) }
{
    let block = writer.state().key.block;
    match writer.end() {
        None => FileAsk::Write {
            block,
            ask: writer.next(),
        },
        Some(end) => FileAsk::Gave { block, end },
    }
}

/// The bins of the position that the write of the block in hand asks a node to keep.
pub fn bins_in<'a>(layout: Layout, span: &'a Span, writer: &'a BlockWriter) -> &'a [u64]
    requires span { IsSpan layout span.now }
    requires layout { writer.now.layout ≡ layout }
    requires written { WritesText layout span.now writer.now }
    requires keep { IsKeepIn (writer_ask writer.now.state) }
    ensures bins { AreBinsAt layout span.now.text.items (writer_ask writer.now.state) result.now }
    ensures count { IsCountOf layout (writer_ask writer.now.state) result.now }
{
    let WriterAsk::Keep { position, .. } = writer.next() else {
        unreachable!()
    };
    match writer.place() {
        Some(place) => span.batch.bins(place, position),
        None => writer.own_bins(),
    }
}

/// So many bytes were found.
pub fn found_size(reader: &Reader) -> usize
    ensures value { result ≡ size_found (reader_end reader.now.state) }
    ensures short { result ≤ block_bytes_of reader.now.state.layout }
{
    match &reader.state().stage {
        ReadStage::Ended(ReadMark::Found { length, .. }) => *length as usize,
        _ => 0,
    }
}
