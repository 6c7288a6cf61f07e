//! The write and the read of a block: what they ask, and what they are told.

ghost use Rattle.std.specs.Prelude.{◌≡◌, Bool, false, length, Some, IsSomeAnd};
ghost use Rattle.rz_client_model.specs.Write.{writer_ask, writer_end, writer_told, IsWriterAnswer};
ghost use Rattle.rz_client_model.specs.Read.{reader_ask, reader_end, IsReaderAnswer};
ghost use Rattle.rz_events.specs.declared.machines.WriterAnswer.TheVariants as writes;
ghost use Rattle.rz_rebuild.specs.Copies.{IsFetchAsk};
ghost use Rattle.rz_reader.specs.Machine.{IsStateAfter, IsBlockOf, pairs_at, pairs_after, HasBins};
ghost use Rattle.rz_reader.specs.Told.{IsFetchedInto};
ghost use Rattle.rz_operation_model.specs.Ask.{write_asks, read_asks};
ghost use Rattle.rz_operation_model.specs.Steps.{Replied, Answered, writer_after, reader_after};
ghost use Rattle.rz_operation_states.specs.Meaning.{meaning_of};
ghost use Rattle.rz_operation_states.specs.Answers.{IsFetchGiven, IsKeepAsk};
ghost use Rattle.rz_operation_states.specs.Told.{write_answer, read_answer};
ghost use Rattle.rz_operation_states.specs.Records.{HasHead};

use crate::ask::{Ask, Saying};
use rz_client_model::WriterState;
use rz_events::{
    CallRef, FetchAnswer, Head, KeepAnswer, Key, NodeAnswer, NodeAsk, Published, ReadMark,
    ReaderAnswer, ReaderAsk, Reply, WriteEnd, WriterAnswer, WriterAsk,
};
use rz_reader::Reader;
use rz_writer::Writer;

/// What the write of a block asks, of which this is the end.
pub(crate) fn write_asked<'a>(
    part: bool,
    state: &WriterState,
    text: &'a [u8],
    ask: WriterAsk,
    end: Option<WriteEnd>,
) -> Ask<'a>
    requires { end ≡ writer_end state.now }
    ensures { meaning_of result ≡ write_asks part text.now state.now ask }
{
    let key = state.key;
    match ask {
        WriterAsk::Begin { .. } => Ask::Export(CallRef::Begin { key, text }),
        WriterAsk::Keep {
            position,
            node,
            stamp,
            base,
        } => Ask::Node {
            node,
            ask: NodeAsk::Keep(Head {
                stamp,
                key,
                layout: state.layout,
                bsize: state.layout.bsize(),
                position,
                length: state.length,
                base,
            }),
        },
        WriterAsk::Publish { stamp, mask } => Ask::Export(CallRef::Publish {
            key,
            published: Published {
                stamp,
                mask,
                length: state.length,
            },
        }),
        WriterAsk::End => match end {
            Some(end) => Ask::Say(Saying::Gave { key, part, end }),
            None => Ask::Rest,
        },
    }
}

/// What the read of a block asks, of which this is the end.
pub(crate) fn read_asked(
    part: bool,
    key: Key,
    ask: ReaderAsk,
    end: Option<ReadMark>,
) -> Ask<'static>
    ensures { meaning_of result ≡ read_asks part key end ask }
{
    match ask {
        ReaderAsk::Look => Ask::Export(CallRef::Look { key }),
        ReaderAsk::Fetch {
            position,
            node,
            stamp,
        } => Ask::Node {
            node,
            ask: NodeAsk::Fetch {
                key,
                position,
                stamp,
            },
        },
        ReaderAsk::Recheck => Ask::Export(CallRef::Recheck { key }),
        ReaderAsk::End => match end {
            Some(mark) => Ask::Say(Saying::Got { key, part, mark }),
            None => Ask::Rest,
        },
    }
}

/// What an operation asks that writes a block.
pub fn write_ask<'a>(writer: &Writer, text: &'a [u8]) -> Ask<'a>
    ensures value { meaning_of result ≡ write_asks false text.now writer.now.state (writer_ask writer.now.state) }
    ensures head { HasHead writer.now.state.layout (write_asks false text.now writer.now.state (writer_ask writer.now.state)) }
{
    write_asked(false, writer.state(), text, writer.next(), writer.end())
}

/// What an operation asks that reads a block.
pub fn read_ask(reader: &Reader) -> Ask<'static>
    ensures value { meaning_of result ≡ read_asks false reader.now.state.key (reader_end reader.now.state) (reader_ask reader.now.state) }
    ensures head { HasHead reader.now.state.layout (read_asks false reader.now.state.key (reader_end reader.now.state) (reader_ask reader.now.state)) }
{
    read_asked(false, reader.state().key, reader.next(), reader.end())
}

/// What a write is told by a reply of the export.
pub(crate) fn write_answer(reply: &Reply) -> Option<WriterAnswer>
    ensures { result ≡ write_answer reply.now }
{
    match reply {
        Reply::Begun { stamp, base } => Some(WriterAnswer::Begun {
            stamp: *stamp,
            base: *base,
        }),
        Reply::Denied(why) => Some(WriterAnswer::Denied(*why)),
        Reply::Accepted => Some(WriterAnswer::Accepted),
        Reply::Enrolled { position, fence } => Some(WriterAnswer::Enrolled {
            position: *position,
            fence: *fence,
        }),
        Reply::Revoked { later } => Some(WriterAnswer::Revoked { later: *later }),
        _ => None,
    }
}

/// Tells a write what the export replied.
pub fn tell_writer(writer: &mut Writer, reply: &Reply)
    requires { IsSomeAnd (write_answer reply.now) (IsWriterAnswer (writer_ask writer.old.state)) }
    ensures { writer.new ≡ record writer.old { state = writer_after writer.old.state (Replied reply.now) } }
{
    let Some(answer) = write_answer(reply) else {
        unreachable!()
    };
    writer.tell(answer);
}

/// What a read is told by a reply of the export.
pub(crate) fn read_answer(reply: &Reply) -> Option<ReaderAnswer>
    ensures { result ≡ read_answer reply.now }
{
    match reply {
        Reply::Looked(published) => Some(ReaderAnswer::Looked(*published)),
        Reply::Denied(why) => Some(ReaderAnswer::Denied(*why)),
        _ => None,
    }
}

/// Tells a read what the export replied.
pub fn tell_reader(reader: &mut Reader, reply: &Reply)
    requires { IsSomeAnd (read_answer reply.now) (IsReaderAnswer reader.old.state.layout (reader_ask reader.old.state)) }
    ensures state { reader.new.state ≡ reader_after reader.old.state (Replied reply.now) }
    ensures pairs { reader.new.pairs ≡ pairs_at reader.new.state.stage reader.old.pairs }
    ensures block { IsBlockOf reader.old.state.layout reader.old.pairs reader.new.state.stage reader.new.block }
{
    let Some(answer) = read_answer(reply) else {
        unreachable!()
    };
    reader.tell(answer, &[]);
}

/// Tells a write what a node answered to its keep.
pub fn tell_keep(writer: &mut Writer, answer: KeepAnswer)
    requires { IsKeepAsk (writer_ask writer.old.state) }
    ensures { writer.new ≡ record writer.old { state = writer_told writer.old.state (writes.Kept answer) } }
{
    writer.tell(WriterAnswer::Kept(answer));
}

/// Tells a read what a node answered to its fetch.
pub fn tell_fetch(reader: &mut Reader, answer: FetchAnswer, bins: &[u64])
    requires { IsFetchAsk reader.old.state.layout answer bins.now (reader_ask reader.old.state) }
    ensures { IsFetchedInto reader.old answer bins.now reader.new }
{
    reader.tell(ReaderAnswer::Fetched(answer), bins);
}

/// The answer to a fetch.
pub fn fetch_answer(answer: NodeAnswer) -> FetchAnswer
    requires { IsFetchGiven answer }
    ensures { NodeAnswer.Fetch result ≡ answer }
{
    let NodeAnswer::Fetch(answer) = answer else {
        unreachable!()
    };
    answer
}
