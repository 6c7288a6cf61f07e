//! The write or the read of a range of bytes: what it asks, and what it is told.

ghost use Rattle.std.specs.Prelude.{◌≡◌, Some, [], length};
ghost use Rattle.mj_angles.specs.Layout.{safe_of};
ghost use Rattle.rz_operation_model.specs.Ask.{ask_of};
ghost use Rattle.rz_operation_model.specs.Steps.{Replied, Missed, Noted, in_range, range_planned, range_answer, read_end};
ghost use Rattle.rz_operation_model.specs.Files.{file_end};
ghost use Rattle.rz_file.specs.Machine.{IsNoText, aim_in};
ghost use Rattle.rz_operation_states.specs.Meaning.{meaning_of};
ghost use Rattle.rz_operation_states.specs.Machine.{text_of};
ghost use Rattle.rz_operation_states.specs.Records.{HasHead};
ghost use Rattle.rz_operation_states.specs.Answers.{IsReply, IsAnswer, ComeWith, MayMiss, IsPartSaid, IsWorkAfter, FitsIfEnough};
ghost use Rattle.rz_operation_states.specs.Told.{range_reply, range_told, range_miss};
ghost use Rattle.rz_operation_states.specs.Inside.{IsOperationState, HasNoRecords, IsRanging, IsRangeStage, IsRangeOpen, machine_of, work_of};

use crate::ask::{Ask, Saying};
use crate::blocks::{read_answer, read_asked, write_answer, write_asked};
use crate::stage::OperationState;
use mj_angles::Layout;
use rz_events::{
    Answer, FileAnswer, FileAsk, FileEnd, FileInfo, NodeAnswer, ReadEnd, ReadMark, ReaderAnswer,
    ReaderAsk, Reply, Text, WriterAnswer, WriterAsk,
};
use rz_file::{FileMachine, FilePlan};

/// What an operation asks whose range is written or read.
pub fn range_ask(layout: Layout, file: &FileMachine) -> Ask<'_>
    requires open { IsRangeOpen file.now.state }
    requires layout { file.now.layout ≡ layout }
    ensures value { meaning_of result ≡ ask_of layout (in_range file.now.state) }
    ensures head { HasHead layout (ask_of layout (in_range file.now.state)) }
{
    match file.next() {
        FileAsk::Read { ask, .. } => read_asked(true, file.reader().key, ask, None),
        FileAsk::Got { end, .. } => read_asked(true, file.reader().key, ReaderAsk::End, Some(end)),
        FileAsk::Write { ask, .. } => write_asked(true, file.writer(), file.text(), ask, None),
        FileAsk::Gave { end, .. } => {
            write_asked(true, file.writer(), file.text(), WriterAsk::End, Some(end))
        }
        FileAsk::End => Ask::Rest,
    }
}

/// What a range is told by a reply of the export.
fn reply_told(file: &FileMachine, reply: &Reply) -> Option<FileAnswer>
    ensures { result ≡ range_reply file.now.state reply.now }
{
    match file.next() {
        FileAsk::Read { .. } => Some(FileAnswer::Read(read_answer(reply)?)),
        FileAsk::Write { .. } => Some(FileAnswer::Write(write_answer(reply)?)),
        _ => None,
    }
}

/// What a range is told by the answer of a node.
fn answer_told(answer: NodeAnswer) -> Option<FileAnswer>
    ensures { result ≡ range_told answer }
{
    match answer {
        NodeAnswer::Fetch(answer) => Some(FileAnswer::Read(ReaderAnswer::Fetched(answer))),
        NodeAnswer::Keep(answer) => Some(FileAnswer::Write(WriterAnswer::Kept(answer))),
        _ => None,
    }
}

/// What a range is told where a message was lost.
fn miss_told(file: &FileMachine) -> FileAnswer
    ensures { result ≡ range_miss file.now.state }
{
    match file.next() {
        FileAsk::Read { .. } => FileAnswer::Read(ReaderAnswer::Missed),
        _ => FileAnswer::Write(WriterAnswer::Missed),
    }
}

/// The file is open: the range is written or read.
pub fn open_range(layout: Layout, info: &FileInfo, plan: FilePlan) -> OperationState
    requires layout { plan.layout ≡ layout }
    requires places { length info.now.places ≡ safe_of layout }
    ensures work { work_of result ≡ range_planned layout info.now plan.plan }
    ensures inside { IsOperationState layout result }
    ensures fresh { HasNoRecords result }
{
    settled(plan.open(info))
}

/// What becomes of a range: its end is the answer.
fn settled(file: FileMachine) -> OperationState
    ensures { IsRangeStage file file.state result }
{
    match file.end() {
        Some(end) => OperationState::Ending(answer_of(file, end)),
        None => OperationState::Ranging(file),
    }
}

/// The answer of a range that has come to this end.
fn answer_of(file: FileMachine, end: FileEnd) -> Answer
    requires { file_end file.state ≡ Some end }
    ensures { result ≡ range_answer (aim_in file.state) end }
{
    match end {
        FileEnd::Whole { bytes } => {
            if file.is_read() {
                Answer::Read(Text::from_vec(file.into_bytes()))
            } else {
                drop(file);
                Answer::Wrote { bytes }
            }
        }
        FileEnd::ShortWrite { bytes, end } => {
            drop(file);
            Answer::ShortWrite { bytes, end }
        }
        FileEnd::ShortRead { bytes, end } => {
            drop(file);
            Answer::ShortRead {
                bytes,
                end: short_end(end),
            }
        }
    }
}

/// The end of a read that found no text.
fn short_end(mark: ReadMark) -> ReadEnd
    requires { IsNoText mark }
    ensures { result ≡ read_end [] mark }
{
    match mark {
        ReadMark::Found { .. } => unreachable!(),
        ReadMark::Hole => unreachable!(),
        ReadMark::TooFew { seen } => ReadEnd::TooFew { seen },
        ReadMark::Inconsistent => ReadEnd::Inconsistent,
        ReadMark::Denied(why) => ReadEnd::Denied(why),
        ReadMark::Moved { was, now } => ReadEnd::Moved { was, now },
    }
}

/// How the operation goes on after a reply of the export.
pub fn range_replied(layout: Layout, mut file: FileMachine, reply: &Reply) -> OperationState
    requires inside { IsRanging layout file }
    requires asked { IsReply layout (ask_of layout (work_of (OperationState.Ranging file))) reply.now }
    ensures goes { IsWorkAfter (machine_of layout (OperationState.Ranging file)) file.pairs (Replied reply.now) (machine_of layout result) }
    ensures inside { IsOperationState layout result }
{
    let Some(answer) = reply_told(&file, reply) else {
        unreachable!()
    };
    file.tell(answer, &[]);
    settled(file)
}

/// How the operation goes on after the answer of a node, with the bins that came with it.
pub fn range_answered(
    layout: Layout,
    mut file: FileMachine,
    answer: NodeAnswer,
    bins: &[u64],
) -> OperationState
    requires inside { IsRanging layout file }
    requires asked { IsAnswer layout (ask_of layout (work_of (OperationState.Ranging file))) answer }
    requires bins { ComeWith layout (ask_of layout (work_of (OperationState.Ranging file))) answer bins.now }
    ensures goes { FitsIfEnough (machine_of layout (OperationState.Ranging file)) answer bins.now (machine_of layout result) }
    ensures inside { IsOperationState layout result }
{
    let Some(told) = answer_told(answer) else {
        unreachable!()
    };
    file.tell(told, bins);
    settled(file)
}

/// How the operation goes on after a message to a node, or its answer, was lost.
pub fn range_missed(layout: Layout, mut file: FileMachine) -> OperationState
    requires inside { IsRanging layout file }
    requires asked { MayMiss (ask_of layout (work_of (OperationState.Ranging file))) }
    ensures goes { IsWorkAfter (machine_of layout (OperationState.Ranging file)) file.pairs Missed (machine_of layout result) }
    ensures inside { IsOperationState layout result }
{
    file.tell(miss_told(&file), &[]);
    settled(file)
}

/// How the operation goes on once the end of a block was said.
pub fn range_said(layout: Layout, mut file: FileMachine) -> OperationState
    requires inside { IsRanging layout file }
    requires asked { IsPartSaid (ask_of layout (work_of (OperationState.Ranging file))) }
    ensures goes { IsWorkAfter (machine_of layout (OperationState.Ranging file)) file.pairs (Noted (text_of (machine_of layout (OperationState.Ranging file)))) (machine_of layout result) }
    ensures inside { IsOperationState layout result }
{
    file.tell(FileAnswer::Noted, &[]);
    settled(file)
}
