//! How an operation begins, and how it goes on once its file is open.

ghost use Rattle.std.specs.Prelude.{◌≡◌, ◌≤◌, ◌<◌, ◌+◌, ◌^◌, length, vec_len, IsSome, IfOk};
ghost use Rattle.mj_angles.specs.Layout.{safe_of, block_bytes_of};
ghost use Rattle.rz_operation_model.specs.Ranges.{bytes_of};
ghost use Rattle.rz_operation_model.specs.Steps.{begun, planned, after_open, after_lock, after_call};
ghost use Rattle.rz_operation_model.specs.Work.{WriteBytes};
ghost use Rattle.rz_operation_states.specs.Meaning.{path_in};
ghost use Rattle.rz_operation_states.specs.Answers.{HasPlaces, IsWithinLayout, IsWithinFile};
ghost use Rattle.rz_operation_states.specs.Inside.{IsOperationState, IsOpenPlan, HasNoRecords, HasNoBlock, work_of, plan_of};

use mj_angles::Layout;
use rz_events::{Answer, Datum, FileInfo, Operation, Places, Text, TreeCall, TreeReply};
use rz_file::FilePlan;
use rz_operation_states::drops::dropping;
use rz_operation_states::ranges::open_range;
use rz_operation_states::{OpenPlan, OperationState};
use rz_reader::Reader;
use rz_rebuild::Rebuilder;
use rz_writer::Writer;
use std::alloc::{AllocError, Global};
use std::thread::Threads;

/// A write of so many blocks makes its bins in threads. A batch gives each thread at least eight blocks, so
/// with fewer than these there is nothing to do for a second one.
const BLOCKS_FOR_THREADS: usize = 16;

/// A file that has a node for each position, for machines that wait for theirs.
fn blank(layout: Layout) -> FileInfo
    ensures { length result.places ≡ safe_of layout }
{
    let mut places = Places::none();
    for i in 0..layout.safe() {
        places.push(i as u16);
    }
    FileInfo {
        fid: 0,
        cid: 0,
        places,
        size: 0,
    }
}

/// How an operation begins.
pub fn begun(alloc: Global, layout: Layout, op: Operation) -> Result<OperationState, AllocError>
    requires { IsWithinLayout layout op }
    ensures work { IfOk result (λ s. work_of s ≡ begun op) }
    ensures inside { IfOk result (λ s. IsOperationState layout s) }
{
    match op {
        Operation::Tree(call) => Ok(OperationState::Calling(call)),
        Operation::Put { path, block, datum } => put(alloc, layout, path, block, datum),
        Operation::Get { path, block } => get(alloc, layout, path, block),
        Operation::Write {
            path,
            offset,
            datum,
        } => {
            let plan = write_plan(alloc, layout, offset, datum)?;
            Ok(opening(layout, path, OpenPlan::Range(plan)))
        }
        Operation::Read {
            path,
            offset,
            length,
        } => {
            let plan = FilePlan::read(alloc, layout, offset, length)?;
            Ok(opening(layout, path, OpenPlan::Range(plan)))
        }
        Operation::Rebuild { node } => rebuild(alloc, layout, node),
        Operation::Update {
            path,
            offset,
            datum,
        } => {
            let plan = write_plan(alloc, layout, offset, datum)?;
            Ok(locking(layout, path, plan))
        }
        Operation::View {
            path,
            offset,
            length,
        } => {
            let plan = FilePlan::read(alloc, layout, offset, length)?;
            Ok(locking(layout, path, plan))
        }
    }
}

/// The same, where the bins of a long write are made in as many threads as there are processors.
pub fn begun_par<R: Threads + Sync>(
    rt: &R,
    alloc: Global,
    layout: Layout,
    op: Operation,
) -> Result<OperationState, AllocError>
    requires { IsWithinLayout layout op }
    ensures work { IfOk result (λ s. work_of s ≡ begun op) }
    ensures inside { IfOk result (λ s. IsOperationState layout s) }
{
    match op {
        Operation::Write {
            path,
            offset,
            datum,
        } => {
            let plan = write_plan_par(rt, alloc, layout, offset, datum)?;
            Ok(opening(layout, path, OpenPlan::Range(plan)))
        }
        Operation::Update {
            path,
            offset,
            datum,
        } => {
            let plan = write_plan_par(rt, alloc, layout, offset, datum)?;
            Ok(locking(layout, path, plan))
        }
        other => begun(alloc, layout, other),
    }
}

/// The write of a block begins.
fn put(
    alloc: Global,
    layout: Layout,
    path: Text,
    block: u64,
    datum: Datum,
) -> Result<OperationState, AllocError>
    requires { length (bytes_of datum) ≤ block_bytes_of layout }
    ensures work { IfOk result (λ s. work_of s ≡ begun (Operation.Put path block datum)) }
    ensures inside { IfOk result (λ s. IsOperationState layout s) }
{
    let text = text_of(alloc, datum)?;
    let writer = Writer::start(alloc, layout, &blank(layout), 0, b"")?;
    Ok(opening(
        layout,
        path,
        OpenPlan::Put {
            block,
            writer,
            text,
        },
    ))
}

/// The read of a block begins.
fn get(alloc: Global, layout: Layout, path: Text, block: u64) -> Result<OperationState, AllocError>
    ensures work { IfOk result (λ s. work_of s ≡ begun (Operation.Get path block)) }
    ensures inside { IfOk result (λ s. IsOperationState layout s) }
{
    let reader = Reader::start(alloc, layout, &blank(layout), 0)?;
    Ok(opening(layout, path, OpenPlan::Get { block, reader }))
}

/// The rebuild of a node begins.
fn rebuild(alloc: Global, layout: Layout, node: u16) -> Result<OperationState, AllocError>
    ensures work { IfOk result (λ s. work_of s ≡ begun (Operation.Rebuild node)) }
    ensures inside { IfOk result (λ s. IsOperationState layout s) }
{
    let rebuilder = Rebuilder::start(alloc, layout, node)?;
    Ok(OperationState::Rebuilding { node, rebuilder })
}

/// The file at a path is opened.
fn opening(layout: Layout, path: Text, plan: OpenPlan) -> OperationState
    requires { IsOpenPlan layout plan }
    ensures work { result ≡ OperationState.Opening (TreeCall.OpenFile path) plan }
    ensures inside { IsOperationState layout result }
{
    let call = TreeCall::OpenFile { path };
    OperationState::Opening { call, plan }
}

/// The file at a path is opened and locked.
fn locking(layout: Layout, path: Text, plan: FilePlan) -> OperationState
    requires layout { plan.layout ≡ layout }
    requires within { IsWithinFile plan.plan }
    ensures work { result ≡ OperationState.Locking (TreeCall.OpenFile path) plan }
    ensures inside { IsOperationState layout result }
{
    let call = TreeCall::OpenFile { path };
    OperationState::Locking { call, plan }
}

/// The write of a datum from an offset on.
fn write_plan(
    alloc: Global,
    layout: Layout,
    offset: u64,
    datum: Datum,
) -> Result<FilePlan, AllocError>
    requires { offset + length (bytes_of datum) ≤ 4294967296 }
    ensures { IfOk result (λ p. p ≡ record { layout = layout; plan = WriteBytes offset (bytes_of datum) }) }
{
    let text = text_of(alloc, datum)?;
    FilePlan::write(alloc, layout, offset, text.into_vec())
}

/// The same, where the bins of many blocks are made in threads.
fn write_plan_par<R: Threads + Sync>(
    rt: &R,
    alloc: Global,
    layout: Layout,
    offset: u64,
    datum: Datum,
) -> Result<FilePlan, AllocError>
    requires { offset + length (bytes_of datum) ≤ 4294967296 }
    ensures { IfOk result (λ p. p ≡ record { layout = layout; plan = WriteBytes offset (bytes_of datum) }) }
{
    let text = text_of(alloc, datum)?;
    plan_of_bytes(rt, alloc, layout, offset, text.into_vec())
}

/// The write of these bytes from an offset on. Where they fill many blocks, its bins are made in threads.
fn plan_of_bytes<R: Threads + Sync>(
    rt: &R,
    alloc: Global,
    layout: Layout,
    offset: u64,
    bytes: Vec<u8>,
) -> Result<FilePlan, AllocError>
    requires { offset + vec_len bytes < 2 ^ 64 }
    ensures { IfOk result (λ p. p ≡ record { layout = layout; plan = WriteBytes offset bytes.items }) }
{
    if bytes.len() / layout.block_bytes() < BLOCKS_FOR_THREADS {
        return FilePlan::write(alloc, layout, offset, bytes);
    }
    FilePlan::write_par(rt, alloc, layout, offset, bytes)
}

/// The bytes of a datum.
fn text_of(alloc: Global, datum: Datum) -> Result<Text, AllocError>
    ensures { IfOk result (λ text. text ≡ bytes_of datum) }
{
    match datum {
        Datum::Bytes(text) => Ok(text),
        Datum::Made { length, seed } => made(alloc, length, seed),
    }
}

/// So many bytes, of which byte `i` is `(seed + 31 * i) mod 256`.
fn made(alloc: Global, length: u32, seed: u8) -> Result<Text, AllocError>
    ensures { IfOk result (λ text. text ≡ bytes_of (Datum.Made length seed)) }
{
    let mut bytes = Vec::with_capacity(alloc, length as usize)?;
    for i in 0..length {
        bytes.push(((u64::from(seed) + 31 * u64::from(i)) % 256) as u8)?;
    }
    Ok(Text::from_vec(bytes))
}

/// How a call on names goes on.
pub fn after_call(answer: TreeReply) -> OperationState
    ensures work { work_of result ≡ after_call answer }
    ensures quiet { HasNoBlock result }
{
    match answer {
        TreeReply::Made { fid } => OperationState::Ending(Answer::Created { fid }),
        TreeReply::MadeFile(info) => OperationState::Ending(Answer::Created { fid: info.fid }),
        TreeReply::Found { fid, kind } => OperationState::Ending(Answer::Found { kind, fid }),
        TreeReply::Attr(attr) => OperationState::Ending(Answer::Attr(attr)),
        TreeReply::Plain => OperationState::Ending(Answer::Plain),
        TreeReply::Gone(None) => OperationState::Ending(Answer::Plain),
        TreeReply::Gone(Some(info)) => dropping(info.fid, info.places, 0),
        TreeReply::Names(names) => OperationState::Ending(Answer::Names(names)),
        TreeReply::Target(target) => OperationState::Ending(Answer::Target(target)),
        TreeReply::File(_) => OperationState::Over,
        TreeReply::Refused(fault) => OperationState::Ending(Answer::Refused(fault)),
    }
}

/// How an operation goes on after its file was opened, or not.
pub fn after_open(layout: Layout, plan: OpenPlan, answer: &TreeReply) -> OperationState
    requires plan { IsOpenPlan layout plan }
    requires places { HasPlaces layout answer.now }
    ensures work { work_of result ≡ after_open layout (plan_of plan) answer.now }
    ensures inside { IsOperationState layout result }
    ensures fresh { HasNoRecords result }
{
    match answer {
        TreeReply::File(info) => planned(layout, info, plan),
        TreeReply::Refused(fault) => {
            drop(plan);
            OperationState::Ending(Answer::Refused(*fault))
        }
        _ => {
            drop(plan);
            OperationState::Over
        }
    }
}

/// How an operation goes on with its file open.
fn planned(layout: Layout, info: &FileInfo, plan: OpenPlan) -> OperationState
    requires plan { IsOpenPlan layout plan }
    requires places { length info.now.places ≡ safe_of layout }
    ensures work { work_of result ≡ planned layout info.now (plan_of plan) }
    ensures inside { IsOperationState layout result }
    ensures fresh { HasNoRecords result }
{
    match plan {
        OpenPlan::Put {
            block,
            writer,
            text,
        } => write_block(layout, info, block, writer, text),
        OpenPlan::Get { block, reader } => read_block(layout, info, block, reader),
        OpenPlan::Range(plan) => open_range(layout, info, plan),
    }
}

/// A block is written.
fn write_block(
    layout: Layout,
    info: &FileInfo,
    block: u64,
    mut writer: Writer,
    text: Text,
) -> OperationState
    requires layout { writer.state.layout ≡ layout }
    requires whole { IsSome writer.block }
    requires short { length text ≤ block_bytes_of layout }
    requires places { length info.now.places ≡ safe_of layout }
    ensures work { work_of result ≡ planned layout info.now (plan_of (OpenPlan.Put block writer text)) }
    ensures inside { IsOperationState layout result }
    ensures fresh { HasNoRecords result }
{
    writer.again(info, block, text.bytes());
    OperationState::Writing { writer, text }
}

/// A block is read.
fn read_block(layout: Layout, info: &FileInfo, block: u64, mut reader: Reader) -> OperationState
    requires layout { reader.state.layout ≡ layout }
    requires places { length info.now.places ≡ safe_of layout }
    ensures work { work_of result ≡ planned layout info.now (plan_of (OpenPlan.Get block reader)) }
    ensures inside { IsOperationState layout result }
    ensures fresh { HasNoRecords result }
{
    reader.again(info, block);
    OperationState::Reading(reader)
}

/// How an operation goes on after its file was opened and a lock was granted or not: a file that is
/// locked by another is opened again.
pub fn after_locked(
    layout: Layout,
    call: TreeCall,
    plan: FilePlan,
    granted: bool,
    answer: &TreeReply,
) -> OperationState
    requires call { call ≡ TreeCall.OpenFile (path_in call) }
    requires layout { plan.layout ≡ layout }
    requires within { IsWithinFile plan.plan }
    requires places { HasPlaces layout answer.now }
    ensures work { work_of result ≡ after_lock layout (path_in call) plan.plan granted answer.now }
    ensures inside { IsOperationState layout result }
    ensures fresh { HasNoRecords result }
{
    if granted {
        drop(call);
        return after_open(layout, OpenPlan::Range(plan), answer);
    }
    match answer {
        TreeReply::File(_) => OperationState::Locking { call, plan },
        _ => {
            drop(call);
            after_open(layout, OpenPlan::Range(plan), answer)
        }
    }
}
