//! Writes and reads of ranges as tables of what is asked and answered.

ghost use Rattle.std.specs.Prelude.{◌≡◌, IsTrue, length};
ghost use Rattle.mj_angles.specs.declared.layout.Layout.TheVariants.{L0};
ghost use Rattle.rz_events.specs.declared.machines.FileAnswer.{FileAnswer as AnAnswer};
ghost use Rattle.rz_operation_model.specs.Files.{IsFileAnswer};
ghost use Rattle.rz_file.specs.Machine.{ComeWith, IsKeepAsked};

use mj_angles::Layout;
use rz_events::{
    Denial, FetchAnswer, FileAnswer, FileAsk, FileEnd, FileInfo, Held, KeepAnswer, Places,
    Published, ReadMark, ReaderAnswer, ReaderAsk, WriteEnd, WriterAnswer, WriterAsk,
};
use rz_file::{FileMachine, FilePlan, FileRead, FileWrite};
use std::process::Abort;
use std::test::Fail;

/// Room for the bins of any position.
const ROOM: usize = 568;

/// Where the bytes 0 and 2048 of a block fall, by position: the text that is found has 1 there, and 2.
const FIRST: [usize; 2] = [2, 1];

const SECOND: [usize; 2] = [0, 0];

/// Whether the answer belongs to what was asked.
fn belongs(ask: FileAsk, answer: FileAnswer) -> bool
    ensures { IsTrue result → IsFileAnswer L0 ask answer }
{
    match (ask, answer) {
        (FileAsk::Read { ask, .. }, FileAnswer::Read(answer)) => crate::reads::belongs(ask, answer),
        (FileAsk::Write { ask, .. }, FileAnswer::Write(answer)) => crate::writes::belongs(
            ask, answer,
        ),
        (FileAsk::Got { .. }, FileAnswer::Noted) => true,
        (FileAsk::Gave { .. }, FileAnswer::Noted) => true,
        _ => false,
    }
}

/// Whether these are enough bins for what was asked.
fn are_enough(ask: FileAsk, bins: &[u64]) -> bool
    ensures { (answer : AnAnswer) → IsTrue result → ComeWith L0 ask answer bins.now }
{
    match ask {
        FileAsk::Read {
            ask: ReaderAsk::Fetch { position, .. },
            ..
        } => position < 4 && Layout::L0.bins_at(position) <= bins.len(),
        _ => true,
    }
}

/// Compares what is asked, and answers it; a record has the bins of the text.
fn step(rt: &impl Abort, machine: &mut FileMachine, ask: FileAsk, answer: FileAnswer)
    requires { machine.old.layout ≡ L0 }
    ensures { machine.new.layout ≡ L0 }
{
    let asked = machine.next();
    assert!(rt; asked == ask, "before {ask:?}");
    let mut bins = [0u64; ROOM];
    if let FileAsk::Read {
        ask: ReaderAsk::Fetch { position, .. },
        ..
    } = asked
    {
        assert!(rt; position < 2);
        bins[FIRST[position as usize]] |= 1;
        bins[SECOND[position as usize]] |= 2;
    }
    assert!(rt;
        belongs(asked, answer) && are_enough(asked, &bins),
        "no answer to {asked:?}"
    );
    machine.tell(answer, &bins);
}

fn look(block: u64) -> FileAsk {
    FileAsk::Read {
        block,
        ask: ReaderAsk::Look,
    }
}

/// The block in hand is read, and is a hole.
fn find_hole(rt: &impl Abort, machine: &mut FileMachine, block: u64)
    requires { machine.old.layout ≡ L0 }
    ensures { machine.new.layout ≡ L0 }
{
    let none = FileAnswer::Read(ReaderAnswer::Looked(None));
    step(rt, machine, look(block), none);
    let end = ReadMark::Hole;
    step(rt, machine, FileAsk::Got { block, end }, FileAnswer::Noted);
}

fn fetch(block: u64, position: u8, node: u16) -> FileAsk {
    let ask = ReaderAsk::Fetch {
        position,
        node,
        stamp: 9,
    };
    FileAsk::Read { block, ask }
}

/// The block in hand is read, and has 2049 bytes, of which the first is 1 and the last is 2.
fn find_text(rt: &impl Abort, machine: &mut FileMachine, block: u64)
    requires { machine.old.layout ≡ L0 }
    ensures { machine.new.layout ≡ L0 }
{
    let published = Published {
        stamp: 9,
        mask: 0b0111,
        length: 2049,
    };
    let looked = FileAnswer::Read(ReaderAnswer::Looked(Some(published)));
    let record = Held {
        stamp: 9,
        length: 2049,
        base: 4,
    };
    let held = FileAnswer::Read(ReaderAnswer::Fetched(FetchAnswer::Held(record)));
    step(rt, machine, look(block), looked);
    step(rt, machine, fetch(block, 0, 10), held);
    step(rt, machine, fetch(block, 1, 11), held);
    let end = ReadMark::Found {
        stamp: 9,
        length: 2049,
    };
    step(rt, machine, FileAsk::Got { block, end }, FileAnswer::Noted);
}

fn keep(block: u64, position: u8, node: u16) -> FileAsk {
    let ask = WriterAsk::Keep {
        position,
        node,
        stamp: 12,
        base: 9,
    };
    FileAsk::Write { block, ask }
}

/// The block in hand is written, and acknowledged.
fn acknowledge(rt: &impl Abort, machine: &mut FileMachine, block: u64, length: u32)
    requires { machine.old.layout ≡ L0 }
    ensures { machine.new.layout ≡ L0 }
{
    let ask = WriterAsk::Begin { length };
    let begun = FileAnswer::Write(WriterAnswer::Begun { stamp: 12, base: 9 });
    step(rt, machine, FileAsk::Write { block, ask }, begun);
    let kept = FileAnswer::Write(WriterAnswer::Kept(KeepAnswer::Kept));
    step(rt, machine, keep(block, 0, 10), kept);
    step(rt, machine, keep(block, 1, 11), kept);
    step(rt, machine, keep(block, 2, 12), kept);
    let (stamp, mask) = (12, 0b0111);
    let ask = WriterAsk::Publish { stamp, mask };
    let accepted = FileAnswer::Write(WriterAnswer::Accepted);
    step(rt, machine, FileAsk::Write { block, ask }, accepted);
    let end = WriteEnd::Acked { stamp, mask };
    step(rt, machine, FileAsk::Gave { block, end }, FileAnswer::Noted);
}

fn check_end(rt: &impl Abort, machine: &FileMachine, end: FileEnd) {
    let asked = machine.next();
    let found = machine.end();
    assert!(rt; asked == FileAsk::End && found == Some(end), "{end:?}");
}

/// Whether a node is asked to keep a record.
fn is_keep(ask: FileAsk) -> bool
    ensures { IsTrue result → IsKeepAsked ask }
{
    matches!(
        ask,
        FileAsk::Write {
            ask: WriterAsk::Keep { .. },
            ..
        }
    )
}

/// The range begins with the last byte of block 0 and covers two whole blocks, of which the second one begins
/// with a word 1, and has zeros else.
fn keep_second(rt: &impl Abort, plan: FilePlan)
    requires { plan.layout ≡ L0 }
{
    let mut machine = plan.open(&file(0));
    find_hole(rt, &mut machine, 0);
    acknowledge(rt, &mut machine, 0, 4096);
    acknowledge(rt, &mut machine, 1, 4096);
    let ask = WriterAsk::Begin { length: 4096 };
    let begun = FileAnswer::Write(WriterAnswer::Begun { stamp: 12, base: 9 });
    step(rt, &mut machine, FileAsk::Write { block: 2, ask }, begun);
    assert!(rt; is_keep(machine.next()));
    let bins = machine.bins();
    let are_its = bins.get(FIRST[0]) == Some(&1) && bins.get(SECOND[0]) == Some(&0);
    drop(machine);
    assert!(rt; are_its);
}

/// A file of this size.
fn file(size: u64) -> FileInfo
    ensures { length result.places ≡ 4 }
{
    let mut places = Places::none();
    places.push(10);
    places.push(11);
    places.push(12);
    places.push(13);
    FileInfo {
        fid: 5,
        cid: 1,
        places,
        size,
    }
}

#[test]
fn within_a_block(rt: HostRuntime) -> Result<(), Fail> {
    let bytes = b"ab".to_vec(rt.alloc()).expect(&rt, "memory");
    let plan = FilePlan::write(rt.alloc(), Layout::L0, 1, bytes).expect(&rt, "memory");
    assert!(rt; plan.is_write() && plan.offset() == 1 && plan.count() == 2);
    let mut machine = plan.open(&file(9000));
    find_text(&rt, &mut machine, 0);
    let text = machine.text();
    assert!(rt; text.len() == 2049);
    assert!(rt; text[..4] == [1, b'a', b'b', 0] && text[2048] == 2);
    acknowledge(&rt, &mut machine, 0, 2049);
    check_end(&rt, &machine, FileEnd::Whole { bytes: 2 });
    drop(machine);
    Ok(())
}

#[test]
fn three_blocks(rt: HostRuntime) -> Result<(), Fail> {
    let bytes = vec![in rt.alloc(); 7u8; 4100].expect(&rt, "memory");
    let plan = FilePlan::write(rt.alloc(), Layout::L0, 4094, bytes).expect(&rt, "memory");
    let mut machine = plan.open(&file(0));
    find_hole(&rt, &mut machine, 0);
    let text = machine.text();
    assert!(rt; text.len() == 4096);
    assert!(rt; text[4093] == 0 && text[4094] == 7 && text[4095] == 7);
    acknowledge(&rt, &mut machine, 0, 4096);
    acknowledge(&rt, &mut machine, 1, 4096);
    find_hole(&rt, &mut machine, 2);
    acknowledge(&rt, &mut machine, 2, 2);
    check_end(&rt, &machine, FileEnd::Whole { bytes: 4100 });
    drop(machine);
    Ok(())
}

#[test]
fn whole_blocks(rt: HostRuntime) -> Result<(), Fail> {
    let mut bytes = vec![in rt.alloc(); 0u8; 8193].expect(&rt, "memory");
    bytes[4097] = 1;
    let other = bytes.clone().expect(&rt, "memory");
    let one = FilePlan::write(rt.alloc(), Layout::L0, 4095, bytes).expect(&rt, "memory");
    keep_second(&rt, one);
    let many = FilePlan::write_par(&rt, rt.alloc(), Layout::L0, 4095, other).expect(&rt, "memory");
    keep_second(&rt, many);
    Ok(())
}

#[test]
fn short_by_a_read(rt: HostRuntime) -> Result<(), Fail> {
    let bytes = b"abcd".to_vec(rt.alloc()).expect(&rt, "memory");
    let plan = FilePlan::write(rt.alloc(), Layout::L0, 4094, bytes).expect(&rt, "memory");
    let mut machine = plan.open(&file(0));
    find_hole(&rt, &mut machine, 0);
    acknowledge(&rt, &mut machine, 0, 4096);
    let why = Denial::UnknownFile;
    let denied = FileAnswer::Read(ReaderAnswer::Denied(why));
    step(&rt, &mut machine, look(1), denied);
    let end = ReadMark::Denied(why);
    step(
        &rt,
        &mut machine,
        FileAsk::Got { block: 1, end },
        FileAnswer::Noted,
    );
    check_end(&rt, &machine, FileEnd::ShortRead { bytes: 2, end });
    drop(machine);
    Ok(())
}

#[test]
fn short_by_a_write(rt: HostRuntime) -> Result<(), Fail> {
    let bytes = b"abcd".to_vec(rt.alloc()).expect(&rt, "memory");
    let plan = FilePlan::write(rt.alloc(), Layout::L0, 4096, bytes).expect(&rt, "memory");
    let mut machine = plan.open(&file(0));
    find_hole(&rt, &mut machine, 1);
    let why = Denial::BlockTooFar;
    let ask = WriterAsk::Begin { length: 4 };
    let denied = FileAnswer::Write(WriterAnswer::Denied(why));
    step(&rt, &mut machine, FileAsk::Write { block: 1, ask }, denied);
    let end = WriteEnd::Denied(why);
    step(
        &rt,
        &mut machine,
        FileAsk::Gave { block: 1, end },
        FileAnswer::Noted,
    );
    check_end(&rt, &machine, FileEnd::ShortWrite { bytes: 0, end });
    drop(machine);
    Ok(())
}

#[test]
fn read_past_a_text(rt: HostRuntime) -> Result<(), Fail> {
    let plan = FilePlan::read(rt.alloc(), Layout::L0, 2047, 2100).expect(&rt, "memory");
    assert!(rt; !plan.is_write());
    let mut machine = plan.open(&file(4098));
    find_text(&rt, &mut machine, 0);
    let bytes = machine.bytes();
    assert!(rt; bytes.len() == 2049);
    assert!(rt; bytes[..3] == [0, 2, 0] && machine.is_read());
    find_hole(&rt, &mut machine, 1);
    check_end(&rt, &machine, FileEnd::Whole { bytes: 2051 });
    let bytes = machine.into_bytes();
    let count = bytes.len();
    drop(bytes);
    assert_eq!(rt; count, 2051);
    Ok(())
}

#[test]
fn nothing(rt: HostRuntime) -> Result<(), Fail> {
    let whole = Some(FileEnd::Whole { bytes: 0 });
    let alloc = rt.alloc();
    let write = FileWrite::start(alloc, Layout::L0, &file(0), 4096, b"").expect(&rt, "memory");
    let by_one = write.end();
    drop(write);
    let many = FileWrite::start_par(&rt, alloc, Layout::L0, &file(0), 4096, b"").expect(
        &rt, "memory",
    );
    let by_many = many.end();
    drop(many);
    let read = FileRead::start(alloc, Layout::L0, &file(4096), 4096, 1).expect(&rt, "memory");
    let by_read = read.end();
    let count = read.bytes().len();
    drop(read);
    assert!(rt; by_one == whole && by_many == whole && by_read == whole && count == 0);
    Ok(())
}
