//! Reads as tables of what is asked and answered.

ghost use Rattle.std.specs.Prelude.{◌≡◌, IsTrue, length};
ghost use Rattle.mj_angles.specs.declared.layout.Layout.TheVariants.{L0};
ghost use Rattle.rz_events.specs.declared.machines.ReaderAnswer.{ReaderAnswer as AnAnswer};
ghost use Rattle.rz_client_model.specs.Read.{IsReaderAnswer, IsTold};
ghost use Rattle.rz_reader.specs.Machine.{HasBins};

use mj_angles::Layout;
use rz_events::{
    Denial, FetchAnswer, FileInfo, Held, Places, Published, ReadMark, ReaderAnswer, ReaderAsk, Seen,
};
use rz_reader::Reader;
use std::process::Abort;
use std::test::Fail;

/// Room for the bins of any position.
const ROOM: usize = 568;

/// Whether what is told as published can be.
pub fn can_be_told(published: Option<Published>) -> bool
    ensures { IsTrue result → IsTold L0 published }
{
    let Some(published) = published else {
        return true;
    };
    let length = published.length as usize;
    published.stamp > 0 && published.mask < 16 && length <= Layout::L0.block_bytes()
}

/// Whether the answer belongs to what was asked.
pub fn belongs(ask: ReaderAsk, answer: ReaderAnswer) -> bool
    ensures { IsTrue result → IsReaderAnswer L0 ask answer }
{
    match (ask, answer) {
        (ReaderAsk::Look, ReaderAnswer::Looked(published)) => can_be_told(published),
        (ReaderAsk::Recheck, ReaderAnswer::Looked(published)) => can_be_told(published),
        (ReaderAsk::Look, ReaderAnswer::Denied(_)) => true,
        (ReaderAsk::Recheck, ReaderAnswer::Denied(_)) => true,
        (ReaderAsk::Fetch { .. }, ReaderAnswer::Fetched(FetchAnswer::Held(held))) => {
            held.base < held.stamp && held.length as usize <= Layout::L0.block_bytes()
        }
        (ReaderAsk::Fetch { .. }, ReaderAnswer::Fetched(FetchAnswer::Nothing)) => true,
        (ReaderAsk::Fetch { .. }, ReaderAnswer::Fetched(FetchAnswer::Lost)) => true,
        (ReaderAsk::Fetch { .. }, ReaderAnswer::Fetched(FetchAnswer::Down)) => true,
        (ReaderAsk::Fetch { .. }, ReaderAnswer::Fetched(FetchAnswer::DiskFault)) => true,
        (ReaderAsk::Fetch { .. }, ReaderAnswer::Missed) => true,
        _ => false,
    }
}

/// Whether these are enough bins for what was asked.
fn are_enough(ask: ReaderAsk, bins: &[u64]) -> bool
    ensures { (answer : AnAnswer) → IsTrue result → HasBins L0 ask answer bins.now }
{
    match ask {
        ReaderAsk::Fetch { position, .. } => {
            position < 4 && Layout::L0.bins_at(position) <= bins.len()
        }
        _ => true,
    }
}

/// Where the words 0 of the first two rows fall, by position: the text has 1 there, and 2.
const FIRST: [usize; 4] = [2, 1, 0, 0];

const SECOND: [usize; 4] = [0, 0, 0, 1];

/// Compares what is asked, and answers it; a record has the bins of the text, by where those of the first row are.
fn step(
    rt: &impl Abort,
    reader: &mut Reader,
    first: &[usize; 4],
    ask: ReaderAsk,
    answer: ReaderAnswer,
)
    requires { reader.old.state.layout ≡ L0 }
    ensures { reader.new.state.layout ≡ L0 }
{
    let is_ended = reader.end().is_some();
    let asked = reader.next();
    assert!(rt; !is_ended && asked == ask, "before {ask:?}");
    let mut bins = [0u64; ROOM];
    if let ReaderAsk::Fetch { position, .. } = asked {
        assert!(rt; position < 4);
        let (first, second) = (first[position as usize], SECOND[position as usize]);
        assert!(rt; first < ROOM && second < ROOM);
        bins[first] |= 1;
        bins[second] |= 2;
    }
    assert!(rt;
        belongs(asked, answer) && are_enough(asked, &bins),
        "no answer to {asked:?}"
    );
    reader.tell(answer, &bins);
}

/// A file whose position `i` is on node `100 + i`.
fn file() -> FileInfo
    ensures { length result.places ≡ 4 }
{
    let mut places = Places::none();
    places.push(100);
    places.push(101);
    places.push(102);
    places.push(103);
    FileInfo {
        fid: 5,
        cid: 1,
        places,
        size: 0,
    }
}

/// Plays a read by a table of asks and answers, and compares the end.
fn play(rt: &(impl Abort + AllocGlobal), turns: &[(ReaderAsk, ReaderAnswer)], end: ReadMark) {
    let mut reader = Reader::start(rt.alloc(), Layout::L0, &file(), 9).expect(rt, "memory");
    for (ask, answer) in turns {
        step(rt, &mut reader, &FIRST, *ask, *answer);
    }
    let asked = reader.next();
    let found = reader.end();
    drop(reader);
    assert!(rt; asked == ReaderAsk::End && found == Some(end), "{end:?}");
}

fn looked(stamp: u64, mask: u16) -> ReaderAnswer {
    ReaderAnswer::Looked(Some(Published {
        stamp,
        mask,
        length: 2049,
    }))
}

fn fetch(position: u8) -> ReaderAsk {
    ReaderAsk::Fetch {
        position,
        node: 100 + u16::from(position),
        stamp: 7,
    }
}

fn held(stamp: u64) -> ReaderAnswer {
    ReaderAnswer::Fetched(FetchAnswer::Held(Held {
        stamp,
        length: 2049,
        base: 3,
    }))
}

/// Four positions of which these came.
fn too_few(first: [Seen; 4]) -> ReadMark {
    let mut seen = [Seen::NotAsked; 16];
    seen[0] = first[0];
    seen[1] = first[1];
    seen[2] = first[2];
    seen[3] = first[3];
    ReadMark::TooFew { seen }
}

const NOTHING: ReaderAnswer = ReaderAnswer::Fetched(FetchAnswer::Nothing);

const LOST: ReaderAnswer = ReaderAnswer::Fetched(FetchAnswer::Lost);

const FAULT: ReaderAnswer = ReaderAnswer::Fetched(FetchAnswer::DiskFault);

const DOWN: ReaderAnswer = ReaderAnswer::Fetched(FetchAnswer::Down);

const UNKNOWN: Denial = Denial::UnknownFile;

const DENIED: ReaderAnswer = ReaderAnswer::Denied(UNKNOWN);

const FOUND: ReadMark = ReadMark::Found {
    stamp: 7,
    length: 2049,
};

/// The look.
fn look(mask: u16) -> (ReaderAsk, ReaderAnswer) {
    (ReaderAsk::Look, looked(7, mask))
}

/// A spare position gives the record that another one does not.
fn by_a_spare(rt: &(impl Abort + AllocGlobal)) {
    let turns = [
        look(0b1011),
        (fetch(0), held(7)),
        (fetch(1), NOTHING),
        (fetch(3), held(7)),
    ];
    play(rt, &turns, FOUND);
}

/// Two positions give a record of another stamp.
fn past_others(rt: &(impl Abort + AllocGlobal)) {
    let turns = [
        look(0b0111),
        (fetch(0), held(8)),
        (fetch(1), held(8)),
        (fetch(2), held(7)),
        (fetch(3), held(7)),
    ];
    play(rt, &turns, FOUND);
}

/// Too few positions give the record, and it is still the one that is published.
fn by_too_few(rt: &(impl Abort + AllocGlobal)) {
    let turns = [
        look(0b0111),
        (fetch(0), NOTHING),
        (fetch(1), LOST),
        (fetch(2), held(7)),
        (fetch(3), NOTHING),
        (ReaderAsk::Recheck, looked(7, 0b0111)),
    ];
    let end = too_few([Seen::Nothing, Seen::Lost, Seen::Held, Seen::Nothing]);
    play(rt, &turns, end);
}

/// Meanwhile another record was published.
fn of_a_moved_block(rt: &(impl Abort + AllocGlobal)) {
    let turns = [
        look(0b0111),
        (fetch(0), NOTHING),
        (fetch(1), held(9)),
        (fetch(2), held(9)),
        (fetch(3), DOWN),
        (ReaderAsk::Recheck, looked(9, 0b0111)),
    ];
    play(rt, &turns, ReadMark::Moved { was: 7, now: 9 });
}

/// Meanwhile the file has gone.
fn of_a_lost_file(rt: &(impl Abort + AllocGlobal)) {
    let turns = [
        look(0b0111),
        (fetch(0), ReaderAnswer::Missed),
        (fetch(1), ReaderAnswer::Missed),
        (fetch(2), ReaderAnswer::Missed),
        (fetch(3), ReaderAnswer::Missed),
        (ReaderAsk::Recheck, DENIED),
    ];
    play(rt, &turns, ReadMark::Denied(UNKNOWN));
}

/// One position gives the record, and the others fail otherwise.
fn by_one(rt: &(impl Abort + AllocGlobal)) {
    let turns = [
        look(0b0111),
        (fetch(0), held(7)),
        (fetch(1), ReaderAnswer::Missed),
        (fetch(2), DOWN),
        (fetch(3), FAULT),
        (ReaderAsk::Recheck, looked(7, 0b0111)),
    ];
    let end = too_few([Seen::Held, Seen::Missed, Seen::Down, Seen::DiskFault]);
    play(rt, &turns, end);
}

#[test]
fn outcomes(rt: HostRuntime) -> Result<(), Fail> {
    by_a_spare(&rt);
    past_others(&rt);
    by_too_few(&rt);
    of_a_moved_block(&rt);
    of_a_lost_file(&rt);
    by_one(&rt);
    let hole = [(ReaderAsk::Look, ReaderAnswer::Looked(None))];
    play(&rt, &hole, ReadMark::Hole);
    let denied = [(ReaderAsk::Look, DENIED)];
    play(&rt, &denied, ReadMark::Denied(UNKNOWN));
    Ok(())
}

/// As `FIRST`, but the record at position 1 is no projection of a block with the one at position 0.
const WRONG: [usize; 4] = [2, 0, 0, 0];

#[test]
fn inconsistent(rt: HostRuntime) -> Result<(), Fail> {
    let mut reader = Reader::start(rt.alloc(), Layout::L0, &file(), 9).expect(&rt, "memory");
    step(&rt, &mut reader, &FIRST, ReaderAsk::Look, looked(7, 0b0111));
    step(&rt, &mut reader, &FIRST, fetch(0), held(7));
    step(&rt, &mut reader, &WRONG, fetch(1), held(7));
    let end = reader.end();
    drop(reader);
    assert!(rt; end == Some(ReadMark::Inconsistent));
    Ok(())
}
