//! Writes as tables of what is asked and answered.

ghost use Rattle.std.specs.Prelude.{◌≡◌, ◌<◌, IsTrue, length};
ghost use Rattle.std.specs.Int.{bit_at};
ghost use Rattle.rz_client_model.specs.Write.{IsWriterAnswer};

use mj_angles::Layout;
use rz_events::{Denial, FileInfo, KeepAnswer, Places, Why, WriteEnd, WriterAnswer, WriterAsk};
use rz_writer::Writer;
use std::process::Abort;
use std::test::Fail;

/// Whether the answer belongs to what was asked.
pub fn belongs(ask: WriterAsk, answer: WriterAnswer) -> bool
    ensures { IsTrue result → IsWriterAnswer ask answer }
{
    match (ask, answer) {
        (WriterAsk::Begin { .. }, WriterAnswer::Begun { stamp, base }) => base < stamp,
        (WriterAsk::Begin { .. }, WriterAnswer::Denied(_)) => true,
        (WriterAsk::Keep { .. }, WriterAnswer::Kept(_)) => true,
        (WriterAsk::Keep { .. }, WriterAnswer::Missed) => true,
        (WriterAsk::Publish { .. }, WriterAnswer::Accepted) => true,
        (WriterAsk::Publish { mask, .. }, WriterAnswer::Enrolled { position, .. }) => {
            has_bit(mask, position)
        }
        (WriterAsk::Publish { .. }, WriterAnswer::Denied(_)) => true,
        (WriterAsk::Publish { .. }, WriterAnswer::Revoked { .. }) => true,
        _ => false,
    }
}

/// Whether a mask names a position.
#[tactic(auto, using(std::proofs::lemmas::Nat::Bits::shr_and_one))]
fn has_bit(mask: u16, position: u8) -> bool
    ensures { IsTrue result → (position < 16) × (bit_at mask position ≡ 1) }
{
    position < 16 && (mask >> position) & 1 == 1
}

/// Compares what is asked, and answers it.
fn step(rt: &impl Abort, writer: &mut Writer, ask: WriterAsk, answer: WriterAnswer) {
    let is_ended = writer.end().is_some();
    let asked = writer.next();
    assert!(rt;
        !is_ended && asked == ask && belongs(asked, answer),
        "before {ask:?}"
    );
    writer.tell(answer);
}

/// A file whose position `i` is on node `100 + i`.
fn file() -> FileInfo
    ensures { length result.places ≡ 4 }
{
    let mut places = Places::none();
    places.push(100);
    places.push(101);
    places.push(102);
    places.push(103);
    FileInfo {
        fid: 5,
        cid: 1,
        places,
        size: 0,
    }
}

/// Plays a table of asks and answers, and compares the end.
fn play(rt: &(impl Abort + AllocGlobal), rows: &[(WriterAsk, WriterAnswer)], end: WriteEnd) {
    let info = file();
    let mut writer = Writer::start_bare(rt.alloc(), Layout::L0, &info, 9, 5).expect(rt, "memory");
    for (ask, answer) in rows {
        step(rt, &mut writer, *ask, *answer);
    }
    let asked = writer.next();
    let found = writer.end();
    drop(writer);
    assert!(rt; asked == WriterAsk::End && found == Some(end), "{end:?}");
}

const BEGIN: (WriterAsk, WriterAnswer) = (
    WriterAsk::Begin { length: 5 },
    WriterAnswer::Begun { stamp: 7, base: 3 },
);

fn keep(position: u8) -> WriterAsk {
    WriterAsk::Keep {
        position,
        node: 100 + u16::from(position),
        stamp: 7,
        base: 3,
    }
}

fn kept(position: u8) -> (WriterAsk, WriterAnswer) {
    (keep(position), WriterAnswer::Kept(KeepAnswer::Kept))
}

fn publish(mask: u16) -> WriterAsk {
    WriterAsk::Publish { stamp: 7, mask }
}

/// Four positions with these outcomes.
fn too_few(first: [Why; 4]) -> WriteEnd {
    let mut why = [Why::NotAsked; 16];
    why[0] = first[0];
    why[1] = first[1];
    why[2] = first[2];
    why[3] = first[3];
    WriteEnd::TooFew { why }
}

/// A write of which a spare position keeps what another one does not, for this cause.
fn by_a_spare(rt: &(impl Abort + AllocGlobal), answer: WriterAnswer) {
    let rows = [
        BEGIN,
        kept(0),
        (keep(1), answer),
        (keep(2), WriterAnswer::Kept(KeepAnswer::Passed { held: 8 })),
        kept(3),
        (publish(0b1101), WriterAnswer::Accepted),
    ];
    let acked = WriteEnd::Acked {
        stamp: 7,
        mask: 0b1101,
    };
    play(rt, &rows, acked);
}

/// A write that too few keep, for this cause.
fn by_too_few(rt: &(impl Abort + AllocGlobal), answer: WriterAnswer, why: Why) {
    let rows = [BEGIN, (keep(0), answer), (keep(1), answer)];
    let end = too_few([why, why, Why::NotAsked, Why::NotAsked]);
    play(rt, &rows, end);
}

/// Why a position does not keep a record.
const CAUSES: [(WriterAnswer, Why); 6] = [
    (WriterAnswer::Kept(KeepAnswer::Lost), Why::Lost),
    (WriterAnswer::Kept(KeepAnswer::Down), Why::Down),
    (
        WriterAnswer::Kept(KeepAnswer::Fenced { fence: 9 }),
        Why::Fenced,
    ),
    (WriterAnswer::Kept(KeepAnswer::Full), Why::Full),
    (WriterAnswer::Kept(KeepAnswer::DiskFault), Why::DiskFault),
    (WriterAnswer::Missed, Why::Missed),
];

#[test]
fn spares(rt: HostRuntime) -> Result<(), Fail> {
    for (answer, why) in CAUSES {
        by_a_spare(&rt, answer);
        by_too_few(&rt, answer, why);
    }
    Ok(())
}

/// The publish of what the first three positions keep.
const ALL: WriterAsk = WriterAsk::Publish {
    stamp: 7,
    mask: 0b0111,
};

fn enrolled(position: u8) -> (WriterAsk, WriterAnswer) {
    (ALL, WriterAnswer::Enrolled { position, fence: 9 })
}

#[test]
fn publishes(rt: HostRuntime) -> Result<(), Fail> {
    let acked = WriteEnd::Acked {
        stamp: 7,
        mask: 0b1101,
    };
    let accepted = (publish(0b1101), WriterAnswer::Accepted);
    let enrolled = [
        BEGIN,
        kept(0),
        kept(1),
        kept(2),
        enrolled(1),
        kept(3),
        accepted,
    ];
    play(&rt, &enrolled, acked);
    let why = Denial::UnknownFile;
    let denied = (ALL, WriterAnswer::Denied(why));
    let rows = [BEGIN, kept(0), kept(1), kept(2), denied];
    play(&rt, &rows, WriteEnd::Denied(why));
    let revoked = (ALL, WriterAnswer::Revoked { later: 8 });
    let rows = [BEGIN, kept(0), kept(1), kept(2), revoked];
    play(&rt, &rows, WriteEnd::Revoked { later: 8 });
    Ok(())
}

#[test]
fn publishes_of_too_few(rt: HostRuntime) -> Result<(), Fail> {
    let second = WriterAnswer::Enrolled {
        position: 2,
        fence: 9,
    };
    let twice = [
        BEGIN,
        kept(0),
        kept(1),
        kept(2),
        enrolled(0),
        kept(3),
        (publish(0b1110), second),
    ];
    let end = too_few([Why::Enrolled, Why::Kept, Why::Enrolled, Why::Kept]);
    play(&rt, &twice, end);
    let down = (keep(3), WriterAnswer::Kept(KeepAnswer::Down));
    let rows = [BEGIN, kept(0), kept(1), kept(2), enrolled(2), down];
    let end = too_few([Why::Kept, Why::Kept, Why::Enrolled, Why::Down]);
    play(&rt, &rows, end);
    Ok(())
}

#[test]
fn a_begin_is_denied(rt: HostRuntime) -> Result<(), Fail> {
    let far = Denial::BlockTooFar;
    let rows = [(BEGIN.0, WriterAnswer::Denied(far))];
    play(&rt, &rows, WriteEnd::Denied(far));
    Ok(())
}
