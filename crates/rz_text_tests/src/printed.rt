//! The text of logs, byte for byte.
use crate::comparing::compare;
use rz_events::{
    Actor, Answer, Attr, Denial, Event, FileInfo, Key, Kind, Listing, Places, ReadEnd, RebuildEnd,
    Seen, Text, TreeCall, TreeFault, TreeReply, Why, WriteEnd,
};
use rz_show::show;
use std::process::Abort;
use std::test::Fail;

const KEY: Key = Key { fid: 1, block: 0 };

/// The bytes 0 to 32, of which the first 32 are printed as they are, and all 33 by their SHA-256.
const BYTES: [u8; 33] = [
    0, 1, 2, 3, 4, 5, 6, 7, 8, 9, 10, 11, 12, 13, 14, 15, 16, 17, 18, 19, 20, 21, 22, 23, 24, 25,
    26, 27, 28, 29, 30, 31, 32,
];

const WHY: [Why; 16] = [
    Why::NotAsked,
    Why::Kept,
    Why::Passed,
    Why::Down,
    Why::Lost,
    Why::Fenced,
    Why::Full,
    Why::DiskFault,
    Why::Missed,
    Why::Enrolled,
    Why::OtherFence,
    Why::NotLost,
    Why::OtherLoss,
    Why::NotAsked,
    Why::NotAsked,
    Why::Kept,
];

const SEEN: [Seen; 16] = [
    Seen::NotAsked,
    Seen::Held,
    Seen::Nothing,
    Seen::Down,
    Seen::Lost,
    Seen::DiskFault,
    Seen::Missed,
    Seen::NotAsked,
    Seen::NotAsked,
    Seen::NotAsked,
    Seen::NotAsked,
    Seen::NotAsked,
    Seen::NotAsked,
    Seen::NotAsked,
    Seen::NotAsked,
    Seen::NotAsked,
];

const ATTR: Attr = Attr {
    fid: 255,
    kind: Kind::File,
    mode: 0o644,
    mtime: 18446744073709551615,
    links: 2,
    size: 5,
};

/// What is printed of all events.
const LINES: &[u8] =
    b"r2 1 rebuilt 2 3\nr2 1 left 2 3 4\nr2 1 notlost\nr2 1 otherloss 5\nr2 1 otherfence 6\nr2 1 lostagain\nr2 1 diskfault\nr2 4294967295 hole\nn1 unopened 2\nn65535 started 0\nadmin 1 refused OldLoss\nend 13\n";

/// A client opens a file at 16 places.
fn opened(rt: &(impl Abort + AllocGlobal), by: Actor) -> Event {
    let mut places = Places::none();
    for node in 0..16 {
        places.push(node);
    }
    let info = FileInfo {
        fid: 1,
        cid: 1,
        places,
        size: 0,
    };
    let path = text(rt, b"/f");
    Event::Meta {
        by,
        call: TreeCall::OpenFile { path },
        reply: TreeReply::File(info),
    }
}

fn text(rt: &(impl Abort + AllocGlobal), bytes: &[u8]) -> Text {
    Text::from_bytes(rt.alloc(), bytes).expect(rt, "memory")
}

/// Compares what is printed of an answer to a client who opened a file.
fn prints(rt: &(impl Abort + AllocGlobal), answer: Answer, line: &str) {
    let by = Actor::Client(64);
    let opened = opened(rt, by);
    let done = Event::Done {
        by,
        number: 7,
        answer,
    };
    let log = vec![in rt.alloc(); opened, done].expect(rt, "memory");
    let text = show(rt.alloc(), &log, false).expect(rt, "memory");
    drop(log);
    compare(rt, &text.as_slice(), &line.as_bytes(), line);
    drop(text);
}

#[test]
fn answers(rt: HostRuntime) -> Result<(), Fail> {
    prints(
        &rt,
        Answer::Attr(ATTR),
        "c64 7 attr file 644 18446744073709551615 2 5 00000000-0000-0000-0000-0000000000ff\n",
    );
    let names = vec![in rt.alloc(); text(&rt, b"a b")].expect(&rt, "memory");
    prints(
        &rt,
        Answer::Names(Listing::of(names)),
        "c64 7 names 1 a b\n",
    );
    prints(
        &rt,
        Answer::Read(text(&rt, &BYTES[..32])),
        "c64 7 read 32 x:000102030405060708090a0b0c0d0e0f101112131415161718191a1b1c1d1e1f\n",
    );
    prints(
        &rt,
        Answer::Read(text(&rt, &BYTES)),
        "c64 7 read 33 h:5d8fcfefa9aeeb711fb8ed1e4b7d5c8a9bafa46e8e76e68aa18adce5a10df6ab\n",
    );
    let refused = Answer::Refused(TreeFault::TooManyLinks);
    prints(&rt, refused, "c64 7 refused TooManyLinks\n");
    Ok(())
}

#[test]
fn ends(rt: HostRuntime) -> Result<(), Fail> {
    let end = WriteEnd::Acked {
        stamp: 9,
        mask: 0x8001,
    };
    let acked = Answer::ShortWrite { bytes: 3, end };
    prints(&rt, acked, "c64 7 short 3 acked 9 1000000000000001\n");
    let end = WriteEnd::TooFew { why: WHY };
    let unwritten = Answer::ShortWrite { bytes: 3, end };
    prints(&rt, unwritten, "c64 7 short 3 toofew -kpdlfuxme???--k\n");
    let end = ReadEnd::TooFew { seen: SEEN };
    let unread = Answer::ShortRead { bytes: 0, end };
    prints(&rt, unread, "c64 7 short 0 toofew -sndlxm---------\n");
    let end = ReadEnd::Moved { was: 1, now: 3 };
    let moved = Answer::ShortRead { bytes: 0, end };
    prints(&rt, moved, "c64 7 short 0 moved 1 3\n");
    Ok(())
}

/// A rebuild came to this end.
fn rebuilt(end: RebuildEnd) -> Event {
    Event::Done {
        by: Actor::Rebuilder(2),
        number: 1,
        answer: Answer::Rebuild(end),
    }
}

/// A rebuild found a hole.
fn hole(number: u32, part: bool) -> Event {
    Event::Got {
        by: Actor::Rebuilder(2),
        number,
        key: KEY,
        part,
        end: ReadEnd::Hole,
    }
}

/// An administrator's loss was an old one.
fn denied() -> Event {
    let denied = RebuildEnd::Denied(Denial::OldLoss { kept: 9 });
    Event::Done {
        by: Actor::Admin,
        number: 1,
        answer: Answer::Rebuild(denied),
    }
}

/// The events of a client's and a rebuilder's play.
fn events() -> [Event; 13] {
    [
        rebuilt(RebuildEnd::Rebuilt {
            fence: 2,
            refilled: 3,
        }),
        rebuilt(RebuildEnd::Left {
            fence: 2,
            refilled: 3,
            left: 4,
        }),
        rebuilt(RebuildEnd::NotLost),
        rebuilt(RebuildEnd::OtherLoss { loss: 5 }),
        rebuilt(RebuildEnd::OtherFence { fence: 6 }),
        rebuilt(RebuildEnd::LostAgain),
        rebuilt(RebuildEnd::DiskFault),
        Event::Stop { node: 1 },
        hole(1, true),
        hole(4294967295, false),
        Event::Unopened { node: 1, cause: 2 },
        Event::Start {
            node: 65535,
            took: false,
        },
        denied(),
    ]
}

/// Some of these events have no line.
#[test]
fn log(rt: HostRuntime) -> Result<(), Fail> {
    let events = events();
    let text = show(rt.alloc(), &events, true).expect(&rt, "memory");
    drop(events);
    compare(&rt, &text.as_slice(), &LINES, "log");
    drop(text);
    Ok(())
}
