//! Operations driven by hand.

use rz_events::{
    Answer, CallRef, Datum, Denial, DropAnswer, FileInfo, KeepAnswer, Layout, NodeAnswer, NodeAsk,
    Operation, Places, Reply, Text, TreeCall, TreeReply,
};
use rz_operation::{Ask, Machine, Saying};
use std::process::Abort;
use std::test::Fail;

/// A file whose position `i` is on node `i + 1`.
fn file() -> FileInfo {
    let mut places = Places::none();
    places.push(1);
    places.push(2);
    places.push(3);
    places.push(4);
    FileInfo {
        fid: 7,
        cid: 1,
        places,
        size: 0,
    }
}

fn path(rt: &(impl Abort + AllocGlobal)) -> Text {
    Text::from_bytes(rt.alloc(), b"/f").expect(rt, "memory")
}

/// What is asked of the export, in a word.
fn word(ask: &Ask<'_>) -> &'static str {
    match ask {
        Ask::Export(CallRef::Tree(_)) => "tree",
        Ask::Export(CallRef::Begin { .. }) => "begin",
        Ask::Export(CallRef::Publish { .. }) => "publish",
        Ask::Export(CallRef::Look { .. }) => "look",
        _ => "",
    }
}

/// The export is asked, and replies.
fn reply(rt: &impl Abort, machine: &mut Machine, want: &str, reply: Reply) {
    assert_eq!(rt; word(&machine.next()), want);
    assert!(rt; machine.takes_reply(&reply));
    machine.tell_reply(reply);
}

/// The file is opened with a lock.
fn lock(rt: &impl Abort, machine: &mut Machine, granted: bool) {
    let opened = Reply::Tree(TreeReply::File(file()));
    assert!(rt; machine.takes_locked(&opened));
    machine.tell_locked(granted, opened);
}

/// A node is asked to keep a record, and does.
fn kept(rt: &impl Abort, machine: &mut Machine, node: u16) {
    let Ask::Node {
        node: asked,
        ask: NodeAsk::Keep(_),
    } = machine.next()
    else {
        panic!(rt; "no keep")
    };
    assert_eq!(rt; asked, node);
    machine.tell_answer(NodeAnswer::Keep(KeepAnswer::Kept), &[]);
}

/// A node is asked to keep a record, and the message is lost.
fn missed(rt: &impl Abort, machine: &mut Machine, node: u16) {
    let Ask::Node {
        node: asked,
        ask: NodeAsk::Keep(_),
    } = machine.next()
    else {
        panic!(rt; "no keep")
    };
    assert_eq!(rt; asked, node);
    machine.tell_missed();
}

/// A node is asked to drop a version of the file, and answers.
fn dropped(rt: &impl Abort, machine: &mut Machine, node: u16, answer: DropAnswer) {
    let Ask::Node {
        node: asked,
        ask: NodeAsk::Drop { .. },
    } = machine.next()
    else {
        panic!(rt; "no drop")
    };
    assert_eq!(rt; asked, node);
    machine.tell_answer(NodeAnswer::Drop(answer), &[]);
}

/// The end of a write is said.
fn gave(rt: &impl Abort, machine: &mut Machine) {
    let Ask::Say(Saying::Gave { .. }) = machine.next() else {
        panic!(rt; "no end of a write")
    };
    machine.tell_said();
}

/// The end of a read is said.
fn got(rt: &impl Abort, machine: &mut Machine) {
    let Ask::Say(Saying::Got { .. }) = machine.next() else {
        panic!(rt; "no end of a read")
    };
    machine.tell_said();
}

/// The answer is said.
fn finish(rt: &impl Abort, machine: &mut Machine) -> Answer {
    let Ask::Say(Saying::Done(_)) = machine.next() else {
        panic!(rt; "no answer")
    };
    machine.finish()
}

/// A block is written; the message to the second node is lost.
fn put(rt: &impl Abort, machine: &mut Machine) {
    reply(rt, machine, "tree", Reply::Tree(TreeReply::File(file())));
    reply(rt, machine, "begin", Reply::Begun { stamp: 9, base: 0 });
    kept(rt, machine, 1);
    missed(rt, machine, 2);
    kept(rt, machine, 3);
    kept(rt, machine, 4);
    reply(rt, machine, "publish", Reply::Accepted);
    gave(rt, machine);
    assert!(rt; machine.is_over());
}

/// A file that has no name left is dropped: the first node has one version, two others cannot answer.
fn unlink(rt: &impl Abort, machine: &mut Machine) {
    let gone = TreeReply::Gone(Some(file()));
    reply(rt, machine, "tree", Reply::Tree(gone));
    let first = DropAnswer::Dropped {
        block: 0,
        stamp: 3,
        more: true,
    };
    dropped(rt, machine, 1, first);
    dropped(rt, machine, 1, DropAnswer::Nothing);
    dropped(rt, machine, 2, DropAnswer::Down);
    dropped(rt, machine, 3, DropAnswer::Lost);
    dropped(rt, machine, 4, DropAnswer::Nothing);
}

/// Bytes of a hole are written once the lock is granted, and the export does not know the file.
fn update(rt: &impl Abort, machine: &mut Machine) {
    lock(rt, machine, false);
    lock(rt, machine, false);
    lock(rt, machine, true);
    reply(rt, machine, "look", Reply::Looked(None));
    got(rt, machine);
    reply(rt, machine, "begin", Reply::Denied(Denial::UnknownFile));
    gave(rt, machine);
}

#[test]
fn put_misses_a_node(rt: HostRuntime) -> Result<(), Fail> {
    let op = Operation::Put {
        path: path(&rt),
        block: 0,
        datum: Datum::Made { length: 5, seed: 1 },
    };
    let mut machine = Machine::start(rt.alloc(), Layout::L0, op).expect(&rt, "memory");
    put(&rt, &mut machine);
    drop(machine);
    Ok(())
}

#[test]
fn unlink_drops(rt: HostRuntime) -> Result<(), Fail> {
    let op = Operation::Tree(TreeCall::Unlink { path: path(&rt) });
    let mut machine = Machine::start(rt.alloc(), Layout::L0, op).expect(&rt, "memory");
    unlink(&rt, &mut machine);
    let answer = finish(&rt, &mut machine);
    drop(machine);
    let plain = matches!(&answer, Answer::Plain);
    drop(answer);
    assert!(&rt; plain);
    Ok(())
}

#[test]
fn update_waits_twice(rt: HostRuntime) -> Result<(), Fail> {
    let op = Operation::Update {
        path: path(&rt),
        offset: 100,
        datum: Datum::Made { length: 5, seed: 1 },
    };
    let mut machine = Machine::start(rt.alloc(), Layout::L0, op).expect(&rt, "memory");
    update(&rt, &mut machine);
    let answer = finish(&rt, &mut machine);
    drop(machine);
    let short = matches!(&answer, Answer::ShortWrite { bytes: 0, .. });
    drop(answer);
    assert!(&rt; short);
    Ok(())
}
