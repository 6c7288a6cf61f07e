//! Each call of an export that takes memory, with ample memory.

ghost use Rattle.std.specs.Prelude.{◌≡◌, []};
ghost use Rattle.rz_events.specs.declared.files.Kind.{Kind};
ghost use Rattle.rz_tree.specs.declared.parts.Part.{Part};

use rz_config::Volume;
use rz_events::{Call, Denial, Key, Kind, Places, Reply, Text, TreeCall, TreeReply};
use rz_export::Export;
use rz_tree::Part;
use std::alloc::{AllocError, Global};
use std::process::Abort;
use std::test::Fail;

// The root as a part.
fn root_part(alloc: Global, mode: u16, mtime: u64) -> Part
    ensures { result ≡ Part.Object 0 Kind.Dir mode mtime 0 0 [] [] }
{
    Part::Object {
        fid: 0,
        kind: Kind::Dir,
        mode,
        mtime,
        size: 0,
        cid: 0,
        places: Places::none(),
        target: Text::from_vec(Vec::new(alloc)),
    }
}

// An export built of the least parts.
fn built(alloc: Global) -> Result<Export, AllocError> {
    let volume = Volume::plain(alloc)?;
    let counters = Part::Counters { last: 5, made: 9 };
    let parts = vec![in alloc; counters, root_part(alloc, 0o700, 7)]?;
    Export::build(alloc, volume, parts.as_slice())
}

#[test]
fn an_export_has_the_root_as_a_part(rt: HostRuntime) -> Result<(), Fail> {
    let export = built(rt.alloc()).expect(&rt, "memory");
    let part = export.part(1).expect(&rt, "memory");
    drop(export);
    let is_there = part.is_some();
    drop(part);
    assert!(rt; is_there);
    Ok(())
}

fn path(rt: &(impl Abort + AllocGlobal)) -> Text {
    Text::from_bytes(rt.alloc(), b"/f").expect(rt, "memory")
}

// Makes a file, which is object 1.
fn is_made(rt: &(impl Abort + AllocGlobal), export: &mut Export) -> bool {
    let call = TreeCall::Create { path: path(rt) };
    let reply = export.name(&call).expect(rt, "memory");
    drop(call);
    let is_made = matches!(&reply, TreeReply::MadeFile(_));
    drop(reply);
    is_made
}

// Begins a write of its first block.
fn is_begun(rt: &(impl Abort + AllocGlobal), export: &mut Export) -> bool {
    let reply = export.begin(Key { fid: 1, block: 0 }).expect(rt, "memory");
    let is_begun = matches!(&reply, Reply::Begun { stamp: 1, base: 0 });
    drop(reply);
    is_begun
}

// Takes its name away.
fn is_gone(rt: &(impl Abort + AllocGlobal), export: &mut Export) -> bool {
    let call = Call::Tree(TreeCall::Unlink { path: path(rt) });
    let reply = export.answer(&call);
    drop(call);
    let is_gone = matches!(&reply, Reply::Tree(TreeReply::Gone(Some(_))));
    drop(reply);
    is_gone
}

#[test]
fn a_file_is_made_written_and_taken_away(rt: HostRuntime) -> Result<(), Fail> {
    let volume = Volume::plain(rt.alloc()).expect(&rt, "memory");
    let mut export = Export::new(rt.alloc(), volume, 0).expect(&rt, "memory");
    let made = is_made(&rt, &mut export);
    let begun = is_begun(&rt, &mut export);
    let gone = is_gone(&rt, &mut export);
    drop(export);
    assert!(rt; made && begun && gone);
    Ok(())
}

// The reply to the first begin where this was the last stamp drawn.
fn begun_after(rt: &(impl Abort + AllocGlobal), last: u64) -> Reply {
    let volume = Volume::plain(rt.alloc()).expect(rt, "memory");
    let mut export = Export::new(rt.alloc(), volume, last).expect(rt, "memory");
    let made = is_made(rt, &mut export);
    let reply = export.begin(Key { fid: 1, block: 0 }).expect(rt, "memory");
    drop(export);
    assert!(rt; made);
    reply
}

#[test]
fn stamps_are_spent(rt: HostRuntime) -> Result<(), Fail> {
    let last = begun_after(&rt, u64::MAX - 1);
    let is_last = matches!(&last, Reply::Begun { stamp, base: 0 } if *stamp == u64::MAX);
    drop(last);
    let none = begun_after(&rt, u64::MAX);
    let is_spent = matches!(&none, Reply::Denied(Denial::StampsSpent));
    drop(none);
    assert!(rt; is_last && is_spent);
    Ok(())
}
