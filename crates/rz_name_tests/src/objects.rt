//! Each call once with memory enough, none of which is refused.

use rz_events::{Places, Text, TreeCall, TreeReply};
use rz_tree::Tree;
use std::process::Abort;
use std::test::Fail;

fn text(rt: &(impl Abort + AllocGlobal), bytes: &[u8]) -> Text {
    Text::from_bytes(rt.alloc(), bytes).expect(rt, "memory")
}

// Whether a call is not refused.
fn is_done(rt: &(impl Abort + AllocGlobal), tree: &mut Tree, call: TreeCall) -> bool {
    let reply = tree.answer(&call, 5, &Places::none()).expect(rt, "memory");
    let is_refused = matches!(&reply, TreeReply::Refused(_));
    drop(reply);
    drop(call);
    !is_refused
}

// Makes a directory, a file with two names, and a link, and looks at them.
fn are_made(rt: &(impl Abort + AllocGlobal), tree: &mut Tree) -> bool {
    let path = text(rt, b"/d");
    let dir = is_done(rt, tree, TreeCall::Mkdir { path });
    let path = text(rt, b"/d/f");
    let file = is_done(rt, tree, TreeCall::Create { path });
    let path = text(rt, b"/d/f");
    let to = text(rt, b"/g");
    let name = is_done(rt, tree, TreeCall::Link { path, to });
    let target = text(rt, b"target");
    let path = text(rt, b"/s");
    let link = is_done(rt, tree, TreeCall::Symlink { target, path });
    let path = text(rt, b"/s");
    let read = is_done(rt, tree, TreeCall::Readlink { path });
    let path = text(rt, b"/d");
    let listed = is_done(rt, tree, TreeCall::Readdir { path });
    dir && file && name && link && read && listed
}

// Looks at the file.
fn is_found(rt: &(impl Abort + AllocGlobal), tree: &mut Tree) -> bool {
    let path = text(rt, b"/g");
    let found = is_done(rt, tree, TreeCall::Lookup { path });
    let path = text(rt, b"/g");
    let attributes = is_done(rt, tree, TreeCall::Getattr { path });
    let path = text(rt, b"/g");
    let opened = is_done(rt, tree, TreeCall::OpenFile { path });
    let (mode, mtime) = (0, 0);
    let path = text(rt, b"/g");
    let set = is_done(rt, tree, TreeCall::Setattr { path, mode, mtime });
    found && attributes && opened && set
}

// Takes the file's names and the directory away.
fn are_gone(rt: &(impl Abort + AllocGlobal), tree: &mut Tree) -> bool {
    let path = text(rt, b"/g");
    let to = text(rt, b"/s");
    let renamed = is_done(rt, tree, TreeCall::Rename { path, to });
    let path = text(rt, b"/d/f");
    let file = is_done(rt, tree, TreeCall::Unlink { path });
    let path = text(rt, b"/d");
    let dir = is_done(rt, tree, TreeCall::Rmdir { path });
    renamed && file && dir
}

#[test]
fn calls_are_answered(rt: HostRuntime) -> Result<(), Fail> {
    let mut tree = Tree::new(rt.alloc()).expect(&rt, "memory");
    let made = are_made(&rt, &mut tree);
    let found = is_found(&rt, &mut tree);
    let gone = are_gone(&rt, &mut tree);
    drop(tree);
    assert!(rt; made && found && gone);
    Ok(())
}
