//! The blocks of a file that goes, with what is counted and marked of them.

ghost use Rattle.std.specs.Prelude.{◌≡◌, map, Some};
ghost use Rattle.rz_export_model.specs.Tree.{Tree};
ghost use Rattle.rz_export_model.specs.Export.{without_file, blocks_after};
ghost use Rattle.rz_export.specs.Nodes.{enrolments_of};
ghost use Rattle.rz_export.specs.Kept.{AreCounted, AreMarked, HaveRoom, lies_at, gone_in, LayThere};

use crate::lists::clear;
use crate::nodes::{KeptNode, recount};
use rz_blocks::{Blocks, Marks};
use rz_events::{FileInfo, TreeReply};

/// Takes all blocks of a file away, and counts them out one by one.
fn release(nodes: &mut [KeptNode], blocks: &mut Blocks, info: &FileInfo)
    ensures blocks { blocks.new ≡ without_file blocks.old info.now.fid }
    ensures specs { map (λ n. n.spec) nodes.new ≡ map (λ n. n.spec) nodes.old }
    ensures enrolled { enrolments_of nodes.new ≡ enrolments_of nodes.old }
    ensures counted { (t : Tree) → lies_at t info.now.fid ≡ Some info.now.places → AreCounted t blocks.old nodes.old → AreCounted t blocks.new nodes.new }
{
    while let Some(key) = blocks.first_of(info.fid) {
        let before = blocks.look(key);
        recount(nodes, info.places.list(), before, None);
        blocks.take_out(key);
    }
    // No block is left; the room for their marks goes.
    blocks.forget(info.fid);
}

/// Takes the blocks of the file away that a reply says to be gone, and its marks.
pub fn settle(nodes: &mut [KeptNode], blocks: &mut Blocks, listed: &mut Marks, reply: &TreeReply)
    ensures blocks { blocks.new ≡ blocks_after blocks.old reply.now }
    ensures specs { map (λ n. n.spec) nodes.new ≡ map (λ n. n.spec) nodes.old }
    ensures enrolled { enrolments_of nodes.new ≡ enrolments_of nodes.old }
    ensures counted { (t : Tree) → LayThere t reply.now → AreCounted t blocks.old nodes.old → AreCounted t blocks.new nodes.new }
    ensures marked { (t : Tree) → LayThere t reply.now → AreMarked t blocks.old listed.old → AreMarked t blocks.new listed.new }
    ensures room { (t : Tree) → HaveRoom t blocks.old listed.old → HaveRoom t blocks.new listed.new }
{
    let Some(info) = gone_of(reply) else {
        return;
    };
    release(nodes, blocks, &info);
    clear(listed, info.places.list(), info.fid);
}

/// The file that a reply says to be gone.
fn gone_of(reply: &TreeReply) -> Option<FileInfo>
    ensures { result ≡ gone_in reply.now }
{
    match reply {
        TreeReply::Gone(gone) => *gone,
        _ => None,
    }
}
