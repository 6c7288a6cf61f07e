//! The lists of the nodes: the marks of the published blocks that lie on each of them.

ghost use Rattle.std.specs.Prelude.{ℕ, ◌≡◌, ◌≤◌, ◌==◌, ◌&&◌, true, not, cond, length, List, OnOk};
ghost use Rattle.std.specs.Ordering.{is_eq};
ghost use Rattle.rz_events.specs.Keys.{key_cmp};
ghost use Rattle.rz_events.specs.declared.keys.Key.{Key};
ghost use Rattle.rz_blocks.specs.Marks.{is_marked, has_room};
ghost use Rattle.rz_export.specs.Nodes.{is_named};
ghost use Rattle.rz_export.specs.Kept.{is_place, AreRoomy};

use crate::nodes::is_named;
use rz_blocks::Marks;
use rz_events::{Key, Published};
use std::alloc::AllocError;

/// Makes room for the mark of a block in the lists of these nodes. Room that was made before an error
/// stays.
pub fn make_room(listed: &mut Marks, places: &[u16], key: Key) -> Result<(), AllocError>
    ensures marks { (l : ℕ) (q : Key) → is_marked listed.new l q ≡ is_marked listed.old l q }
    ensures kept { (l : ℕ) (q : Key) → has_room listed.old l q ≡ true → has_room listed.new l q ≡ true }
    ensures room { OnOk result (AreRoomy listed.new places.now key) }
{
    for place in places {
        listed.make_room(*place, key)?;
    }
    Ok(())
}

/// Marks a block in the lists of the nodes that its publish names among these places, and takes its
/// mark out of the lists of the others of them.
pub fn mark(listed: &mut Marks, places: &[u16], key: Key, published: Option<Published>)
    requires few { length places.now ≤ 16 }
    requires room { AreRoomy listed.old places.now key }
    ensures marks { (l : ℕ) (q : Key) → is_marked listed.new l q ≡ cond (is_place l places.now && is_eq (key_cmp key q)) (is_named l places.now published) (is_marked listed.old l q) }
    ensures room { (l : ℕ) (q : Key) → has_room listed.new l q ≡ has_room listed.old l q }
{
    for place in places {
        listed.set(*place, key, is_named(places, published, *place));
    }
}

/// The same, where `before` was published of the block. Where both name the same positions no list is
/// looked up.
pub fn remark(
    listed: &mut Marks,
    places: &[u16],
    key: Key,
    before: Option<Published>,
    after: Option<Published>,
)
    requires few { length places.now ≤ 16 }
    requires room { AreRoomy listed.old places.now key }
    requires marked { (node : ℕ) → is_marked listed.old node key ≡ is_named node places.now before }
    ensures marks { (l : ℕ) (q : Key) → is_marked listed.new l q ≡ cond (is_place l places.now && is_eq (key_cmp key q)) (is_named l places.now after) (is_marked listed.old l q) }
    ensures room { (l : ℕ) (q : Key) → has_room listed.new l q ≡ has_room listed.old l q }
{
    if !name_the_same(before, after) {
        mark(listed, places, key, after);
    }
}

// Whether two publishes of a block name the same positions.
fn name_the_same(before: Option<Published>, after: Option<Published>) -> bool
    ensures { result ≡ true → (node : ℕ) (places : List ℕ) → is_named node places before ≡ is_named node places after }
{
    match (before, after) {
        (Some(before), Some(after)) => before.mask == after.mask,
        _ => false,
    }
}

/// Takes the marks of a file out of the lists of these nodes, and the room for them.
pub fn clear(listed: &mut Marks, places: &[u16], fid: u128)
    ensures marks { (l : ℕ) (q : Key) → is_marked listed.new l q ≡ (not (is_place l places.now && (q.fid == fid)) && is_marked listed.old l q) }
    ensures room { (l : ℕ) (q : Key) → has_room listed.new l q ≡ (not (is_place l places.now && (q.fid == fid)) && has_room listed.old l q) }
{
    for place in places {
        listed.forget(*place, fid);
    }
}
