//! Whether a head may stand behind others.
ghost use Rattle.std.specs.Prelude.{◌≡◌, ◌≢◌, ◌⊎◌, ◌↔◌, ◌/◌, ◌+◌, ◌<◌, ◌≤◌, ℕ, false, IsTrue, OnOk, OnErr, IfErr, length, Some, None, slice_set};
ghost use Rattle.std.specs.HashMap.{get, spare};
ghost use Rattle.rz_events.specs.declared.records.Head.{Head};
ghost use Rattle.rz_cells_slots.specs.Opening.{GoesNext, KnowsFirsts, NoOtherKey, Notes, OtherKey, Wrong, same_key};

use crate::heads::Heads;
use rz_events::{Head, OpenFault};
use std::collections::HashMap;

/// The first cell that holds each key, a file and a block.
pub type Firsts = HashMap<(u128, u64), u32>;

/// Whether what was read of a cell may stand behind the earlier cells. Then the first cell of each key
/// is known of one cell more.
pub fn admit(
    heads: &Heads,
    firsts: &mut Firsts,
    cell: u32,
    head: &Option<Head>,
) -> Result<(), OpenFault>
    requires cell { cell < length heads.now }
    requires firsts { KnowsFirsts firsts.old heads.now cell }
    requires spare { 0 < spare firsts.old }
    ensures ok { OnOk result ((h : Head) → head.now ≡ Some h → GoesNext heads.now cell h) }
    ensures wrong { IfErr result (λ e. (h : Head) × (head.now ≡ Some h) × Wrong heads.now cell h e) }
    ensures firsts { OnOk result (KnowsFirsts firsts.new (slice_set heads.now cell head.now) (cell + 1)) }
    ensures spare { spare firsts.old ≤ spare firsts.new + 1 }
    ensures unchanged { OnErr result (firsts.new ≡ firsts.old) }
{
    match head {
        Some(head) => {
            judge(heads, firsts, cell, head)?;
            note(firsts, cell, head);
            Ok(())
        }
        None => Ok(()),
    }
}

/// Whether the head may stand in a cell, behind the heads of the earlier cells.
fn judge(heads: &Heads, firsts: &Firsts, cell: u32, head: &Head) -> Result<(), OpenFault>
    requires cell { cell < length heads.now }
    requires firsts { KnowsFirsts firsts.now heads.now cell }
    ensures ok { OnOk result (GoesNext heads.now cell head.now) }
    ensures wrong { IfErr result (λ e. Wrong heads.now cell head.now e) }
{
    if beside_other_key(heads, cell, head) {
        return Err(OpenFault::Damaged { cell });
    }
    let Some(first) = firsts.get(&(head.key.fid, head.key.block)) else {
        return Ok(());
    };
    let first = *first;
    if first >= cell || !is_again(&heads.get(first), first, cell, head) {
        return Ok(());
    }
    Err(OpenFault::Twice {
        first,
        second: cell,
    })
}

/// Notes what was read of a cell, where its key stands in no earlier one.
pub fn note_once(firsts: &mut Firsts, cell: u32, head: &Option<Head>) -> Result<(), OpenFault>
    requires { 0 < spare firsts.old }
    ensures none { OnOk result (head.now ≡ None → firsts.new ≡ firsts.old) }
    ensures some { OnOk result ((h : Head) → head.now ≡ Some h → (get same_key firsts.old (h.key.fid, h.key.block) ≡ None) × Notes firsts.old firsts.new h.key cell) }
    ensures twice { IfErr result (λ e. (h : Head) × (first : ℕ) × (head.now ≡ Some h) × (get same_key firsts.old (h.key.fid, h.key.block) ≡ Some first) × (e ≡ OpenFault.Twice first cell)) }
    ensures spare { spare firsts.old ≤ spare firsts.new + 1 }
{
    let Some(head) = head else {
        return Ok(());
    };
    match firsts.get(&(head.key.fid, head.key.block)).copied() {
        Some(first) => Err(OpenFault::Twice {
            first,
            second: cell,
        }),
        None => {
            note(firsts, cell, head);
            Ok(())
        }
    }
}

/// Notes the cell as the first of the head's key, where none was.
fn note(firsts: &mut Firsts, cell: u32, head: &Head)
    requires { 0 < spare firsts.old }
    ensures noted { Notes firsts.old firsts.new head.now.key cell }
    ensures spare { spare firsts.old ≤ spare firsts.new + 1 }
{
    let key = (head.key.fid, head.key.block);
    if firsts.get(&key).is_none() {
        let _ = firsts.insert(key, cell);
    }
}

/// Whether the other cell of the pair stands earlier and holds another key.
fn beside_other_key(heads: &Heads, cell: u32, head: &Head) -> bool
    requires { cell < length heads.now }
    ensures found { IsTrue result → (d : ℕ) × (q : Head) × OtherKey heads.now cell head.now d q }
    ensures none { result ≡ false → NoOtherKey heads.now cell head.now }
{
    cell % 2 == 1 && has_other_key(&heads.get(cell - 1), head)
}

fn has_other_key(earlier: &Option<Head>, head: &Head) -> bool
    ensures { IsTrue result ↔ ((q : Head) × (earlier.now ≡ Some q) × (q.key ≢ head.now.key)) }
{
    match earlier {
        Some(q) => q.key != head.key,
        None => false,
    }
}

fn is_again(earlier: &Option<Head>, d: u32, cell: u32, head: &Head) -> bool
    ensures { IsTrue result ↔ ((q : Head) × (earlier.now ≡ Some q) × (q.key ≡ head.now.key) × ((d / 2 ≢ cell / 2) ⊎ (q.stamp ≡ head.now.stamp))) }
{
    match earlier {
        Some(q) => q.key == head.key && (d / 2 != cell / 2 || q.stamp == head.stamp),
        None => false,
    }
}
