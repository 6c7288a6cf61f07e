//! Which part of an export may come next.

ghost use Rattle.std.specs.Prelude.{◌≡◌, ◌<◌, ◌==◌, ◌↔◌, is_some, true, IsTrue};
ghost use Rattle.std.specs.Option.{option_map_or};
ghost use Rattle.std.specs.FinMap as maps;
ghost use Rattle.rz_export_model.specs.Export.{file_blocks, is_drawn};
ghost use Rattle.rz_tree.specs.Added as trees;
ghost use Rattle.rz_tree.specs.Added.{is_behind, AreNamed};
ghost use Rattle.rz_export.specs.Allowed.{may_lie, is_blockless, may_be_published, is_next_block, is_next_enrolment};
ghost use Rattle.rz_export.specs.Building.{MayBeNext, IsBlockless};

use crate::enrolments::enrolment_past;
use crate::export::Export;
use crate::homes::lies_in;
use crate::refusals::{FILE_BLOCKS, is_mask};
use rz_events::{Key, Kind, Places, Published};
use rz_tree::Part;

impl Export {
    /// Whether a part may be added to what is built so far: an object, a name, a block or an enrolment
    /// that keeps the rules. The counters and the root come first, and are never next. No memory is
    /// taken, and all but the volume's nodes and the names of a path is looked up in logarithmic time.
    pub fn allows(&self, part: &Part) -> bool
        ensures { IsTrue result ↔ MayBeNext self.now part.now }
    {
        match part {
            Part::Counters { .. } => false,
            Part::Object {
                kind,
                size,
                cid,
                places,
                ..
            } => self.allows_in_tree(part) && self.may_lie(*kind, *cid, places, *size),
            Part::Name { .. } => self.allows_in_tree(part),
            Part::Block {
                key,
                latest,
                published,
            } => self.allows_block(*key, *latest, *published),
            Part::Enrolled { node, fence, .. } => self.allows_enrolment(*node, *fence),
        }
    }

    /// Whether each object has a name, as it must when the last part was added.
    pub fn is_named(&self) -> bool
        ensures { IsTrue result ↔ AreNamed self.now.tree }
    {
        self.tree.is_named()
    }

    // Whether the tree lets a part come, while there are neither blocks nor enrolments.
    fn allows_in_tree(&self, part: &Part) -> bool
        ensures { IsTrue result ↔ (trees.MayBeNext self.now.tree part.now × IsBlockless self.now) }
    {
        self.is_blockless() && self.tree.allows(part)
    }

    // Whether an object may lie so, which only of a file is asked.
    fn may_lie(&self, kind: Kind, cid: u16, places: &Places, size: u64) -> bool
        ensures { result ≡ may_lie self.now kind cid places.now size }
    {
        match kind {
            Kind::File => lies_in(&self.volume, cid, places.list(), size),
            Kind::Dir | Kind::Link => true,
        }
    }

    // Whether the block may be next.
    fn allows_block(&self, key: Key, latest: u64, published: Option<Published>) -> bool
        ensures { result ≡ is_next_block self.now key latest published }
    {
        let Some(info) = self.file(key.fid) else {
            return false;
        };
        if FILE_BLOCKS <= key.block {
            return false;
        }
        self.is_behind_blocks(key)
            && self.is_drawn(latest)
            && self.is_unenrolled()
            && self.may_be_published(key, info.size, published)
    }

    // Whether a block of a file of this size may be published so, where it is.
    fn may_be_published(&self, key: Key, size: u64, published: Option<Published>) -> bool
        requires { key.block < file_blocks }
        ensures { result ≡ option_map_or (may_be_published self.now key size) published true }
    {
        let Some(published) = published else {
            return true;
        };
        let layout = self.layout();
        let bytes = layout.block_bytes() as u64;
        let end = key.block * bytes + u64::from(published.length);
        self.is_drawn(published.stamp)
            && is_mask(layout, published.mask)
            && u64::from(published.length) <= bytes
            && end <= size
    }

    // Whether the enrolment may be next.
    fn allows_enrolment(&self, node: u16, fence: u64) -> bool
        ensures { result ≡ is_next_enrolment self.now node fence }
    {
        self.is_behind_enrolments(node) && self.is_node(node) && self.is_drawn(fence)
    }

    // Whether a number was drawn.
    fn is_drawn(&self, number: u64) -> bool
        ensures { result ≡ is_drawn self.now number }
    {
        1 <= number && number <= self.last()
    }

    // Whether there is neither a block nor an enrolment.
    fn is_blockless(&self) -> bool
        ensures { result ≡ is_blockless self.now }
    {
        self.blocks.len() == 0 && self.is_unenrolled()
    }

    // Whether no node is enrolled.
    fn is_unenrolled(&self) -> bool
        ensures { result ≡ (maps.len self.now.enrolled == 0) }
    {
        match enrolment_past(self.nodes.as_slice(), None) {
            None => true,
            Some(_) => false,
        }
    }

    // Whether a key stands behind those of all blocks.
    fn is_behind_blocks(&self, key: Key) -> bool
        ensures { result ≡ is_behind self.now.blocks key }
    {
        if self.is_begun(key) {
            return false;
        }
        match self.blocks.after(Some(key)) {
            None => true,
            Some(_) => false,
        }
    }

    // Whether a node is enrolled.
    fn is_enrolled(&self, node: u16) -> bool
        ensures { result ≡ is_some (maps.get self.now.enrolled node) }
    {
        match self.enrolment(node) {
            None => false,
            Some(_) => true,
        }
    }

    // Whether a node stands behind all that are enrolled.
    fn is_behind_enrolments(&self, node: u16) -> bool
        ensures { result ≡ is_behind self.now.enrolled node }
    {
        if self.is_enrolled(node) {
            return false;
        }
        match enrolment_past(self.nodes.as_slice(), Some(node)) {
            None => true,
            Some(_) => false,
        }
    }
}
