//! The parts that an export is made of, one by one.

ghost use Rattle.std.specs.Prelude.{ℕ, ◌≡◌, IfOk};
ghost use Rattle.std.specs.List as lists;
ghost use Rattle.std.specs.Option.{option_map, option_copied};
ghost use Rattle.std.specs.FinMap as maps;
ghost use Rattle.rz_tree.specs.Parts.{after_object, after_name};
ghost use Rattle.rz_export.specs.Parts.{counters, block_part, enrolled_part, flat_parts, export_parts, IsBefore, or_flat, after_block, after_enrolled};

use crate::enrolments::{enrolment_past, nth_enrolment};
use crate::export::Export;
use rz_events::Key;
use rz_names::Path;
use rz_tree::Part;
use std::alloc::AllocError;

impl Export {
    /// The part at a place: the counters first, then the objects by their numbers, the names by their
    /// paths, the blocks by their keys and the enrolments by their nodes. All parts together say all that
    /// the export knows. The time that one takes grows with its place: `part_after` walks over all.
    pub fn part(&self, i: usize) -> Result<Option<Part>, AllocError>
        ensures { IfOk result (λ part. part ≡ lists.slice_get (export_parts self.now) i) }
    {
        if i == 0 {
            return Ok(Some(self.counters()));
        }
        let place = i - 1;
        match self.tree.past_parts(place) {
            None => self.tree.part(place),
            Some(past) => Ok(self.flat_part(past)),
        }
    }

    /// The part behind the given one, or the first one where none is given. It is found in logarithmic
    /// time, so that a walk over all parts takes little more time than there are parts.
    pub fn part_after(&self, last: Option<&Part>) -> Result<Option<Part>, AllocError>
        ensures { (i : ℕ) → IsBefore (option_copied last.entry) (export_parts self.now) i → IfOk result (λ part. part ≡ lists.slice_get (export_parts self.now) i) }
    {
        match last {
            None => Ok(Some(self.counters())),
            Some(Part::Counters { .. }) => self.part_after_object(None),
            Some(Part::Object { fid, .. }) => self.part_after_object(Some(*fid)),
            Some(Part::Name { path, .. }) => self.part_after_name(path),
            Some(Part::Block { key, .. }) => Ok(self.part_after_block(Some(*key))),
            Some(Part::Enrolled { node, .. }) => Ok(self.part_after_enrolled(Some(*node))),
        }
    }

    // The part of the tree behind an object, or else the first block or enrolment.
    fn part_after_object(&self, fid: Option<u128>) -> Result<Option<Part>, AllocError>
        ensures { IfOk result (λ part. part ≡ or_flat self.now (after_object self.now.tree fid)) }
    {
        let part = self.tree.part_after_object(fid)?;
        Ok(self.or_flat(part))
    }

    // The name behind a path, or else the first block or enrolment.
    fn part_after_name(&self, path: &Path) -> Result<Option<Part>, AllocError>
        ensures { IfOk result (λ part. part ≡ or_flat self.now (after_name self.now.tree path.now)) }
    {
        let part = self.tree.part_after_name(path)?;
        Ok(self.or_flat(part))
    }

    // A part of the tree, or else the first block or enrolment.
    fn or_flat(&self, part: Option<Part>) -> Option<Part>
        ensures { result ≡ or_flat self.now part }
    {
        match part {
            Some(part) => Some(part),
            None => self.part_after_block(None),
        }
    }

    // The block behind a key, or the first one, or else the first enrolment.
    fn part_after_block(&self, key: Option<Key>) -> Option<Part>
        ensures { result ≡ after_block self.now key }
    {
        match self.blocks.after(key) {
            None => self.part_after_enrolled(None),
            Some((key, latest, published)) => Some(Part::Block {
                key,
                latest,
                published,
            }),
        }
    }

    // The enrolment of the node with the least number past the given one, or the first one.
    fn part_after_enrolled(&self, node: Option<u16>) -> Option<Part>
        ensures { result ≡ after_enrolled self.now node }
    {
        let (node, enrolment) = enrolment_past(self.nodes.as_slice(), node)?;
        Some(Part::Enrolled {
            node,
            loss: enrolment.loss,
            fence: enrolment.fence,
        })
    }

    // The last number drawn, and that of the object that was made last.
    fn counters(&self) -> Part
        ensures { result ≡ counters self.now }
    {
        Part::Counters {
            last: self.last,
            made: self.tree.made(),
        }
    }

    // The part at a place among the blocks and, behind them, the enrolments.
    fn flat_part(&self, i: usize) -> Option<Part>
        ensures { result ≡ lists.slice_get (flat_parts self.now) i }
    {
        let blocks = self.blocks.len();
        if i < blocks {
            return self.block_part(i);
        }
        self.enrolled_part(i - blocks)
    }

    // The block at a place in the order of the keys.
    fn block_part(&self, i: usize) -> Option<Part>
        ensures { result ≡ option_map block_part (lists.slice_get (maps.entries self.now.blocks) i) }
    {
        let (key, latest, published) = self.blocks.nth(i)?;
        Some(Part::Block {
            key,
            latest,
            published,
        })
    }

    // The enrolment at a place in the order of the nodes' numbers.
    fn enrolled_part(&self, i: usize) -> Option<Part>
        ensures { result ≡ option_map enrolled_part (lists.slice_get (maps.entries self.now.enrolled) i) }
    {
        let (node, enrolment) = nth_enrolment(self.nodes.as_slice(), i)?;
        Some(Part::Enrolled {
            node,
            loss: enrolment.loss,
            fence: enrolment.fence,
        })
    }
}
