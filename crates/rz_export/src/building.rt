//! An export built of its parts, one after another.

ghost use Rattle.std.specs.Prelude.{◌≡◌, IfOk, OnOk, OnErr};
ghost use Rattle.std.specs.FinMap as maps;
ghost use Rattle.rz_export_model.specs.Export.{new_export};
ghost use Rattle.rz_tree.specs.Added as trees;
ghost use Rattle.rz_export.specs.Parts.{export_parts};
ghost use Rattle.rz_export.specs.Building.{with_part, made_of, MayAdd, MayBeBlock, MayBeEnrolled, ArePartsOf};

use crate::export::Export;
use crate::lists::{make_room, mark};
use crate::nodes::{Enrolment, enroll, recount};
use rz_config::Volume;
use rz_events::{Key, Published};
use rz_tree::Part;
use std::alloc::{AllocError, Global};

impl Export {
    /// The export of a volume that has these parts: the one whose `part` gives them again.
    pub fn build(alloc: Global, volume: Volume, parts: &[Part]) -> Result<Export, AllocError>
        requires { ArePartsOf volume parts.now }
        ensures made { IfOk result (λ e. e ≡ made_of volume parts.now) }
        ensures parts { IfOk result (λ e. export_parts e ≡ parts.now) }
    {
        let mut export = Export::new(alloc, volume, 0)?;
        for part in parts {
            export.add_part(part)?;
        }
        Ok(export)
    }

    /// Adds the next part: the counters to an export with nothing in it, then the root, then what
    /// `allows` lets come. An object may lack a name until its names come.
    pub fn add_part(&mut self, part: &Part) -> Result<(), AllocError>
        requires { MayAdd self.old part.now }
        ensures ok { OnOk result (self.new ≡ with_part self.old part.now) }
        ensures err { OnErr result (self.new ≡ self.old) }
    {
        match part {
            Part::Counters { last, made } => self.add_counters(*last, *made),
            Part::Block {
                key,
                latest,
                published,
            } => self.add_block(*key, *latest, *published),
            Part::Enrolled { node, loss, fence } => {
                self.add_enrolment(*node, *loss, *fence);
                Ok(())
            }
            _ => self.add_to_tree(part),
        }
    }

    // The counters come first. They say which object was made last, and which number was drawn last.
    fn add_counters(&mut self, last: u64, made: u128) -> Result<(), AllocError>
        requires { self.old ≡ new_export self.old.volume 0 }
        ensures ok { OnOk result (self.new ≡ with_part self.old (Part.Counters last made)) }
        ensures err { OnErr result (self.new ≡ self.old) }
    {
        self.add_to_tree(&Part::Counters { last, made })?;
        self.last = last;
        Ok(())
    }

    // Adds a part of the tree, while there are no blocks.
    fn add_to_tree(&mut self, part: &Part) -> Result<(), AllocError>
        requires may { trees.MayAdd self.old.tree part.now }
        requires blockless { self.old.blocks ≡ maps.empty }
        ensures ok { OnOk result (self.new ≡ record self.old { tree = trees.with_part self.old.tree part.now }) }
        ensures err { OnErr result (self.new ≡ self.old) }
    {
        self.tree.add_part(part)?;
        Ok(())
    }

    // Adds the next block, and counts and marks it at the nodes that are named where it is published.
    fn add_block(
        &mut self,
        key: Key,
        latest: u64,
        published: Option<Published>,
    ) -> Result<(), AllocError>
        requires { MayBeBlock self.old key latest published }
        ensures ok { OnOk result (self.new ≡ with_part self.old (Part.Block key latest published)) }
        ensures err { OnErr result (self.new ≡ self.old) }
    {
        let Some(info) = self.file(key.fid) else {
            return Ok(());
        };
        let places = info.places.list();
        make_room(&mut self.listed, places, key)?;
        self.blocks.add(key, latest, published)?;
        // The number of all blocks fits a word, and so the number of those on a node does.
        let _count = self.blocks.len();
        recount(self.nodes.as_mut_slice(), places, None, published);
        mark(&mut self.listed, places, key, published);
        Ok(())
    }

    // Adds the next enrolment.
    fn add_enrolment(&mut self, node: u16, loss: u64, fence: u64)
        requires { MayBeEnrolled self.old node fence }
        ensures { self.new ≡ with_part self.old (Part.Enrolled node loss fence) }
    {
        enroll(self.nodes.as_mut_slice(), node, Enrolment { loss, fence });
    }
}
