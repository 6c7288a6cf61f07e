//! A tree built of its parts, one after another.

ghost use Rattle.std.specs.Prelude.{ℕ, ◌≡◌, ◌≤◌, ◌⊎◌, IsSome, OnOk, OnErr};
ghost use Rattle.std.specs.FinMap as maps;
ghost use Rattle.rz_export_model.specs.TreeCalls.{with_name};
ghost use Rattle.rz_tree.specs.Inodes.{object_of};
ghost use Rattle.rz_tree.specs.Added.{with_given, with_part, IsFirstObject, IsNextObject, IsNextName, MayAdd};

use crate::inodes::Inode;
use crate::parts::Part;
use crate::tree::{ROOT, Tree};
use rz_names::Path;
use std::alloc::AllocError;

impl Tree {
    /// Adds the next part, where the parts so far allow it. An object may lack a name until its names
    /// come. Blocks and enrolments are no parts of a tree, and change nothing.
    pub fn add_part(&mut self, part: &Part) -> Result<(), AllocError>
        requires { MayAdd self.old part.now }
        ensures ok { OnOk result (self.new ≡ with_part self.old part.now) }
        ensures err { OnErr result (self.new ≡ self.old) }
    {
        match part {
            Part::Counters { made, .. } => {
                self.set_made(*made);
                Ok(())
            }
            Part::Object {
                fid,
                kind,
                mode,
                mtime,
                size,
                cid,
                places,
                target,
            } => {
                let inode = Inode {
                    kind: *kind,
                    mode: *mode,
                    mtime: *mtime,
                    target: target.copy(self.alloc)?,
                    size: *size,
                    cid: *cid,
                    places: *places,
                    links: 0,
                };
                self.add_object(*fid, inode)
            }
            Part::Name { path, fid } => self.add_next_name(path, *fid),
            _ => Ok(()),
        }
    }

    // Sets which object was made last, where no object has a greater number.
    fn set_made(&mut self, made: u128)
        requires { (fid : ℕ) → IsSome (maps.get self.old.objects fid) → fid ≤ made }
        ensures { self.new ≡ record self.old { made = made } }
    {
        self.made = made;
    }

    // Adds the next object, to which no path leads yet. The root is there, and gets its attributes.
    fn add_object(&mut self, fid: u128, inode: Inode) -> Result<(), AllocError>
        requires next { IsFirstObject self.old fid (object_of inode) ⊎ IsNextObject self.old fid (object_of inode) }
        requires unnamed { inode.links ≡ 0 }
        ensures ok { OnOk result (self.new ≡ with_given self.old fid (object_of inode)) }
        ensures err { OnErr result (self.new ≡ self.old) }
    {
        if fid == ROOT {
            self.inodes.set_attributes(fid, inode.mode, inode.mtime);
            return Ok(());
        }
        self.inodes.add(fid, inode)?;
        Ok(())
    }

    // Adds the next path, and counts it at its object.
    fn add_next_name(&mut self, path: &Path, fid: u128) -> Result<(), AllocError>
        requires { IsNextName self.old path.now fid }
        ensures ok { OnOk result (self.new ≡ with_name self.old path.now fid) }
        ensures err { OnErr result (self.new ≡ self.old) }
    {
        let Some(links) = self.inodes.links(fid) else {
            return Ok(());
        };
        self.names.add(path, fid)?;
        self.inodes.set_links(fid, links + 1);
        Ok(())
    }
}
