//! The export, and what it knows of files, blocks and nodes.

ghost use Rattle.std.specs.Prelude.{◌≡◌, ◌≤◌, ◌^◌, ◌<◌, IfOk, IsSome, map, is_some};
ghost use Rattle.std.specs.Option.{option_map};
ghost use Rattle.std.specs.FinMap as maps;
ghost use Rattle.mj_angles.specs.Layout.{block_bytes_of};
ghost use Rattle.rz_events.specs.Volume.{nodes_of};
ghost use Rattle.rz_export_model.specs.Tree.{file_of};
ghost use Rattle.rz_export_model.specs.Export.{new_export, latest_of, published_of, is_node, fence_of, is_ready};
ghost use Rattle.rz_export.specs.Nodes.{enrolled_of, new_node};

use crate::nodes::{Enrolment, KeptNode, is_among, kept_nodes, last_enrolment};
use mj_angles::Layout;
use rz_blocks::{Blocks, Marks};
use rz_config::Volume;
use rz_events::{FileInfo, Key, Published};
use rz_tree::Tree;
use std::alloc::{AllocError, Global};
use std::marker::Model;

/// The metadata server of a volume.
#[derive(Drop)]
pub struct Export {
    pub(crate) alloc: Global,
    pub(crate) volume: Volume,
    pub(crate) tree: Tree,
    pub(crate) blocks: Blocks,
    pub(crate) nodes: Vec<KeptNode>,
    // In the list of each node the published blocks that lie on it.
    pub(crate) listed: Marks,
    pub(crate) last: u64,
}

impl Model for Export {
    ghost use Rattle.rz_export_model.specs.Export as model;
    ghost use Rattle.rz_export_model.specs.Codes.{export_code};
    ghost use Rattle.rz_export.specs.Kept.{export_of, IsKept};

    ghost Value = { model.Export };

    ghost coded = { export_code };

    ghost view = { λ e. export_of e.volume e.tree e.blocks e.nodes.items e.last };

    ghost invariant = { λ e. IsKept e.volume e.tree e.blocks e.nodes.items e.listed e.last };
}

impl Export {
    /// The export of a new store, which draws the numbers above `last`.
    pub fn new(alloc: Global, volume: Volume, last: u64) -> Result<Export, AllocError>
        ensures { IfOk result (λ e. e ≡ new_export volume last) }
    {
        let nodes = nodes_in(alloc, &volume)?;
        let tree = Tree::new(alloc)?;
        let blocks = Blocks::new(alloc);
        let listed = Marks::new(alloc);
        Ok(Export {
            alloc,
            volume,
            tree,
            blocks,
            nodes,
            listed,
            last,
        })
    }

    // The live file of this number.
    pub(crate) fn file(&self, fid: u128) -> Option<FileInfo>
        ensures { result ≡ file_of self.now.tree fid }
    {
        self.tree.file(fid)
    }

    // The newest stamp begun on a block, or 0.
    pub(crate) fn latest(&self, key: Key) -> u64
        ensures { result ≡ latest_of self.now.blocks key }
    {
        self.blocks.latest(key)
    }

    // What is published of a block.
    pub(crate) fn published_of(&self, key: Key) -> Option<Published>
        ensures { result ≡ published_of self.now.blocks key }
    {
        self.blocks.look(key)
    }

    // The last number drawn.
    pub(crate) fn last(&self) -> u64
        ensures { result ≡ self.now.last }
    {
        self.last
    }

    /// The layout of the volume.
    pub fn layout(&self) -> Layout
        ensures { result ≡ self.now.volume.layout }
    {
        layout_of(&self.volume)
    }

    // The last enrolment of a node.
    pub(crate) fn enrolment(&self, node: u16) -> Option<Enrolment>
        ensures { option_map enrolled_of result ≡ maps.get self.now.enrolled node }
    {
        last_enrolment(self.nodes.as_slice(), node)
    }

    // The fence of the last enrolment of a node, or 0.
    pub(crate) fn fence(&self, node: u16) -> u64
        ensures { result ≡ fence_of self.now node }
    {
        match self.enrolment(node) {
            None => 0,
            Some(enrolment) => enrolment.fence,
        }
    }

    // Whether the node is one of the volume.
    pub(crate) fn is_node(&self, node: u16) -> bool
        ensures { result ≡ is_node self.now node }
    {
        is_among(self.nodes.as_slice(), node)
    }

    // Whether a block was begun.
    pub(crate) fn is_begun(&self, key: Key) -> bool
        ensures { result ≡ is_some (maps.get self.now.blocks key) }
    {
        0 < self.blocks.latest(key)
    }
}

/// The layout of a volume.
fn layout_of(volume: &Volume) -> Layout
    ensures { result ≡ volume.now.layout }
{
    volume.layout
}

/// The nodes of a volume, with nothing used or enrolled.
fn nodes_in(alloc: Global, volume: &Volume) -> Result<Vec<KeptNode>, AllocError>
    ensures { IfOk result (λ v. v.items ≡ map new_node (nodes_of volume.now.clusters)) }
{
    kept_nodes(alloc, volume.clusters.as_slice())
}
