//! The printing of a script in its one spelling.

ghost use Rattle.std.specs.Prelude.{◌≡◌, ◌≤◌, ◌++◌, ◌∷◌, true, codes, Ok, OnOk, IfOk};
ghost use Rattle.std.specs.List.{flat_map, join_by, join_with_byte, list_all};
ghost use Rattle.std.specs.Fmt.{decimal};
ghost use Rattle.rz_script_words.specs.Words.{node_word};
ghost use Rattle.rz_script.specs.Spelling.{datum_word, call_word, call_operands, verb_word, operands_of, way_word, line_words, line_text, lines_text, node_text, cluster_text, description_text, volume_text, script_text, AreShortNodes, AreShortClusters};
ghost use Rattle.rz_events.specs.Volume.{IsVolume};
ghost use Rattle.rz_script.specs.Grammar.{script};
ghost use Rattle.rz_script.specs.Lines.{AreLines, allows};

use crate::{Datum, Form, Line, Operation, Script};
use mj_angles::Layout;
use rz_config::{ClusterSpec, Volume};
use rz_events::{NodeSpec, Text, TreeCall};
use rz_script_words::{push_actor, push_digits, push_hex, push_node, push_number};
use std::alloc::{AllocError, Global};

/// A space and a datum.
#[tactic(auto, unfolding(crate::specs::Spelling::datum_word))]
fn push_datum(alloc: Global, out: &mut Vec<u8>, datum: &Datum) -> Result<(), AllocError>
    ensures { OnOk result (out.new.items ≡ out.old.items ++ 32 ∷ datum_word datum.now) }
{
    out.extend_from_slice(b" ")?;
    match datum {
        Datum::Bytes(text) => push_hex(alloc, out, text.bytes()),
        Datum::Made { length, seed } => {
            out.extend_from_slice(b"g:")?;
            push_digits(alloc, out, u64::from(*length))?;
            out.extend_from_slice(b":")?;
            push_digits(alloc, out, u64::from(*seed))
        }
    }
}

/// A word, a space and a path.
fn push_on_path(out: &mut Vec<u8>, name: &[u8], path: &Text) -> Result<(), AllocError>
    ensures { OnOk result (out.new.items ≡ out.old.items ++ (name.now ++ 32 ∷ path.now)) }
{
    out.extend_from_slice(name)?;
    out.extend_from_slice(b" ")?;
    out.extend_from_slice(path.bytes())
}

/// A word and two texts.
fn push_on_pair(
    out: &mut Vec<u8>,
    name: &[u8],
    first: &Text,
    second: &Text,
) -> Result<(), AllocError>
    ensures { OnOk result (out.new.items ≡ out.old.items ++ (name.now ++ 32 ∷ (first.now ++ 32 ∷ second.now))) }
{
    push_on_path(out, name, first)?;
    out.extend_from_slice(b" ")?;
    out.extend_from_slice(second.bytes())
}

/// A word, a path and a number.
fn push_on_place(
    alloc: Global,
    out: &mut Vec<u8>,
    name: &[u8],
    path: &Text,
    number: u64,
) -> Result<(), AllocError>
    ensures { OnOk result (out.new.items ≡ out.old.items ++ (name.now ++ 32 ∷ (path.now ++ 32 ∷ decimal number))) }
{
    push_on_path(out, name, path)?;
    push_number(alloc, out, number)
}

/// A word and a node.
fn push_on_node(alloc: Global, out: &mut Vec<u8>, name: &[u8], node: u16) -> Result<(), AllocError>
    ensures { OnOk result (out.new.items ≡ out.old.items ++ (name.now ++ 32 ∷ node_word node)) }
{
    out.extend_from_slice(name)?;
    out.extend_from_slice(b" ")?;
    push_node(alloc, out, node)
}

/// A call on the tree.
fn push_call(alloc: Global, out: &mut Vec<u8>, call: &TreeCall) -> Result<(), AllocError>
    ensures { OnOk result (out.new.items ≡ out.old.items ++ join_with_byte 32 (call_word call.now ∷ call_operands call.now)) }
{
    match call {
        TreeCall::Lookup { path } => push_on_path(out, b"lookup", path),
        TreeCall::Getattr { path } => push_on_path(out, b"getattr", path),
        TreeCall::Rmdir { path } => push_on_path(out, b"rmdir", path),
        TreeCall::Mkdir { path } => push_on_path(out, b"mkdir", path),
        TreeCall::Create { path } => push_on_path(out, b"create", path),
        TreeCall::Unlink { path } => push_on_path(out, b"unlink", path),
        TreeCall::Readlink { path } => push_on_path(out, b"readlink", path),
        TreeCall::Readdir { path } => push_on_path(out, b"readdir", path),
        TreeCall::OpenFile { path } => push_on_path(out, b"open", path),
        TreeCall::Setattr { path, mode, mtime } => {
            push_on_place(alloc, out, b"setattr", path, u64::from(*mode))?;
            push_number(alloc, out, *mtime)
        }
        TreeCall::Rename { path, to } => push_on_pair(out, b"rename", path, to),
        TreeCall::Link { path, to } => push_on_pair(out, b"link", path, to),
        TreeCall::Symlink { target, path } => push_on_pair(out, b"symlink", target, path),
    }
}

/// An operation.
fn push_operation(alloc: Global, out: &mut Vec<u8>, op: &Operation) -> Result<(), AllocError>
    ensures { OnOk result (out.new.items ≡ out.old.items ++ join_with_byte 32 (verb_word op.now ∷ operands_of op.now)) }
{
    match op {
        Operation::Tree(call) => push_call(alloc, out, call),
        Operation::Put { path, block, datum } => {
            push_on_place(alloc, out, b"put", path, *block)?;
            push_datum(alloc, out, datum)
        }
        Operation::Get { path, block } => push_on_place(alloc, out, b"get", path, *block),
        Operation::Write {
            path,
            offset,
            datum,
        } => {
            push_on_place(alloc, out, b"write", path, *offset)?;
            push_datum(alloc, out, datum)
        }
        Operation::Read {
            path,
            offset,
            length,
        } => {
            push_on_place(alloc, out, b"read", path, *offset)?;
            push_number(alloc, out, *length)
        }
        Operation::Rebuild { node } => push_on_node(alloc, out, b"rebuild", *node),
        Operation::Update {
            path,
            offset,
            datum,
        } => {
            push_on_place(alloc, out, b"update", path, *offset)?;
            push_datum(alloc, out, datum)
        }
        Operation::View {
            path,
            offset,
            length,
        } => {
            push_on_place(alloc, out, b"view", path, *offset)?;
            push_number(alloc, out, *length)
        }
    }
}

/// A space and what is lost of a message.
fn push_way(out: &mut Vec<u8>, reply: bool) -> Result<(), AllocError>
    ensures { OnOk result (out.new.items ≡ out.old.items ++ 32 ∷ way_word reply) }
{
    if reply {
        out.extend_from_slice(b" reply")
    } else {
        out.extend_from_slice(b" request")
    }
}

/// The words of a line.
#[tactic(auto, unfolding(crate::specs::Spelling::line_words))]
fn push_words(alloc: Global, out: &mut Vec<u8>, line: &Line) -> Result<(), AllocError>
    ensures { OnOk result (out.new.items ≡ out.old.items ++ join_with_byte 32 (line_words line.now)) }
{
    match line {
        Line::Op { by, op } => {
            out.extend_from_slice(b"op ")?;
            push_actor(alloc, out, *by)?;
            out.extend_from_slice(b" ")?;
            push_operation(alloc, out, op)
        }
        Line::Turn { by, k } => {
            out.extend_from_slice(b"turn ")?;
            push_actor(alloc, out, *by)?;
            push_number(alloc, out, u64::from(*k))
        }
        Line::Rounds { k } => {
            out.extend_from_slice(b"rounds")?;
            push_number(alloc, out, u64::from(*k))
        }
        Line::Rest => out.extend_from_slice(b"rest"),
        Line::Stop { node } => push_on_node(alloc, out, b"stop", *node),
        Line::Start { node } => push_on_node(alloc, out, b"start", *node),
        Line::Lose { node } => push_on_node(alloc, out, b"lose", *node),
        Line::Break { node, k, pick } => {
            push_on_node(alloc, out, b"break", *node)?;
            push_number(alloc, out, *k)?;
            push_number(alloc, out, *pick)
        }
        Line::Miss { by, reply } => {
            out.extend_from_slice(b"miss ")?;
            push_actor(alloc, out, *by)?;
            push_way(out, *reply)
        }
    }
}

/// A line with its line feed.
#[tactic(auto, unfolding(crate::specs::Spelling::line_text))]
fn push_line(alloc: Global, out: &mut Vec<u8>, line: &Line) -> Result<(), AllocError>
    ensures { OnOk result (out.new.items ≡ out.old.items ++ line_text line.now) }
{
    push_words(alloc, out, line)?;
    out.extend_from_slice(b"\n")
}

/// All lines.
#[tactic(auto, unfolding(crate::specs::Spelling::lines_text))]
fn push_lines(alloc: Global, out: &mut Vec<u8>, lines: &[Line]) -> Result<(), AllocError>
    ensures { OnOk result (out.new.items ≡ out.old.items ++ lines_text lines.now) }
{
    for line in lines {
        push_line(alloc, out, line)?;
    }
    Ok(())
}

/// The description of a node.
#[tactic(auto, unfolding(crate::specs::Spelling::node_text))]
fn push_node_spec(alloc: Global, out: &mut Vec<u8>, node: &NodeSpec) -> Result<(), AllocError>
    ensures spelling { OnOk result (out.new.items ≡ out.old.items ++ node_text node.now) }
    ensures short { OnOk result (node.now.sid ≤ 65535) }
{
    out.extend_from_slice(b"{\"sid\":")?;
    push_digits(alloc, out, u64::from(node.sid))?;
    out.extend_from_slice(b",\"cells\":")?;
    push_digits(alloc, out, u64::from(node.cells))?;
    out.extend_from_slice(b"}")
}

/// The descriptions of further nodes, each after a comma.
fn push_more_nodes(alloc: Global, out: &mut Vec<u8>, nodes: &[NodeSpec]) -> Result<(), AllocError>
    ensures spelling { OnOk result (out.new.items ≡ out.old.items ++ flat_map (λ n. codes "," ++ node_text n) nodes.now) }
    ensures short { OnOk result (AreShortNodes nodes.now) }
{
    match nodes {
        [] => Ok(()),
        [node, more @ ..] => {
            out.extend_from_slice(b",")?;
            push_node_spec(alloc, out, node)?;
            push_more_nodes(alloc, out, more)
        }
    }
}

/// The descriptions of nodes, with a comma between each two.
fn push_node_specs(alloc: Global, out: &mut Vec<u8>, nodes: &[NodeSpec]) -> Result<(), AllocError>
    ensures spelling { OnOk result (out.new.items ≡ out.old.items ++ join_by node_text (codes ",") nodes.now) }
    ensures short { OnOk result (AreShortNodes nodes.now) }
{
    match nodes {
        [] => Ok(()),
        [first, more @ ..] => {
            push_node_spec(alloc, out, first)?;
            push_more_nodes(alloc, out, more)
        }
    }
}

/// The description of a cluster.
#[tactic(auto, unfolding(crate::specs::Spelling::cluster_text))]
fn push_cluster(alloc: Global, out: &mut Vec<u8>, cluster: &ClusterSpec) -> Result<(), AllocError>
    ensures spelling { OnOk result (out.new.items ≡ out.old.items ++ cluster_text cluster.now) }
    ensures short { OnOk result (cluster.now.cid ≤ 65535) }
    ensures short_nodes { OnOk result (AreShortNodes cluster.now.nodes) }
{
    out.extend_from_slice(b"{\"cid\":")?;
    push_digits(alloc, out, u64::from(cluster.cid))?;
    out.extend_from_slice(b",\"nodes\":[")?;
    push_node_specs(alloc, out, cluster.nodes.as_slice())?;
    out.extend_from_slice(b"]}")
}

/// The descriptions of further clusters, each after a comma.
fn push_more_clusters(
    alloc: Global,
    out: &mut Vec<u8>,
    clusters: &[ClusterSpec],
) -> Result<(), AllocError>
    ensures spelling { OnOk result (out.new.items ≡ out.old.items ++ flat_map (λ c. codes "," ++ cluster_text c) clusters.now) }
    ensures short { OnOk result (AreShortClusters clusters.now) }
{
    match clusters {
        [] => Ok(()),
        [cluster, more @ ..] => {
            out.extend_from_slice(b",")?;
            push_cluster(alloc, out, cluster)?;
            push_more_clusters(alloc, out, more)
        }
    }
}

/// The descriptions of clusters, with a comma between each two.
fn push_clusters(
    alloc: Global,
    out: &mut Vec<u8>,
    clusters: &[ClusterSpec],
) -> Result<(), AllocError>
    ensures spelling { OnOk result (out.new.items ≡ out.old.items ++ join_by cluster_text (codes ",") clusters.now) }
    ensures short { OnOk result (AreShortClusters clusters.now) }
{
    match clusters {
        [] => Ok(()),
        [first, more @ ..] => {
            push_cluster(alloc, out, first)?;
            push_more_clusters(alloc, out, more)
        }
    }
}

/// The description of a volume.
#[tactic(auto, unfolding(crate::specs::Spelling::description_text))]
fn push_description(
    alloc: Global,
    out: &mut Vec<u8>,
    layout: Layout,
    clusters: &[ClusterSpec],
) -> Result<(), AllocError>
    ensures spelling { OnOk result (out.new.items ≡ out.old.items ++ description_text layout clusters.now) }
    ensures short { OnOk result (AreShortClusters clusters.now) }
{
    out.extend_from_slice(b"{\"layout\":")?;
    push_digits(alloc, out, u64::from(layout.number()))?;
    out.extend_from_slice(b",\"bsize\":")?;
    push_digits(alloc, out, layout.block_bytes() as u64)?;
    out.extend_from_slice(b",\"clusters\":[")?;
    push_clusters(alloc, out, clusters)?;
    out.extend_from_slice(b"]}")
}

/// A volume.
fn push_volume(alloc: Global, out: &mut Vec<u8>, volume: &Volume) -> Result<(), AllocError>
    ensures spelling { OnOk result (out.new.items ≡ out.old.items ++ volume_text volume.now) }
    ensures short { OnOk result (AreShortClusters volume.now.clusters) }
    ensures rules { OnOk result (IsVolume volume.now) }
{
    push_description(alloc, out, volume.layout, volume.clusters.as_slice())
}

/// A volume line, and then the lines.
#[tactic(auto, unfolding(crate::specs::Spelling::script_text))]
fn spell(alloc: Global, script: &Script) -> Result<Vec<u8>, AllocError>
    ensures spelling { IfOk result (λ v. v.items ≡ script_text script.now) }
    ensures short { OnOk result (AreShortClusters script.now.volume.clusters) }
    ensures rules { OnOk result (IsVolume script.now.volume) }
    ensures limits { AreLines script.now.volume script.now.lines }
{
    let lines = script.lines();
    let mut out = Vec::new(alloc);
    out.extend_from_slice(b"volume ")?;
    push_volume(alloc, &mut out, script.volume())?;
    out.extend_from_slice(b"\n")?;
    push_lines(alloc, &mut out, lines)?;
    Ok(out)
}

impl Script {
    /// The one spelling of the script. Under each form that lets its lines stand it reads back as this
    /// script.
    pub fn print(&self, alloc: Global) -> Result<Vec<u8>, AllocError>
        ensures spelling { IfOk result (λ v. v.items ≡ script_text self.now) }
        ensures again { (form : Form) → list_all (allows form) self.now.lines ≡ true → IfOk result (λ v. script form v.items ≡ Ok self.now) }
    {
        spell(alloc, self)
    }
}
