//! The node of which an old disk is to be carried over.

ghost use Rattle.std.specs.Prelude.{◌≡◌, ◌≢◌, ◌≤◌, ◌==◌, Ok, OnSome, IfSome, length};
ghost use Rattle.std.specs.List.{find};
ghost use Rattle.rz_events.specs.Volume.{IsNode};
ghost use Rattle.rz_script.specs.Grammar.{script};
ghost use Rattle.rz_script_words.specs.declared.form.Form.TheVariants as forms;
ghost use Rattle.rz_request.specs.Input.{limit};
ghost use Rattle.rz_request.specs.Migrations.{JudgesNode, ReadsNode, node_with};

use crate::input::{Taken, take};
use crate::{Refusal, Stop};
use mj_angles::Layout;
use rz_config::Volume;
use rz_events::NodeSpec;
use rz_ports::Source;
use rz_script::{Form, Script, ScriptError};
use std::alloc::Global;

/// A node of a volume of this layout, which has blocks of 4096 bytes.
#[derive(Clone, Copy, Drop)]
pub struct OldNode {
    pub layout: Layout,
    pub node: NodeSpec,
}

/// The node with a number, among these.
fn find_in(nodes: &[NodeSpec], sid: u16) -> Option<NodeSpec>
    ensures { result ≡ find (λ n. n.sid == sid) nodes.now }
{
    nodes.iter().copied().find(|n| n.sid == sid)
}

/// The node of a volume with a number.
fn find_node(volume: &Volume, sid: u16) -> Option<NodeSpec>
    ensures value { result ≡ node_with sid volume.now }
    ensures rules { IfSome result IsNode }
{
    for cluster in &volume.clusters {
        if let Some(node) = find_in(cluster.nodes.as_slice(), sid) {
            return Some(node);
        }
    }
    None
}

/// The node with a number in a volume over so many disks.
fn fit(script: &Script, sid: u16, disks: u64) -> Result<OldNode, Stop>
    ensures { JudgesNode (Ok script.now) sid disks result }
{
    if disks != 2 {
        return Err(Stop::Refused(Refusal::Disks {
            have: disks,
            need: 2,
        }));
    }
    let volume = script.volume();
    match find_node(volume, sid) {
        Some(node) if volume.layout.bsize() == 0 => Ok(OldNode {
            layout: volume.layout,
            node,
        }),
        _ => Err(Stop::Refused(Refusal::Node { sid })),
    }
}

/// The node with a number in the volume of a text over so many disks.
fn read(alloc: Global, text: &[u8], sid: u16, disks: u64) -> Result<OldNode, Stop>
    requires { length text.now ≤ limit }
    ensures { JudgesNode (script forms.Migrate text.now) sid disks result }
{
    match Script::read(alloc, text, Form::Migrate) {
        Ok(script) => fit(&script, sid, disks),
        Err(ScriptError::NoMemory) => Err(Stop::NoMemory),
        Err(ScriptError::Script { line, cause }) => {
            Err(Stop::Refused(Refusal::Script { line, cause }))
        }
        Err(ScriptError::Volume(fault)) => Err(Stop::Refused(Refusal::Volume(fault))),
    }
}

/// The node of which an old disk is to be carried over: the one with this number in the volume of the
/// input, which is read to its end, or until there is one byte more than the limit. There are to be two
/// disks, the old one and the new one.
pub fn migration<I: Source>(
    alloc: Global,
    sid: u16,
    input: &mut I,
    disks: u64,
) -> Result<OldNode, Stop>
    ensures { ReadsNode (record { before = I.left input.old; after = I.left input.new; old = I.faults input.old; new = I.faults input.new }) sid disks result }
{
    match take(alloc, input) {
        Taken::All(bytes) => read(alloc, &bytes, sid, disks),
        Taken::Long => Err(Stop::Refused(Refusal::Long)),
        Taken::Failed => Err(Stop::Source),
        Taken::NoMemory => Err(Stop::NoMemory),
    }
}
