//! Refusals: their statuses and their lines.

ghost use Rattle.std.specs.Prelude.{◌≡◌, IfOk};
ghost use Rattle.rz_request.specs.Refusals.{line_of, script_line, status_of, volume_line, disks_line, disk_line, node_line, old_line, open_line};

use crate::causes::{script_cause, volume_cause};
use crate::status::Status;
use rz_script::{ScriptCause, VolumeFault};
use std::alloc::{AllocError, Global};

/// Why nothing is played, or why a play was cut off.
#[derive(Drop)]
pub enum Refusal {
    /// The words are those of no command that is built.
    Usage,
    /// The text departs from the grammar: its first bad line, and the cause.
    Script { line: u32, cause: ScriptCause },
    /// The volume of the text breaks a rule.
    Volume(VolumeFault),
    /// The input is too long.
    Long,
    /// A turn past the last one was called for.
    Turns,
    /// The disks are too large, or the script is too much work.
    Large,
    /// There are other disks than are needed.
    Disks { have: u64, need: u64 },
    /// A disk failed while it was formatted, or carried over.
    Disk { index: u64 },
    /// The volume has no such node, or other blocks than an old disk.
    Node { sid: u16 },
    /// The old disk does not open, for a cause with this number.
    Old { cause: u8 },
    /// The journal's disk failed in play.
    Journal,
    /// The journal had no room for a call.
    Full,
    /// A disk that was to be used again does not open, for a cause with this number.
    Open { index: u64, cause: u8 },
}

/// Why there is nothing to play.
#[derive(Drop)]
pub enum Stop {
    NoMemory,
    /// The source failed.
    Source,
    Refused(Refusal),
}

/// The line of a text that is refused.
#[tactic(auto, unfolding(crate::specs::Refusals::script_line))]
fn script_line(alloc: Global, line: u32, cause: ScriptCause) -> Result<Vec<u8>, AllocError>
    ensures { IfOk result (λ l. l.items ≡ script_line line cause) }
{
    let mut out = Vec::from_slice(alloc, b"refused script ")?;
    let number = format!(in alloc; "{line} ")?;
    out.extend_from_slice(number.as_bytes())?;
    out.extend_from_slice(script_cause(cause).as_bytes())?;
    out.extend_from_slice(b"\n")?;
    Ok(out)
}

/// The line of a volume that is refused.
#[tactic(auto, unfolding(crate::specs::Refusals::volume_line))]
fn volume_line(alloc: Global, fault: &VolumeFault) -> Result<Vec<u8>, AllocError>
    ensures { IfOk result (λ l. l.items ≡ volume_line fault.now) }
{
    let mut out = Vec::from_slice(alloc, b"refused volume ")?;
    out.extend_from_slice(fault.path.bytes())?;
    out.extend_from_slice(b" ")?;
    out.extend_from_slice(volume_cause(fault.cause).as_bytes())?;
    out.extend_from_slice(b"\n")?;
    Ok(out)
}

/// The line of another number of disks.
#[tactic(auto, unfolding(crate::specs::Refusals::disks_line))]
fn disks_line(alloc: Global, have: u64, need: u64) -> Result<Vec<u8>, AllocError>
    ensures { IfOk result (λ l. l.items ≡ disks_line have need) }
{
    let line = format!(in alloc; "refused disks {have} {need}\n")?;
    Vec::from_slice(alloc, line.as_bytes())
}

/// The line of a disk that failed.
#[tactic(auto, unfolding(crate::specs::Refusals::disk_line))]
fn disk_line(alloc: Global, index: u64) -> Result<Vec<u8>, AllocError>
    ensures { IfOk result (λ l. l.items ≡ disk_line index) }
{
    let line = format!(in alloc; "refused disk {index}\n")?;
    Vec::from_slice(alloc, line.as_bytes())
}

/// The line of a node of which no old disk is carried over.
#[tactic(auto, unfolding(crate::specs::Refusals::node_line))]
fn node_line(alloc: Global, sid: u16) -> Result<Vec<u8>, AllocError>
    ensures { IfOk result (λ l. l.items ≡ node_line sid) }
{
    let line = format!(in alloc; "refused node {sid}\n")?;
    Vec::from_slice(alloc, line.as_bytes())
}

/// The line of an old disk that does not open.
#[tactic(auto, unfolding(crate::specs::Refusals::old_line))]
fn old_line(alloc: Global, cause: u8) -> Result<Vec<u8>, AllocError>
    ensures { IfOk result (λ l. l.items ≡ old_line cause) }
{
    let line = format!(in alloc; "refused old {cause}\n")?;
    Vec::from_slice(alloc, line.as_bytes())
}

/// The line of a disk that does not open again.
#[tactic(auto, unfolding(crate::specs::Refusals::open_line))]
fn open_line(alloc: Global, index: u64, cause: u8) -> Result<Vec<u8>, AllocError>
    ensures { IfOk result (λ l. l.items ≡ open_line index cause) }
{
    let line = format!(in alloc; "refused open {index} {cause}\n")?;
    Vec::from_slice(alloc, line.as_bytes())
}

impl Refusal {
    /// The status with which the program ends.
    pub fn status(&self) -> u8
        ensures { result ≡ status_of self.now }
    {
        match self {
            Refusal::Usage => Status::USAGE,
            Refusal::Script { .. } => Status::SCRIPT,
            Refusal::Volume(_) => Status::VOLUME,
            Refusal::Long => Status::LONG,
            Refusal::Turns => Status::TURNS,
            Refusal::Large => Status::LARGE,
            Refusal::Disks { .. } => Status::DISKS,
            Refusal::Disk { .. } => Status::DISK,
            Refusal::Node { .. } => Status::NODE,
            Refusal::Old { .. } => Status::OLD,
            Refusal::Journal => Status::JOURNAL,
            Refusal::Full => Status::FULL,
            Refusal::Open { .. } => Status::OPEN,
        }
    }

    /// The line that is written. The one error is want of memory.
    pub fn line(&self, alloc: Global) -> Result<Vec<u8>, AllocError>
        ensures { IfOk result (λ l. l.items ≡ line_of self.now) }
    {
        match self {
            Refusal::Usage => Vec::from_slice(alloc, b"refused usage\n"),
            Refusal::Script { line, cause } => script_line(alloc, *line, *cause),
            Refusal::Volume(fault) => volume_line(alloc, fault),
            Refusal::Long => Vec::from_slice(alloc, b"refused long\n"),
            Refusal::Turns => Vec::from_slice(alloc, b"refused turns\n"),
            Refusal::Large => Vec::from_slice(alloc, b"refused large\n"),
            Refusal::Disks { have, need } => disks_line(alloc, *have, *need),
            Refusal::Disk { index } => disk_line(alloc, *index),
            Refusal::Node { sid } => node_line(alloc, *sid),
            Refusal::Old { cause } => old_line(alloc, *cause),
            Refusal::Journal => Vec::from_slice(alloc, b"refused journal\n"),
            Refusal::Full => Vec::from_slice(alloc, b"refused full\n"),
            Refusal::Open { index, cause } => open_line(alloc, *index, *cause),
        }
    }
}
