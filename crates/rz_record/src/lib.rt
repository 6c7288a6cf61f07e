//! Records as bytes: a head of 48 bytes, and then the bins of one projection.
//!
//! All numbers are little-endian. A head has the stamp (8 bytes), the file (16), the block (8), the
//! layout's number, the byte of the block size, the position and a zero (1 each), the length of the
//! write's text (4) and the base (8). A bin has 8 bytes.
//!
//! The contracts relate bytes to a head and bins, and both ways: `encode_into` writes the one spelling
//! of a record, and `head_of` and `decode_into` read exactly what begins with a spelling, whatever
//! follows it. Each refusal comes exactly where it is the first. They say nothing of where the bins
//! come from.
//!
//! In reading order: `faults`, `fields`, `reading`, `writing`.
#![tactic(auto)]

mod faults;
pub mod fields;
mod reading;
mod writing;

pub use faults::{Field, RecordFault};
pub use reading::{decode_into, head_of};
pub use rz_events::Head;
pub use writing::encode_into;

/// The bytes of a head.
pub const HEAD_BYTES: usize = 48;
