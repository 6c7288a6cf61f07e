//! The reading of the input.

ghost use Rattle.std.specs.Prelude.{◌≡◌, ◌≤◌, ◌<◌, ◌+◌, ◌-◌, length, vec_len};
ghost use Rattle.rz_request.specs.Input.{HasTaken};

use rz_ports::Source;
use std::alloc::Global;

/// The most bytes that an input may have.
pub const LIMIT: usize = 4_194_304;

/// The bytes that are asked for at a time.
const PIECE: usize = 65_536;

/// What came of reading an input.
#[derive(Drop)]
pub enum Taken {
    /// All of it, which is no longer than the limit.
    All(Vec<u8>),
    /// More bytes than the limit.
    Long,
    /// A read failed.
    Failed,
    /// There was no memory.
    NoMemory,
}

/// Reads the input to its end, or until there is one byte more than the limit.
pub fn take<I: Source>(alloc: Global, input: &mut I) -> Taken
    ensures { HasTaken (I.left input.old) (I.left input.new) (I.faults input.old) (I.faults input.new) result }
{
    let mut bytes = Vec::new(alloc);
    let mut piece = [0; PIECE];
    'pieces: while bytes.len() <= LIMIT {
        let room = PIECE.min(LIMIT + 1 - bytes.len());
        let Ok(n) = input.read(&mut piece[..room]) else {
            return Taken::Failed;
        };
        if n == 0 {
            return Taken::All(bytes);
        }
        if bytes.extend_from_slice(&piece[..n]).is_err() {
            return Taken::NoMemory;
        }
    }
    Taken::Long
}
