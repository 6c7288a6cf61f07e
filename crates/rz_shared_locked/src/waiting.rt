//! Calls that wait for ever.
ghost use Rattle.std.specs.Prelude.{◌≡◌};

use crate::swapping::{Swap, SwapFault};
use rz_disk::Disk;
use rz_events::{NodeAnswer, Reply};
use rz_metadata::NoReply;
use std::sync::Wait;

/// Does not return.
pub(crate) fn unanswered<R: Wait>(rt: &R)
    ensures never { ⊥ }
{
    for _ in rt.forever() {}
}

/// Gives no answer, ever.
pub(crate) fn stalled<R: Wait>(rt: &R) -> NodeAnswer
    ensures never { ⊥ }
{
    unanswered(rt);
    unreachable!()
}

/// Gives no reply, ever.
pub(crate) fn without_reply<R: Wait>(rt: &R) -> Result<Reply, NoReply>
    ensures never { ⊥ }
{
    unanswered(rt);
    unreachable!()
}

/// Swaps nothing, ever.
pub(crate) fn unswapped<R: Wait, D: Disk>(rt: &R) -> Result<Swap<D>, (D, SwapFault)>
    ensures never { ⊥ }
{
    unanswered(rt);
    unreachable!()
}
