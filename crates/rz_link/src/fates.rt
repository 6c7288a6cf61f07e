//! How a message fares.
ghost use Rattle.std.specs.Prelude.{◌≢◌, ◌≡◌, ◌<◌, ◌≤◌, None};
ghost use Rattle.rz_link.specs.Fates.{HasFared};

use crate::{Link, Sent};

/// How a message to a node fares: as is planned for it, or else as the link says. A plan says whether the
/// reply is lost, or else the request. A message that does not go by the link comes through.
pub fn fate<L: Link>(by_link: bool, planned: Option<bool>, node: u16, link: &mut L) -> Sent
    ensures fared { HasFared L.says by_link planned node link.old result link.new }
    ensures lasting { L.lost link.old ≤ L.lost link.new }
    ensures risen { planned ≡ None → result ≢ Sent.Through → L.lost link.old < L.lost link.new }
{
    match (by_link, planned) {
        (false, _) => Sent::Through,
        (true, Some(true)) => Sent::ReplyLost,
        (true, Some(false)) => Sent::RequestLost,
        (true, None) => link.send(node),
    }
}
