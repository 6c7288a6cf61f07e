//! What eight clients and a rebuilder do at one time, as a script.
use crate::told::Deed::{self, Create, Get, Put};
use crate::told::Place;
use std::process::Abort;

/// Sixteen nodes in two clusters of eight, and two more that have so little room that no file lies on them.
const VOLUME: &str =
    "volume {\"layout\":1,\"bsize\":4096,\"clusters\":[{\"cid\":1,\"nodes\":[{\"sid\":1,\"cells\":64},{\"sid\":2,\"cells\":64},{\"sid\":3,\"cells\":64},{\"sid\":4,\"cells\":64},{\"sid\":5,\"cells\":64},{\"sid\":6,\"cells\":64},{\"sid\":7,\"cells\":64},{\"sid\":8,\"cells\":64}]},{\"cid\":2,\"nodes\":[{\"sid\":9,\"cells\":64},{\"sid\":10,\"cells\":64},{\"sid\":11,\"cells\":64},{\"sid\":12,\"cells\":64},{\"sid\":13,\"cells\":64},{\"sid\":14,\"cells\":64},{\"sid\":15,\"cells\":64},{\"sid\":16,\"cells\":64},{\"sid\":17,\"cells\":1},{\"sid\":18,\"cells\":1}]}]}\n";

/// A disk of each cluster is lost while the clients are at work. One of the other two nodes has lost its disk
/// before, and the rebuilder waits at it for the two losses; the other node stops and starts, and so tells the
/// time.
const LOSSES: &str =
    "lose n17\nstop n18\nstart n18\nlose n3\nstop n18\nstart n18\nlose n12\nstop n18\nstart n18\n";

/// The rebuilder begins with the others, maybe before the first loss, and so it tries so often.
pub const TRIES: u64 = 20;

/// Then come these.
const REBUILDS: &str = "op r1 rebuild n3\nop r1 rebuild n12\n";

/// What each client does: the operation, whether it is on a file that all share, the file, and the block.
pub const PLAN: [(Deed, bool, char, u8); 32] = [
    (Create, true, 's', 0),
    (Create, false, 'a', 0),
    (Put, false, 'a', 0),
    (Put, true, 's', 0),
    (Get, false, 'a', 0),
    (Get, true, 's', 0),
    (Put, false, 'a', 1),
    (Put, true, 's', 0),
    (Get, true, 's', 0),
    (Create, false, 'b', 0),
    (Put, false, 'b', 0),
    (Get, false, 'a', 1),
    (Get, false, 'b', 0),
    (Create, true, 't', 0),
    (Put, true, 't', 1),
    (Get, true, 's', 0),
    (Put, false, 'a', 0),
    (Get, false, 'a', 0),
    (Get, true, 't', 1),
    (Put, true, 't', 0),
    (Get, false, 'a', 2),
    (Get, true, 't', 0),
    (Put, false, 'b', 0),
    (Put, false, 'b', 1),
    (Get, false, 'b', 0),
    (Get, false, 'b', 1),
    (Put, true, 's', 0),
    (Get, true, 't', 1),
    (Get, true, 's', 0),
    (Put, false, 'a', 0),
    (Get, false, 'a', 0),
    (Get, true, 't', 0),
];

pub const CLIENTS: u64 = 8;

/// The block that a client means.
pub fn place_of(client: u64, is_shared: bool, file: char, block: u8) -> Place {
    let owner = if is_shared { 0 } else { client };
    Place { owner, file, block }
}

/// The line of an operation. What it writes names the client and the operation.
fn line_of(
    rt: &(impl Abort + AllocGlobal),
    client: u64,
    number: u64,
    deed: Deed,
    place: Place,
) -> String {
    let Place { owner, file, block } = place;
    let alloc = rt.alloc();
    let line = match deed {
        Create => format!(in alloc; "op c{client} create /{file}{owner}\n"),
        Put => format!(in alloc;
            "op c{client} put /{file}{owner} {block} x:{client:02}{number:02}\n"
        ),
        Get => format!(in alloc; "op c{client} get /{file}{owner} {block}\n"),
    };
    line.expect(rt, "memory")
}

/// Adds the lines of a client.
fn add_client(rt: &(impl Abort + AllocGlobal), client: u64, script: &mut String) {
    let mut number = 0u64;
    for (deed, is_shared, file, block) in PLAN {
        number = number.saturating_add(1);
        let place = place_of(client, is_shared, file, block);
        let line = line_of(rt, client, number, deed, place);
        script.push_str(line.as_str()).expect(rt, "memory");
        drop(line);
    }
}

/// The whole script.
pub fn script(rt: &(impl Abort + AllocGlobal)) -> String {
    let mut script = String::from_str(rt.alloc(), VOLUME).expect(rt, "memory");
    script.push_str(LOSSES).expect(rt, "memory");
    for _ in 0..TRIES {
        script.push_str("op r1 rebuild n17\n").expect(rt, "memory");
    }
    script.push_str(REBUILDS).expect(rt, "memory");
    for client in 1..=CLIENTS {
        add_client(rt, client, &mut script);
    }
    script
}
