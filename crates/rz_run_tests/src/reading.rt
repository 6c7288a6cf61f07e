//! What is printed of the workload, read back line by line.
use crate::printed::end_of;
use crate::stage::push;
use crate::told::Told;
use crate::workload::{CLIENTS, PLAN, TRIES, place_of};
use std::process::Abort;

/// Takes the line of an operation from the front of a text, and gives its words behind the actor and the
/// number, and what is left of the text.
fn take_line<'a>(
    rt: &(impl Abort + AllocGlobal),
    actor: char,
    which: u64,
    number: u64,
    text: &'a str,
) -> (&'a str, &'a str) {
    let front = format!(in rt.alloc(); "{actor}{which} {number} ").expect(rt, "memory");
    let (line, rest) = text.split_once('\n').expect(rt, "a line");
    let words = line.strip_prefix(front.as_str()).expect(rt, "its words");
    drop(front);
    (words, rest)
}

/// Takes the lines of a client from the front of a text, and gives what is left of it.
fn take_client<'a>(
    rt: &(impl Abort + AllocGlobal),
    client: u64,
    text: &'a str,
    all: &mut Vec<Told>,
) -> &'a str {
    let mut rest = text;
    let mut number = 0u64;
    for (deed, is_shared, file, block) in PLAN {
        number = number.saturating_add(1);
        let (words, after) = take_line(rt, 'c', client, number, rest);
        let told = Told {
            client,
            number,
            deed,
            place: place_of(client, is_shared, file, block),
            end: end_of(words).expect(rt, "an end"),
        };
        push(rt, all, told);
        rest = after;
    }
    rest
}

/// Takes the line of a rebuild from the front of a text, and gives what is left of it.
fn take_rebuild<'a>(
    rt: &(impl Abort + AllocGlobal),
    number: u64,
    text: &'a str,
    all: &mut Vec<bool>,
) -> &'a str {
    let (words, rest) = take_line(rt, 'r', 1, number, text);
    let is_rebuilt = words.starts_with("rebuilt ");
    assert!(rt; is_rebuilt || words == "notlost");
    push(rt, all, is_rebuilt);
    rest
}

/// Whether this is the last line.
fn is_last(text: &str) -> bool {
    match text.split_once('\n') {
        Some((line, rest)) => line.starts_with("end ") && rest.is_empty(),
        None => false,
    }
}

/// What a text tells of the clients, and of each rebuild whether it came to its end.
#[derive(Drop)]
pub struct Printed {
    pub all: Vec<Told>,
    pub rebuilds: Vec<bool>,
}

/// What the printed text tells, which has to have all lines that are to be there, and no others.
pub fn read_back(rt: &(impl Abort + AllocGlobal), text: &str) -> Printed {
    let mut all = Vec::new(rt.alloc());
    let mut rebuilds = Vec::new(rt.alloc());
    let mut rest = text;
    for client in 1..=CLIENTS {
        rest = take_client(rt, client, rest, &mut all);
    }
    for number in 1..=TRIES + 2 {
        rest = take_rebuild(rt, number, rest, &mut rebuilds);
    }
    assert!(rt; is_last(rest));
    Printed { all, rebuilds }
}

/// Whether the rebuilder found a lost disk by one of its tries; where it did, it has to have rebuilt the nodes
/// that come then. Otherwise it came too early, and nothing is known of these.
pub fn is_in_time(rebuilds: &[bool]) -> bool {
    let tries = rebuilds.get(..TRIES as usize);
    tries.is_some_and(|tries| tries.contains(&true))
}

/// Whether the two nodes were rebuilt.
pub fn are_rebuilt(rebuilds: &[bool]) -> bool {
    let others = rebuilds.get(TRIES as usize..);
    others.is_some_and(|others| !others.contains(&false))
}
