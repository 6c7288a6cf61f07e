//! The lines of a log.

ghost use Rattle.std.specs.Prelude.{◌≡◌, ◌≤◌, ◌++◌, [], ◌∷◌, IfOk, OnOk, codes};
ghost use Rattle.rz_events.specs.Events.{by_of};
ghost use Rattle.std.specs.Fmt.{decimal};
ghost use Rattle.rz_script_words.specs.Words.{actor_word};
ghost use Rattle.rz_show.specs.Words.{actor_line, node_line};
ghost use Rattle.rz_show.specs.Ends.{answer_words, read_words, write_words};
ghost use Rattle.rz_show.specs.Text.{end_line, line, text_of};

use crate::ends::{push_answer, push_read, push_write};
use crate::opened::Opened;
use rz_events::{Actor, Answer, Event, ReadEnd, WriteEnd, actor_of};
use rz_script::{push_actor, push_node, push_number, push_word};
use std::alloc::{AllocError, Global};

/// Adds the first two words of an actor's line: who acted, and the number of the operation.
fn push_head(alloc: Global, out: &mut Vec<u8>, by: Actor, number: u32) -> Result<(), AllocError>
    ensures { OnOk result (out.new.items ≡ out.old.items ++ actor_word by ++ 32 ∷ decimal number) }
{
    push_actor(alloc, out, by)?;
    push_number(alloc, out, u64::from(number))
}

/// Adds the line of a read that ended.
#[tactic(auto, unfolding(crate::specs::Words::actor_line))]
fn push_got(
    alloc: Global,
    out: &mut Vec<u8>,
    positions: u8,
    by: Actor,
    number: u32,
    end: &ReadEnd,
) -> Result<(), AllocError>
    requires { positions ≤ 16 }
    ensures { OnOk result (out.new.items ≡ out.old.items ++ actor_line by number (read_words positions end.now)) }
{
    push_head(alloc, out, by, number)?;
    push_read(alloc, out, positions, end)?;
    out.extend_from_slice(b"\n")
}

/// Adds the line of a write that ended.
#[tactic(auto, unfolding(crate::specs::Words::actor_line))]
fn push_gave(
    alloc: Global,
    out: &mut Vec<u8>,
    positions: u8,
    by: Actor,
    number: u32,
    end: &WriteEnd,
) -> Result<(), AllocError>
    requires { positions ≤ 16 }
    ensures { OnOk result (out.new.items ≡ out.old.items ++ actor_line by number (write_words positions end.now)) }
{
    push_head(alloc, out, by, number)?;
    push_write(alloc, out, positions, end)?;
    out.extend_from_slice(b"\n")
}

/// Adds the line of an operation that was answered.
#[tactic(auto, unfolding(crate::specs::Words::actor_line))]
fn push_done(
    alloc: Global,
    out: &mut Vec<u8>,
    positions: u8,
    by: Actor,
    number: u32,
    answer: &Answer,
) -> Result<(), AllocError>
    requires { positions ≤ 16 }
    ensures { OnOk result (out.new.items ≡ out.old.items ++ actor_line by number (answer_words positions answer.now)) }
{
    push_head(alloc, out, by, number)?;
    push_answer(alloc, out, positions, answer)?;
    out.extend_from_slice(b"\n")
}

/// Adds the line of a node: what became of it, and a word on that.
#[tactic(auto, unfolding(crate::specs::Words::node_line))]
fn push_became(
    alloc: Global,
    out: &mut Vec<u8>,
    node: u16,
    what: &[u8],
    number: u8,
) -> Result<(), AllocError>
    ensures { OnOk result (out.new.items ≡ out.old.items ++ node_line node (what.now ∷ decimal number ∷ [])) }
{
    push_node(alloc, out, node)?;
    push_word(out, what)?;
    push_number(alloc, out, u64::from(number))?;
    out.extend_from_slice(b"\n")
}

/// Adds the line of an event, where it has one.
#[tactic(auto, unfolding(crate::specs::Text::line))]
fn push_line(
    alloc: Global,
    out: &mut Vec<u8>,
    positions: u8,
    event: &Event,
) -> Result<(), AllocError>
    requires { positions ≤ 16 }
    ensures { OnOk result (out.new.items ≡ out.old.items ++ line positions event.now) }
{
    match event {
        Event::Got {
            by,
            number,
            part,
            end,
            ..
        } => {
            if *part {
                return Ok(());
            }
            push_got(alloc, out, positions, *by, *number, end)
        }
        Event::Gave {
            by,
            number,
            part,
            end,
            ..
        } => {
            if *part {
                return Ok(());
            }
            push_gave(alloc, out, positions, *by, *number, end)
        }
        Event::Done { by, number, answer } => {
            push_done(alloc, out, positions, *by, *number, answer)
        }
        Event::Start { node, took } => {
            push_became(alloc, out, *node, b"started", u8::from(*took))
        }
        Event::Unopened { node, cause } => push_became(alloc, out, *node, b"unopened", *cause),
        _ => Ok(()),
    }
}

/// Adds the line that ends the text of a play that ended.
#[tactic(auto, unfolding(crate::specs::Text::end_line))]
pub fn push_end(alloc: Global, out: &mut Vec<u8>, events: u64) -> Result<(), AllocError>
    ensures { OnOk result (out.new.items ≡ out.old.items ++ end_line events) }
{
    out.extend_from_slice(b"end")?;
    push_number(alloc, out, events)?;
    out.extend_from_slice(b"\n")
}

/// The text of a log, the oldest event first: a line for the end of each operation and of each block
/// that is read or written by itself, one for each start of a node, and, where the play ended, a last
/// line with the number of events.
///
/// The one error is want of memory. The log is read once.
pub fn show(alloc: Global, log: &[Event], ended: bool) -> Result<Vec<u8>, AllocError>
    ensures { IfOk result (λ text. text.items ≡ text_of log.now ended) }
{
    let mut out = Vec::new(alloc);
    let mut opened = Opened::none();
    for event in log {
        push_line(alloc, &mut out, opened.positions(actor_of(event)), event)?;
        opened.note(event);
    }
    if ended {
        push_end(alloc, &mut out, log.len() as u64)?;
    }
    Ok(out)
}
