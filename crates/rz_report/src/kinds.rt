//! The kinds of events that are counted.

ghost use Rattle.std.specs.Prelude.{◌≡◌};
ghost use Rattle.rz_report.specs.Summary as words;

use rz_events::{Answer, Event, ReadEnd, RebuildEnd, WriteEnd};

fn is_acked_end(end: &WriteEnd) -> bool
    ensures { result ≡ words.is_acked_end end.now }
{
    match end {
        WriteEnd::Acked { .. } => true,
        _ => false,
    }
}

fn is_too_few_put(end: &WriteEnd) -> bool
    ensures { result ≡ words.is_too_few_put end.now }
{
    match end {
        WriteEnd::TooFew { .. } => true,
        _ => false,
    }
}

fn is_found_end(end: &ReadEnd) -> bool
    ensures { result ≡ words.is_found_end end.now }
{
    match end {
        ReadEnd::Found { .. } => true,
        _ => false,
    }
}

fn is_too_few_get(end: &ReadEnd) -> bool
    ensures { result ≡ words.is_too_few_get end.now }
{
    match end {
        ReadEnd::TooFew { .. } => true,
        _ => false,
    }
}

fn is_rebuilt_end(end: &RebuildEnd) -> bool
    ensures { result ≡ words.is_rebuilt_end end.now }
{
    match end {
        RebuildEnd::Rebuilt { .. } => true,
        _ => false,
    }
}

fn is_rebuilt_answer(answer: &Answer) -> bool
    ensures { result ≡ words.is_rebuilt_answer answer.now }
{
    match answer {
        Answer::Rebuild(end) => is_rebuilt_end(end),
        _ => false,
    }
}

/// The end of a put, which is no part of a longer write.
#[tactic(auto, unfolding(crate::specs::Summary::is_put))]
pub fn is_put(event: &Event) -> bool
    ensures { result ≡ words.is_put event.now }
{
    match event {
        Event::Gave { part, .. } => !*part,
        _ => false,
    }
}

/// The end of a put that was acknowledged.
#[tactic(auto, unfolding(crate::specs::Summary::is_acked))]
pub fn is_acked(event: &Event) -> bool
    ensures { result ≡ words.is_acked event.now }
{
    match event {
        Event::Gave { part, end, .. } => !*part && is_acked_end(end),
        _ => false,
    }
}

/// The end of a get, which is no part of a longer read.
#[tactic(auto, unfolding(crate::specs::Summary::is_get))]
pub fn is_get(event: &Event) -> bool
    ensures { result ≡ words.is_get event.now }
{
    match event {
        Event::Got { part, .. } => !*part,
        _ => false,
    }
}

/// The end of a get that found a text.
#[tactic(auto, unfolding(crate::specs::Summary::is_found))]
pub fn is_found(event: &Event) -> bool
    ensures { result ≡ words.is_found event.now }
{
    match event {
        Event::Got { part, end, .. } => !*part && is_found_end(end),
        _ => false,
    }
}

/// The end of a put or of a get that had too few nodes.
#[tactic(auto, unfolding(crate::specs::Summary::is_too_few))]
pub fn is_too_few(event: &Event) -> bool
    ensures { result ≡ words.is_too_few event.now }
{
    match event {
        Event::Gave { part, end, .. } => !*part && is_too_few_put(end),
        Event::Got { part, end, .. } => !*part && is_too_few_get(end),
        _ => false,
    }
}

/// The end of a rebuild that refilled all.
#[tactic(auto, unfolding(crate::specs::Summary::is_rebuilt))]
pub fn is_rebuilt(event: &Event) -> bool
    ensures { result ≡ words.is_rebuilt event.now }
{
    match event {
        Event::Done { answer, .. } => is_rebuilt_answer(answer),
        _ => false,
    }
}

/// A position that a rebuild left.
#[tactic(auto, unfolding(crate::specs::Summary::is_left))]
pub fn is_left(event: &Event) -> bool
    ensures { result ≡ words.is_left event.now }
{
    match event {
        Event::Left { .. } => true,
        _ => false,
    }
}
