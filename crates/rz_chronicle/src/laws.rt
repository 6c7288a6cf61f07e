//! What keys and places say of words and of actors, and what an earlier log leaves.
ghost use Rattle.std.specs.Prelude.{◌≡◌, ◌≤◌, List, length};
ghost use Rattle.rz_events.specs.Volume.{Volume as AVolume};
ghost use Rattle.rz_events.specs.declared.keys.Actor.{Actor as AnActor};
ghost use Rattle.rz_events.specs.declared.events.Word.{Word as AWord};
ghost use Rattle.rz_events.specs.declared.events.Event.{Event as AnEvent};
ghost use Rattle.rz_core.specs.History.{of_word, of_actor};
ghost use Rattle.rz_chronicle.specs.Keys.{count_at, events_at, word_key, actor_key};
ghost use Rattle.rz_chronicle.specs.Laws.{IsAddedAlone, IsAnew, IsLocalAfter, IsRoomy, IsOneRule};

/// Where the events of a word's key are the same, so are those of the word.
pub fn words_kept()
    ensures { (w : AWord) (h g : List AnEvent) → events_at (word_key w) h ≡ events_at (word_key w) g → of_word w h ≡ of_word w g }
{}

/// Where the events of an actor's key are the same, so are those by the actor.
pub fn actors_kept()
    ensures { (a : AnActor) (h g : List AnEvent) → events_at (actor_key a) h ≡ events_at (actor_key a) g → of_actor a h ≡ of_actor a g }
{}

/// A word has no more events than its key.
pub fn words_counted()
    ensures { (w : AWord) (h : List AnEvent) → length (of_word w h) ≤ count_at (word_key w) h }
{}

/// Who holds the tokens of all actors adds alone: nobody else can have added an event meanwhile.
pub fn added_alone()
    ensures { IsAddedAlone }
{}

/// In a run that goes on after an earlier log, what may come may still come, whatever others did
/// meanwhile.
pub fn local_after()
    ensures { (v : AVolume) → IsLocalAfter v }
{
    rz_core::local_in_runs();
    rz_core::next_run();
}

/// A word that has moved fewer than 2^62 times has room for one event more, behind the earlier log of any
/// book.
pub fn roomy()
    ensures { IsRoomy }
{}

/// A book without an earlier log goes on after none.
pub fn begins_anew()
    ensures { IsAnew }
{}

/// Whether its log begins anew or goes on: the history of a book that keeps it legal is legal after the
/// earlier log, and what is allowed there may come.
pub fn one_rule()
    ensures { IsOneRule }
{}
