//! What a store contains, by its log: the names of its files, and of each block the text of the write that is
//! published. This is all that users see of a store, and the laws say what each of their calls makes of it.
//! They hold of the logs of any number of runs.
//!
//! - [`changes`]: an accepted publish puts the text of its write into its block, and no other event changes
//!   what a block contains. [`unchanged`]: while nobody publishes a block, it contains what it did.
//! - [`reads`]: a read tells what its block contained when the read began, whatever others do meanwhile.
//!   [`read_undisturbed`]: where nobody published the block since, it tells what the block contains.
//! - [`writes`]: an acknowledged write made its block contain its text.
//! - [`names`]: a call on names does to the names what it says, and a publish raises the size of its file.
//!   [`still`]: no other event changes anything that users see.
//! - [`put_alone`], [`get_alone`], [`rebuild_alone`]: what one operation makes of the store where nobody acts
//!   beside it. A put changes exactly its block, and nothing if it is not acknowledged; a get and a rebuild
//!   change nothing.
//! - [`rebuild_still`], [`rebuild_whole`]: no event of a rebuild may change what users see, and a node that was
//!   rebuilt with no block left holds all that it has to hold.
//! - [`removed`]: a file whose last name went stays gone.
//! - [`writes_patch`], [`writes_together`], [`reads_text`], [`reads_together`]: ranges of bytes. A block's
//!   text that is put with some bytes patched in writes exactly these bytes of its file, and what a block's
//!   text has are the bytes of its file, block by block.
//! - [`leads_to_block`], [`put_watched`], [`get_watched`], [`calls_watched`]: the same of an operation that stands
//!   anywhere, so that one which is cut off is known too: to which file its path led, and what it has made of the
//!   store. A call on names does to them what it says as soon as it is replied to.
//! - [`puts_caused`], [`gets_caused`]: why a put or a get beside which nobody acts did not end well.
//! - [`covered`]: the text of a block is no longer than a block, and ends where its file does or before.
//!
//! In reading order: `Contents` has blocks, `Model` the store as users see it, `Putting`, `Getting`,
//! `Mending`, `Removing` and `Files` the single operations, `Causes` why one did not end well, `Ranges` ranges
//! of bytes and `Sizes` where texts end. The functions have no code. What each one says is its clause.
#![tactic(auto)]

ghost use Rattle.std.specs.Prelude.{List};
ghost use Rattle.rz_events.specs.Volume.{Volume};
ghost use Rattle.rz_events.specs.declared.events.Event.{Event as AnEvent};
ghost use Rattle.rz_core.specs.Legal.{IsLegalInRuns};
ghost use Rattle.rz_contents.specs.Contents.{ChangesByPublish, StaysUnpublished, AreReadsTrue, IsReadUndisturbed, AreWritesTrue};
ghost use Rattle.rz_contents.specs.Model.{AreNames, StaysStill};
ghost use Rattle.rz_contents.specs.Putting.{IsPutAlone};
ghost use Rattle.rz_contents.specs.Getting.{IsGetAlone};
ghost use Rattle.rz_contents.specs.Mending.{AreRebuildsStill, IsRebuildAlone, IsRebuildWhole};
ghost use Rattle.rz_contents.specs.Removing.{StaysGone};
ghost use Rattle.rz_contents.specs.Files.{LeadsToBlock, IsPutWatched, IsGetWatched, IsCallWatched};
ghost use Rattle.rz_contents.specs.Causes.{ArePutsCaused, AreGetsCaused};
ghost use Rattle.rz_contents.specs.Sizes.{AreCovered};
ghost use Rattle.rz_contents.specs.Ranges.{WritesPatch, WritesTogether, ReadsText, ReadsTogether};

/// In a legal log an accepted publish puts the text of its write into the block, and no other event
/// changes what a block contains.
pub fn changes()
    ensures { (v : Volume) → ChangesByPublish v }
{}

/// While nobody publishes a block, it contains what it did.
pub fn unchanged()
    ensures { (v : Volume) → StaysUnpublished v }
{}

/// Each read of a legal log that answers tells what its block contained when the read began, whatever
/// others do meanwhile.
pub fn reads()
    ensures { (v : Volume) (h : List AnEvent) → IsLegalInRuns v h → AreReadsTrue h }
{}

/// Where nobody published the block meanwhile, it tells what the block contains.
pub fn read_undisturbed()
    ensures { (v : Volume) → IsReadUndisturbed v }
{}

/// Each write of a legal log that was acknowledged put its text into its block.
pub fn writes()
    ensures { (v : Volume) (h : List AnEvent) → IsLegalInRuns v h → AreWritesTrue h }
{}

/// In a legal log a call on names does to the names what it says, and its reply is that of the names before
/// it. An accepted publish raises the size of its file, and no other event changes the names.
pub fn names()
    ensures { (v : Volume) → AreNames v }
{}

/// Calls that only ask, refused calls, and what concerns nodes alone change nothing that users see.
pub fn still()
    ensures { (v : Volume) → StaysStill v }
{}

/// A put beside which nobody acts puts its text into its block and raises the size of its file where it is
/// acknowledged, and changes nothing else. Where it ends otherwise it changes nothing.
pub fn put_alone()
    ensures { (v : Volume) → IsPutAlone v }
{}

/// A get beside which nobody acts tells what its block contains, if it tells a text, and changes nothing.
pub fn get_alone()
    ensures { (v : Volume) → IsGetAlone v }
{}

/// A rebuild beside which nobody acts changes nothing that users see, however far it came.
pub fn rebuild_alone()
    ensures { (v : Volume) → IsRebuildAlone v }
{}

/// No event of a rebuild may change what users see.
pub fn rebuild_still()
    ensures { AreRebuildsStill }
{}

/// A node whose rebuild says that it left no block, and beside which nobody acted, holds the published record of
/// each block that it has to hold.
pub fn rebuild_whole()
    ensures { (v : Volume) → IsRebuildWhole v }
{
    rz_safety::complete();
    rz_safety::rebuilt();
}

/// A file whose last name went stays gone: its number is not given again, and no block of it is looked up,
/// begun, published or listed.
pub fn removed()
    ensures { (v : Volume) → StaysGone v }
{}

/// A put of a block's text with bytes patched in writes these bytes of its file. No other byte of the file
/// is changed, and no block of another file.
pub fn writes_patch()
    ensures { WritesPatch }
{}

/// Bytes that are written behind one another are written together.
pub fn writes_together()
    ensures { WritesTogether }
{}

/// What a block's text has from a place on are the bytes of its file, with zeros where the text ended.
pub fn reads_text()
    ensures { ReadsText }
{}

/// Bytes that are read behind one another are read together.
pub fn reads_together()
    ensures { ReadsTogether }
{}

/// An operation on a block has the one in hand to which its path led, or it answers why the path led to none.
pub fn leads_to_block()
    ensures { (v : Volume) → LeadsToBlock v }
{}

/// A put beside which nobody acts has changed nothing until it is acknowledged, and then its block alone and
/// the size of its file.
pub fn put_watched()
    ensures { (v : Volume) → IsPutWatched v }
{}

/// A get beside which nobody acts changes nothing, however far it came.
pub fn get_watched()
    ensures { (v : Volume) → IsGetWatched v }
{}

/// A call on names beside which nobody acts has changed nothing until it is replied to. Then the names are
/// those after the call, and nothing that comes of it later changes them.
pub fn calls_watched()
    ensures { (v : Volume) → IsCallWatched v }
{}

/// A put beside which nobody acts is denied for a block past the longest file's end or for want of numbers, and
/// nobody overtakes it.
pub fn puts_caused()
    ensures { (v : Volume) → ArePutsCaused v }
{}

/// A get beside which nobody acts is denied for a block past the longest file's end, and tells that too few nodes
/// gave their record where more of the published positions did not than can be spared.
pub fn gets_caused()
    ensures { (v : Volume) → AreGetsCaused v }
{}

/// The text of a block is no longer than a block, and ends where its file does or before.
pub fn covered()
    ensures { (v : Volume) → AreCovered v }
{}
