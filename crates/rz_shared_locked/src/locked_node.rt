//! A node under its lock.
ghost use Rattle.std.specs.Prelude.{◌≡◌, ◌+◌, ◌<◌, ◌≤◌, ◌^◌, [], ◌++◌, true, false, IsTrue, IsSome, IfSome, Some, None, drop};
ghost use Rattle.mj_angles.specs.Layout.{max_bins_of};
ghost use Rattle.rz_events.specs.declared.nodes.Phase.TheVariants as phases;
ghost use Rattle.rz_events.specs.declared.events.Word.TheVariants as w;
ghost use Rattle.rz_events.specs.declared.events.Event.TheVariants as e;
ghost use Rattle.rz_node_model.specs.NodeEvents as model;
ghost use Rattle.rz_node.specs.Calls.{Takes, IsUnread};
ghost use Rattle.rz_core.specs.History.{facts, of_word};
ghost use Rattle.rz_core.specs.NodeRows.{IsNodeOf};
ghost use Rattle.rz_core.specs.NodeWord.{last_fence, losses, phase};
ghost use Rattle.rz_node_laws.specs.Images.{geometry_in};
ghost use Rattle.rz_chronicle.specs.Keys.{count_at, word_key, IsLater};
ghost use Rattle.rz_chronicle.specs.Kinds.{IsFit, keeps_legal, volume_in};
ghost use Rattle.rz_chronicle.specs.Holds.{Commits, Stays};
ghost use Rattle.rz_chronicle.specs.Dealing.{new_word_token};
ghost use Rattle.rz_shared_locked.specs.Counts.{AreCountedSince};
ghost use Rattle.rz_shared_locked.specs.LockedNodes.{MayAsk, IsAskerRight, IsLogged, IsAwayByLog, Answered, AreImagesFrom, IsTrueRecord};

use crate::adding::add;
use crate::away::Away;
use crate::counting::{Counting, Metering, left_with};
use crate::occupant::{Occupant, arm_any, disk_of, serve_any};
use crate::waiting::{stalled, unanswered};
use rz_chronicle::{Book, Pass, WordToken};
use rz_disk::Disk;
use rz_events::{Actor, Event, NodeAnswer, NodeAsk, Phase};
use rz_node::{Node, node_event};
use std::alloc::Global;
use std::marker::Model;
use std::sync::Wait;

/// A node under its lock, on its disk or without it, with the token of its word.
#[derive(Drop)]
pub struct LockedNode<D: Disk, J: Metering> {
    pub(crate) alloc: Global,
    pub(crate) sid: u16,
    pub(crate) who: Occupant<D>,
    /// How the next crash of the disk picks.
    pub(crate) pick: u64,
    /// The passes that the node's events leave its fuse, where it is armed.
    pub(crate) left: Option<u64>,
    pub(crate) word_token: WordToken<J>,
}

impl<D: Disk, J: Metering> Model for LockedNode<D, J> {
    ghost use Rattle.std.specs.Prelude.{◌≡◌, ◌++◌, IsTrue};
    ghost use Rattle.rz_events.specs.declared.events.Word.TheVariants as w;
    ghost use Rattle.rz_core.specs.History.{of_word};
    ghost use Rattle.rz_core.specs.NodeRows.{IsNodeOf};
    ghost use Rattle.rz_play.specs.Faults.{fuse_of};
    ghost use Rattle.rz_chronicle.specs.Kinds.{volume_in};
    ghost use Rattle.rz_node_laws.specs.Images.{geometry_in};
    ghost use Rattle.rz_shared_locked.specs.Picks.{pick_of};
    ghost use Rattle.rz_shared_locked.specs.LockedNodes.{LockedNodeView};
    ghost use Rattle.rz_shared_locked.specs.Occupants.{CountsHere, IsBehindLock, IsLaidOut};

    ghost Value = { LockedNodeView };

    ghost view = { λ s. record { node = s.sid; log = s.word_token.log } };

    ghost invariant = { λ s. (s.word_token.word ≡ w.Node s.sid) × IsNodeOf (volume_in J.kind) s.sid
        × IsLaidOut (geometry_in (volume_in J.kind) s.sid) s.who
        × IsBehindLock D.tells D.image J.kind (s.word_token.log ++ J.earlier) s.sid s.who
        × IsTrue D.has_fuse
        × (s.left ≡ fuse_of (of_word (w.Node s.sid) s.word_token.log))
        × (IsTrue J.fixed → CountsHere D.meter (J.first s.sid) (of_word (w.Node s.sid) s.word_token.log) s.who)
        × (s.pick ≡ pick_of (of_word (w.Node s.sid) s.word_token.log)) };
}

impl<D: Disk, J: Metering> LockedNode<D, J> {
    /// The locked node of a node that was opened on a disk, or formatted, and is not armed. Its word has no
    /// event yet in this run. In a book that keeps its log legal the node is the one that the earlier log gives,
    /// and the disk tells what it holds.
    pub fn opened(
        alloc: Global,
        sid: u16,
        node: Node<D>,
        word_token: WordToken<J>,
    ) -> LockedNode<D, J>
        requires word_token { word_token ≡ new_word_token (w.Node sid) }
        requires of_volume { IsNodeOf (volume_in J.kind) sid }
        requires geometry { node.geometry ≡ geometry_in (volume_in J.kind) sid }
        requires logged { IsTrue (keeps_legal J.kind) → IsTrue D.tells × IsLogged D.image (volume_in J.kind) J.earlier sid node }
        requires fuse { IsTrue D.has_fuse }
        requires unarmed { (D.meter node.disk).fuse ≡ None }
        requires count { J.first sid ≤ (D.meter node.disk).own }
        ensures { result ≡ record { node = sid; log = [] } }
    {
        LockedNode {
            alloc,
            sid,
            who: Occupant::Here(node),
            pick: 0,
            left: None,
            word_token,
        }
    }

    /// The locked node of one that is down, since its disk is away, in a book over disks that may be away.
    /// In a book that keeps its log legal it is down after the earlier log, and that log gives its fence and
    /// how many disks it lost.
    pub fn away(
        alloc: Global,
        sid: u16,
        fence: u64,
        losses: u64,
        word_token: WordToken<J>,
    ) -> LockedNode<D, J>
        requires word_token { word_token ≡ new_word_token (w.Node sid) }
        requires of_volume { IsNodeOf (volume_in J.kind) sid }
        requires free { J.fixed ≡ false }
        requires logged { IsTrue (keeps_legal J.kind) → IsTrue D.tells × IsAwayByLog J.earlier sid fence losses }
        requires fuse { IsTrue D.has_fuse }
        ensures { result ≡ record { node = sid; log = [] } }
    {
        rz_core::states();
        LockedNode {
            alloc,
            sid,
            who: Occupant::Away(Away {
                phase: Phase::Down,
                fence,
                losses,
            }),
            pick: 0,
            left: None,
            word_token,
        }
    }

    /// Its node's number.
    pub fn number(&self) -> u16
        ensures { result ≡ self.now.node }
    {
        self.sid
    }

    /// The disk, if it is here, and the token of the node's word. In a book that keeps its log legal each
    /// image of the disk is one that the word gives, in each later log too that has no further event of it.
    /// The disk of a node that is up is here. Where each node has its one disk all the time, the disk is here,
    /// and counted the faults of the word.
    pub fn close_after(self) -> (Option<D>, WordToken<J>)
        ensures word_token { result.1 ≡ record { word = w.Node self.node; log = self.log } }
        ensures of_volume { IsNodeOf (volume_in J.kind) self.node }
        ensures images { IsTrue (keeps_legal J.kind) → IfSome result.0 (λ d. AreImagesFrom (volume_in J.kind) J.earlier self.log self.node (D.image d)) }
        ensures counted { IsTrue J.fixed → IfSome result.0 (λ d. AreCountedSince (J.first self.node) (D.meter d).own (of_word (w.Node self.node) self.log)) }
        ensures here { IsTrue J.fixed → IsSome result.0 }
        ensures up { IsTrue (keeps_legal J.kind) → phase (of_word (w.Node self.node) (self.log ++ J.earlier)) ≡ phases.Up → IsSome result.0 }
    {
        crate::laws::locked_node_kept();
        rz_node_laws::longer::<D>();
        rz_node_laws::logged::<D>();
        rz_node_laws::counted();
        rz_chronicle::one_rule();
        let _fit = self.word_token.room();
        let LockedNode {
            who,
            word_token,
            ..
        } = self;
        (disk_of(who), word_token)
    }

    /// Calls the node, and adds the event of its answer to the log. It does not return where this is
    /// another node, or where its word cannot move.
    pub fn call<R: Wait>(
        &mut self,
        rt: &R,
        book: &Book<J>,
        pass: &mut Pass<J>,
        node: u16,
        ask: &NodeAsk,
        bins: &mut [u64],
    ) -> NodeAnswer
        requires takes { Takes (volume_in J.kind).layout ask.now bins.old }
        requires actor { IsAskerRight pass.old.actor ask.now }
        requires may { IsTrue (keeps_legal J.kind) → MayAsk (volume_in J.kind) (pass.old.log ++ J.earlier) pass.old.actor node ask.now bins.old }
        ensures locked_node { self.new.node ≡ self.old.node }
        ensures same { (pass.new.actor ≡ pass.old.actor) × (pass.new.keys ≡ pass.old.keys) }
        ensures answered { Answered J.kind J.earlier node ask.now result (model.node_event pass.old.actor node ask.now result) pass.old.keys pass.old.log pass.new.log }
        ensures read { IsTrue (keeps_legal J.kind) → IsTrueRecord (volume_in J.kind) (facts (pass.new.log ++ J.earlier)) node ask.now result bins.old bins.new }

        // The caller's bins are written where a record was read, and not behind the most bins that one has.
        ensures unread { IsUnread result → bins.new ≡ bins.old }
        ensures rest { drop (max_bins_of (volume_in J.kind).layout) bins.new ≡ drop (max_bins_of (volume_in J.kind).layout) bins.old }

        ensures fit { IsFit J.kind pass.new.log }
    {
        crate::laws::asker_kept();
        rz_chronicle::one_rule();
        let _by = pass.actor();
        if !self.enter(book, pass, node) {
            return stalled(rt);
        }
        self.answered(book, pass, ask, bins)
    }

    /// Arms the fuse of the node's disk with `passes`, keeps how its next crash picks, and adds that to
    /// the log. It does not return where this is another node, or where its word cannot move.
    pub fn arm<R: Wait>(
        &mut self,
        rt: &R,
        book: &Book<J>,
        pass: &mut Pass<J>,
        node: u16,
        passes: u64,
        pick: u64,
    )
        requires actor { pass.old.actor ≡ Actor.Admin }
        ensures locked_node { self.new.node ≡ self.old.node }
        ensures same { (pass.new.actor ≡ pass.old.actor) × (pass.new.keys ≡ pass.old.keys) }
        ensures commits { Commits pass.old.keys pass.old.log (e.Armed node passes pick) pass.new.log }
        ensures fit { IsFit J.kind pass.new.log }
    {
        if !self.enter(book, pass, node) {
            return unanswered(rt);
        }
        self.armed(book, pass, passes, pick)
    }

    // Lets the pass and the locked node see one log. It answers whether this is the node and its word can move.
    pub(crate) fn enter(&mut self, book: &Book<J>, pass: &mut Pass<J>, node: u16) -> bool
        ensures locked_node { self.new.node ≡ self.old.node }
        ensures same { (pass.new.actor ≡ pass.old.actor) × (pass.new.keys ≡ pass.old.keys) }
        ensures one { self.new.log ≡ pass.new.log }
        ensures later { IsLater pass.old.log pass.new.log }
        ensures stays { Stays pass.old.keys pass.old.log pass.new.log }
        ensures node { IsTrue result → self.new.node ≡ node }
        ensures room { IsTrue result → count_at (word_key (w.Node self.new.node)) self.new.log + 1 < 2 ^ 62 }
        ensures enters { self.new.node ≡ node → count_at (word_key (w.Node self.new.node)) self.new.log + 1 < 2 ^ 62 → IsTrue result }
        ensures fit { IsFit J.kind pass.new.log }
    {
        crate::laws::locked_node_kept();
        rz_node_laws::longer::<D>();
        rz_chronicle::words_kept();
        rz_chronicle::one_rule();
        let _fit = self.word_token.room();
        book.enter(pass, &mut self.word_token);
        self.sid == node && self.word_token.has_room_after()
    }

    // The call where its pass and the locked node have entered, and the word can move.
    fn answered(
        &mut self,
        book: &Book<J>,
        pass: &mut Pass<J>,
        ask: &NodeAsk,
        bins: &mut [u64],
    ) -> NodeAnswer
        requires one { self.old.log ≡ pass.old.log }
        requires room { count_at (word_key (w.Node self.old.node)) self.old.log + 1 < 2 ^ 62 }
        requires takes { Takes (volume_in J.kind).layout ask.now bins.old }
        requires actor { IsAskerRight pass.old.actor ask.now }
        requires may { IsTrue (keeps_legal J.kind) → MayAsk (volume_in J.kind) (pass.old.log ++ J.earlier) pass.old.actor self.old.node ask.now bins.old }
        ensures locked_node { self.new.node ≡ self.old.node }
        ensures same { (pass.new.actor ≡ pass.old.actor) × (pass.new.keys ≡ pass.old.keys) }
        ensures answered { Answered J.kind J.earlier self.old.node ask.now result (model.node_event pass.old.actor self.old.node ask.now result) pass.old.keys pass.old.log pass.new.log }
        ensures read { IsTrue (keeps_legal J.kind) → IsTrueRecord (volume_in J.kind) (facts (pass.new.log ++ J.earlier)) self.old.node ask.now result bins.old bins.new }
        ensures unread { IsUnread result → bins.new ≡ bins.old }
        ensures rest { drop (max_bins_of (volume_in J.kind).layout) bins.new ≡ drop (max_bins_of (volume_in J.kind).layout) bins.old }
        ensures fit { IsFit J.kind pass.new.log }
    {
        crate::laws::locked_node_kept();
        crate::laws::read_kept();
        crate::laws::answers();
        rz_node_laws::longer::<D>();
        let by = pass.actor();
        rz_chronicle::words_kept();
        rz_chronicle::one_rule();
        rz_chronicle::roomy();
        let answer = serve_any(
            self.alloc,
            &self.word_token,
            self.sid,
            self.pick,
            self.left,
            &mut self.who,
            ask,
            bins,
        );
        let event = node_event(by, self.sid, ask, &answer);
        self.left = left_with(self.left, &event);
        add(book, pass, &mut self.word_token, event);
        answer
    }

    // The arming where its pass and the locked node have entered, and the word can move.
    fn armed(&mut self, book: &Book<J>, pass: &mut Pass<J>, passes: u64, pick: u64)
        requires one { self.old.log ≡ pass.old.log }
        requires room { count_at (word_key (w.Node self.old.node)) self.old.log + 1 < 2 ^ 62 }
        requires actor { pass.old.actor ≡ Actor.Admin }
        ensures locked_node { self.new.node ≡ self.old.node }
        ensures same { (pass.new.actor ≡ pass.old.actor) × (pass.new.keys ≡ pass.old.keys) }
        ensures commits { Commits pass.old.keys pass.old.log (e.Armed self.old.node passes pick) pass.new.log }
        ensures fit { IsFit J.kind pass.new.log }
    {
        crate::laws::arming();
        rz_node_laws::longer::<D>();
        rz_chronicle::words_kept();
        rz_chronicle::one_rule();
        rz_chronicle::roomy();
        let _by = pass.actor();
        arm_any(&self.word_token, self.sid, &mut self.who, passes);
        self.pick = pick;
        self.left = Some(passes);
        let event = Event::Armed {
            node: self.sid,
            k: passes,
            pick,
        };
        add(book, pass, &mut self.word_token, Some(event));
    }
}

impl<D: Disk, J: Counting> LockedNode<D, J> {
    /// The disk, and the token of the node's word, of which the disk counted the faults. In a book that
    /// keeps its log legal each image of the disk is one that the word gives, in each later log too that has no
    /// further event of it.
    pub fn close(self) -> (D, WordToken<J>)
        ensures word_token { result.1 ≡ record { word = w.Node self.node; log = self.log } }
        ensures of_volume { IsNodeOf (volume_in J.kind) self.node }
        ensures images { IsTrue (keeps_legal J.kind) → AreImagesFrom (volume_in J.kind) J.earlier self.log self.node (D.image result.0) }
        ensures counted { AreCountedSince (J.first self.node) (D.meter result.0).own (of_word (w.Node self.node) self.log) }
    {
        let (disk, word_token) = self.close_after();
        let Some(disk) = disk else { unreachable!() };
        (disk, word_token)
    }
}
