//! Replacing a lost disk.
ghost use Rattle.std.specs.Prelude.{◌≡◌, ◌≢◌, ◌⊎◌, ℕ, List, IsTrue};
ghost use Rattle.rz_disk.specs.Images.{Only};
ghost use Rattle.rz_cells_slots.specs.Held.{nothing};
ghost use Rattle.rz_cells_slots.specs.Stands.{IsShut, StandsFor};
ghost use Rattle.rz_node_model.specs.Afterwards.{after_answer};
ghost use Rattle.rz_node_model.specs.Answers.{IsNodeAnswer};
ghost use Rattle.rz_node.specs.Opens.{Replaces, IsRefused};

use crate::Node;
use rz_cells::FormatFault;
use rz_disk::Disk;
use rz_events::{NodeAnswer, NodeAsk, Phase, ReplaceAnswer};
use rz_index::Index;
use std::alloc::Global;

impl<D: Disk> Node<D> {
    /// Makes the disk of a lost node anew, with a fence, for the loss that is the node's last.
    ///
    /// Want of memory may come before the disk is reset or from its reset.
    pub fn replace(&mut self, alloc: Global, loss: u64, fence: u64) -> ReplaceAnswer
        ensures answer { IsNodeAnswer self.old.geometry.cells self.old.state (NodeAsk.Replace loss fence) (NodeAnswer.Replace result) }
        ensures after { self.new.state ≡ after_answer (NodeAsk.Replace loss fence) (NodeAnswer.Replace result) self.old.state }
        ensures refused { IsRefused result → self.new ≡ self.old }
        ensures nothing { result ≡ ReplaceAnswer.Replaced → IsTrue D.tells → StandsFor self.old.geometry fence (D.text self.new.disk) nothing }
        ensures settled { result ≡ ReplaceAnswer.Replaced → Only (D.text self.new.disk) (D.image self.new.disk) }

        // Otherwise each image is one from before, or its header is shut, or it stands for nothing with the new fence.
        ensures crash { result ≢ ReplaceAnswer.Replaced → IsTrue D.tells → (c : List ℕ) → D.image self.new.disk c
            → D.image self.old.disk c ⊎ IsShut c ⊎ StandsFor self.old.geometry fence c nothing }
        ensures geometry { self.new.geometry ≡ self.old.geometry }
        ensures spends { Replaces result (D.meter self.old.disk) (D.meter self.new.disk) }
    {
        match self.phase {
            Phase::Up | Phase::Down => return ReplaceAnswer::NotLost,
            Phase::Lost => {}
        }
        if loss != self.losses {
            return ReplaceAnswer::OtherLoss { loss: self.losses };
        }
        let Ok(index) = Index::with_room(alloc, self.cells.geometry().cells) else {
            return ReplaceAnswer::NoMemory;
        };
        match self.cells.format_again(alloc, fence) {
            Ok(()) => {
                self.phase = Phase::Up;
                self.undecided = None;
                self.index = index;
                ReplaceAnswer::Replaced
            }
            Err(FormatFault::NoMemory) => ReplaceAnswer::NoMemory,
            Err(FormatFault::DiskFault) => ReplaceAnswer::DiskFault,
        }
    }
}
