//! A store in hand.

use rz_disk::Disk;
use rz_shared::Metering;
use rz_store_turns::Sole;
use std::marker::Model;

/// A store in hand: nobody else acts on it.
#[derive(Drop)]
pub struct Store<D: Disk, J: Metering> {
    pub(crate) sole: Sole<D, J>,
}

impl<D: Disk, J: Metering> Model for Store<D, J> {
    ghost use Rattle.std.specs.Prelude.{◌++◌};
    ghost use Rattle.rz_chronicle.specs.Kinds.{volume_in};
    ghost use Rattle.rz_store.specs.Store.{StoreView};

    ghost Value = { StoreView };

    ghost view = { λ s. record { volume = volume_in J.kind; log = s.sole.pass.log ++ J.earlier } };
}
