//! The name of the book of a run, which is known once the book is there.

use rz_chronicle::Naming;
use rz_shared::{Counting, Metering};
use std::marker::{Brand, PhantomData};

/// What the name of a new book says: of the book itself, and of the faults that the disk of each node had
/// counted when its node was put under its lock. A call may pick all of it.
pub(crate) trait Named {
    ghost use Rattle.std.specs.Prelude.{ℕ, List};
    ghost use Rattle.logbook.specs.Pages.{Book};

    ghost book: { Book };

    ghost counters: { ℕ };

    ghost copy: { ℕ };

    ghost kind: { List ℕ };

    ghost first: { ℕ → ℕ };
}

impl Named for Brand {
    ghost use Rattle.std.specs.Prelude.{[]};

    ghost book = { record { number = 0; log_name = 0; cells_name = 0 } };

    ghost counters = { 0 };

    ghost copy = { 0 };

    ghost kind = { [] };

    ghost first = { λ n. 0 };
}

/// The name of a book that begins anew.
pub(crate) struct NewName<K: Named> {
    of: PhantomData<K>,
}

impl<K: Named> Naming for NewName<K> {
    ghost use Rattle.std.specs.Prelude.{[]};

    ghost book = { K.book };

    ghost counters = { K.counters };

    ghost copy = { K.copy };

    ghost kind = { K.kind };

    ghost earlier = { [] };
}

impl<K: Named> Metering for NewName<K> {
    ghost use Rattle.std.specs.Prelude.{true, None};

    ghost first = { K.first };

    ghost journal = { None };

    ghost fixed = { true };
}

impl<K: Named> Counting for NewName<K> {
    ghost use Rattle.std.specs.Prelude.{refl};

    ghost anew = { refl };

    ghost unkept = { refl };

    ghost whole = { refl };
}
