//! The passes of many actors are gathered into one, which then has seen what each of them has.
ghost use Rattle.std.specs.Prelude.{◌≡◌, ◌++◌};
ghost use Rattle.std.specs.List.{AllByRecursion};
ghost use Rattle.rz_chronicle.specs.Kinds.{IsFit};
ghost use Rattle.rz_threads_workers.specs.Gathered.{PassGoesOn, HoldsPass};

use rz_chronicle::{Book, Naming, Pass};

/// Gathers a pass. The front holds the tokens of its actor afterwards.
fn gather_one<J: Naming>(book: &Book<J>, front: &mut Pass<J>, other: Pass<J>)
    ensures goes { PassGoesOn front.old front.new }
    ensures held { HoldsPass front.new other }
    ensures fit { IsFit J.kind front.new.log }
{
    rz_chronicle::actors_kept();
    let _own = other.actor();
    book.gather(front, other);
}

/// Gathers the passes. In the log that the front has then seen, the events of each of their actors are
/// those that its pass had, each once.
pub fn gather_all<J: Naming>(book: &Book<J>, front: &mut Pass<J>, passes: Vec<Pass<J>>)
    ensures goes { PassGoesOn front.old front.new }
    ensures held { AllByRecursion (HoldsPass front.new) passes.items }
    ensures fit { IsFit J.kind front.new.log }
{
    let _fit = front.actor();
    for pass in passes {
        gather_one(book, front, pass);
    }
}
