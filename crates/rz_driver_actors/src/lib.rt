//! The actors of a play, each with its agenda, and what one does in its turn.
//!
//! An [`Agenda`] has what its actor has still to do and the machine of what it is at; [`Shared`] is what all
//! actors share: the nodes, the export, the locks and the log. [`Agenda::begin_next`] takes up the next operation,
//! and [`act`] does what the operation in hand asks next: it asks the export, asks for a lock, sends a message
//! to a node or says a word. Its contract says what becomes of the actor and of what all share (`IsAct`), that
//! the log stays as it was where memory is wanting or the journal does not keep a call, and that the faults of
//! each node's word are counted by its disk; over disks that tell their texts also what each image of each
//! disk stands for by the log. It does not say that there is memory, nor that the turn is one of a play: of
//! the actor alone it says nothing but what its machine asked and was told.
//!
//! In reading order: `actor_agenda`, `shared`, `turn_acts`.
#![tactic(auto)]

mod actor_agenda;
mod shared;
mod turn_acts;

pub use actor_agenda::Agenda;
pub use shared::Shared;
pub use turn_acts::act;
