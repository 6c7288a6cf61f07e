//! Who plays, and what they have before there are nodes.
ghost use Rattle.std.specs.Prelude.{◌≡◌, IfErr, IfOk, length, map};
ghost use Rattle.std.specs.List.{AllZip};
ghost use Rattle.rz_events.specs.declared.keys.Actor.TheVariants as a;
ghost use Rattle.rz_events.specs.declared.events.Word.TheVariants as w;
ghost use Rattle.rz_play.specs.World.{actors};
ghost use Rattle.rz_chronicle.specs.Dealing.{new_pass, new_word_token};
ghost use Rattle.rz_chronicle.specs.Keys.{sids_of};
ghost use Rattle.rz_chronicle.specs.Kinds.{HasEarlierLog, volume_in};
ghost use Rattle.rz_threads_workers.specs.WorkerPool.{link_of, IsPoolWorker};

use rz_chronicle::{Book, Crew, Desk, NewBook, Pass};
use rz_config::Volume;
use rz_link::Link;
use rz_script::Script;
use rz_shared::Counting;
use rz_threads_workers::{Results, WorkerPool, make_pool, passes_in_order, take_results};
use std::alloc::{AllocError, Global};

/// The book under its name, the pass of the administrator, the tokens of the cluster's words, and the passes
/// of those who work. The volume is there twice, for the cluster and for those who work.
#[derive(Drop)]
struct NamedBook<J: Counting> {
    book: Book<J>,
    admin: Pass<J>,
    desk: Desk<J>,
    passes: Vec<Pass<J>>,
    volume: Volume,
    known: Volume,
}

/// Names the book, and takes all memory that the play wants beside that of its pool and of its cluster.
fn name_book<J: Counting>(
    alloc: Global,
    opened: NewBook,
    volume: &Volume,
) -> Result<NamedBook<J>, AllocError>
    requires named { (opened.seen.book ≡ J.book) × (opened.tokens.counters ≡ J.counters) × (opened.tokens.copy ≡ J.copy) × (opened.tokens.kind ≡ J.kind) }
    requires earlier { HasEarlierLog J.kind J.earlier }
    ensures book { IfOk result (λ c. c.book ≡ volume_in J.kind) }
    ensures admin { IfOk result (λ c. c.admin ≡ new_pass a.Admin) }
    ensures export { IfOk result (λ c. c.desk.export ≡ new_word_token w.Export) }
    ensures nodes { IfOk result (λ c. c.desk.nodes.items ≡ map (λ n. new_word_token (w.Node n)) (sids_of (volume_in J.kind))) }
    ensures passes { IfOk result (λ c. c.passes.items ≡ map new_pass actors) }
    ensures volume { IfOk result (λ c. c.volume ≡ volume.now) }
    ensures known { IfOk result (λ c. c.known ≡ volume.now) }
{
    let (book, crew) = opened.named::<J>(alloc)?;
    let Crew {
        admin,
        clients,
        rebuilders,
        desk,
    } = crew;
    let passes = passes_in_order(clients, rebuilders)?;
    Ok(NamedBook {
        book,
        admin,
        desk,
        passes,
        volume: volume.copy(alloc)?,
        known: volume.copy(alloc)?,
    })
}

/// The book of a play, the administrator's pass, the tokens of the cluster's words, and the pool. The volume
/// is there twice, for the cluster and for the pool.
#[derive(Drop)]
pub(crate) struct Setup<J: Counting, L: Link> {
    pub(crate) book: Book<J>,
    pub(crate) admin: Pass<J>,
    pub(crate) desk: Desk<J>,
    pub(crate) pool: WorkerPool<J, L>,
    pub(crate) volume: Volume,
    pub(crate) known: Volume,
}

/// Makes a worker of each client and each rebuilder of a script, with these links. Where memory is wanting
/// the links come back.
pub(crate) fn set_up<J: Counting, L: Link>(
    alloc: Global,
    opened: NewBook,
    script: &Script,
    links: Vec<L>,
) -> Result<Setup<J, L>, Vec<L>>
    requires named { (opened.seen.book ≡ J.book) × (opened.tokens.counters ≡ J.counters) × (opened.tokens.copy ≡ J.copy) × (opened.tokens.kind ≡ J.kind) }
    requires earlier { HasEarlierLog J.kind J.earlier }
    requires volume { script.now.volume ≡ volume_in J.kind }
    requires links { length links.items ≡ 80 }
    ensures book { IfOk result (λ c. c.book ≡ volume_in J.kind) }
    ensures admin { IfOk result (λ c. c.admin ≡ new_pass a.Admin) }
    ensures export { IfOk result (λ c. c.desk.export ≡ new_word_token w.Export) }
    ensures nodes { IfOk result (λ c. c.desk.nodes.items ≡ map (λ n. new_word_token (w.Node n)) (sids_of (volume_in J.kind))) }
    ensures staffed { IfOk result (λ c. AllZip (IsPoolWorker J.kind script.now.lines) (map new_pass actors) c.pool.workers.items) }
    ensures links { IfOk result (λ c. map link_of c.pool.workers.items ≡ links.items) }
    ensures volume { IfOk result (λ c. c.volume ≡ script.now.volume) }
    ensures known { IfOk result (λ c. c.known ≡ script.now.volume) }
    ensures back { IfErr result (λ back. back ≡ links) }
{
    match name_book::<J>(alloc, opened, script.volume()) {
        Ok(named) => {
            let NamedBook {
                book,
                admin,
                desk,
                passes,
                volume,
                known,
            } = named;
            match make_pool(alloc, known.layout, passes, links, script.lines()) {
                Ok(pool) => Ok(Setup {
                    book,
                    admin,
                    desk,
                    pool,
                    volume,
                    known,
                }),
                Err(back) => Err(back),
            }
        }
        Err(_) => Err(links),
    }
}

/// The links of a pool that does not come to work.
pub(crate) fn links_of<J: Counting, L: Link>(pool: WorkerPool<J, L>) -> Vec<L>
    ensures { result.items ≡ map link_of pool.workers.items }
{
    let WorkerPool { workers, room } = pool;
    let Results {
        links,
        passes: _passes,
        shown: _shown,
    } = take_results(workers, room);
    links
}
