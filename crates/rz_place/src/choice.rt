//! The cluster with the most free cells.

ghost use Rattle.std.specs.Prelude.{◌≡◌, ◌≤◌, ◌+◌, ℕ, length, drop, sum, All};
ghost use Rattle.rz_export_model.specs.Place.{is_better, free_cells, best_of, clusters_of};
ghost use Rattle.rz_events.specs.Volume.{nodes_of};
ghost use Rattle.rz_place.specs.Candidates.{IsTold, rooms_of};
ghost use Rattle.rz_place.specs.Rooms.{rooms_in};

use rz_config::ClusterSpec;

/// The sum of a few numbers.
fn sum_of(numbers: &[u64]) -> u128
    requires { length numbers.now ≤ 64 }
    ensures { result ≡ sum numbers.now }
{
    let mut total = 0u128;
    for number in numbers {
        total += u128::from(*number);
    }
    total
}

/// A cluster, with the free cells of its nodes and of those after them.
#[derive(Clone, Copy)]
pub struct Candidate<'a, 'b> {
    pub cluster: &'a ClusterSpec,
    pub free: &'b [u64],
}

/// All free cells of a cluster.
#[tactic(auto, using(crate::proofs::Placing::rooms_sum))]
fn free_cells(candidate: Candidate<'_, '_>) -> u128
    requires { IsTold candidate }
    ensures { result ≡ free_cells (rooms_of candidate.entry) }
{
    let Candidate { cluster, free } = candidate;
    sum_of(&free[..cluster.nodes.len()])
}

/// The free cells of the nodes after those of a cluster.
fn after<'a>(free: &'a [u64], cluster: &ClusterSpec) -> &'a [u64]
    requires { length cluster.now.nodes ≤ length free.now }
    ensures { result.now ≡ drop (length cluster.now.nodes) free.now }
{
    &free[cluster.nodes.len()..]
}

/// The number of a cluster.
fn number_of(candidate: Candidate<'_, '_>) -> u16
    ensures { result ≡ (rooms_of candidate.entry).cid }
{
    let cluster = candidate.cluster;
    cluster.cid
}

/// Whether one candidate is better than another.
fn is_better(a: Candidate<'_, '_>, b: Candidate<'_, '_>) -> bool
    requires a { IsTold a }
    requires b { IsTold b }
    ensures { result ≡ is_better (rooms_of a.entry) (rooms_of b.entry) }
{
    let x = free_cells(a);
    let y = free_cells(b);
    y < x || (x == y && number_of(a) < number_of(b))
}

/// The best of a cluster and some more. `free` has the free cells of their nodes in order.
pub fn best_of<'a, 'b>(
    first: &'a ClusterSpec,
    others: &'a [ClusterSpec],
    free: &'b [u64],
) -> Candidate<'a, 'b>
    requires few { length first.now.nodes ≤ 64 }
    requires few_each { All (λ c. length c.nodes ≤ 64) others.now }
    requires told { length first.now.nodes + length (nodes_of others.now) ≤ length free.now }
    ensures best { rooms_of result ≡ best_of (rooms_in first.now free.now) (clusters_of others.now (drop (length first.now.nodes) free.now)) }
    ensures told { IsTold result }
    ensures least { (n : ℕ) → n ≤ length first.now.nodes → All (λ c. n ≤ length c.nodes) others.now → n ≤ length result.cluster.now.nodes }
{
    let mut best = Candidate {
        cluster: first,
        free,
    };
    let mut rest = after(free, first);
    for cluster in others {
        let next = Candidate {
            cluster,
            free: rest,
        };
        if is_better(next, best) {
            best = next;
        }
        rest = after(rest, cluster);
    }
    best
}
