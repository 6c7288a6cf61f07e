//! A running exclusive or of two lists.

ghost use Rattle.std.specs.Prelude.{◌≡◌, ◌≤◌, ◌<◌, ◌+◌, ◌-◌, ℕ, length, slice_index, bit_xor};

/// Writes into `row`, from place `from` on, the exclusive or of a word of `a`, of a word of `b`, and of the word of `row` that
/// stands `step` places before.
pub fn run(a: &[u64], b: &[u64], row: &mut [u64], from: usize, step: usize)
    requires same { length b.now ≡ length a.now }
    requires some { 0 < step }
    requires before { step ≤ from }
    requires room { from + length a.now ≤ length row.old }
    ensures sums { (k : ℕ) → k < length a.now →
        slice_index row.new (from + k) ≡ bit_xor (bit_xor (slice_index a.now k) (slice_index b.now k)) (slice_index row.new (from + k - step)) }
    ensures below { (k : ℕ) → k < from → slice_index row.new k ≡ slice_index row.old k }
    ensures above { (k : ℕ) → from + length a.now ≤ k → slice_index row.new k ≡ slice_index row.old k }
{
    match step {
        1 => run_by::<1>(a, b, row, from),
        2 => run_by::<2>(a, b, row, from),
        3 => run_by::<3>(a, b, row, from),
        _ => run_on(a, b, row, from, step, 0),
    }
}

/// `run` by `N` places. The last `N` words are kept apart, so that none is read again.
fn run_by<const N: usize>(a: &[u64], b: &[u64], row: &mut [u64], from: usize)
    requires same { length b.now ≡ length a.now }
    requires some { 0 < N }
    requires before { N ≤ from }
    requires room { from + length a.now ≤ length row.old }
    ensures sums { (k : ℕ) → k < length a.now →
        slice_index row.new (from + k) ≡ bit_xor (bit_xor (slice_index a.now k) (slice_index b.now k)) (slice_index row.new (from + k - N)) }
    ensures below { (k : ℕ) → k < from → slice_index row.new k ≡ slice_index row.old k }
    ensures above { (k : ℕ) → from + length a.now ≤ k → slice_index row.new k ≡ slice_index row.old k }
{
    let mut last = [0u64; N];
    copy_words(row, from - N, N, &mut last, 0);
    let mut at = 0;
    'groups: while a.len() - at >= N {
        for j in 0..N {
            let sum = a[at + j] ^ b[at + j] ^ last[j];
            last[j] = sum;
            row[from + at + j] = sum;
        }
        at += N;
    }
    run_on(a, b, row, from, N, at);
}

/// `run` from word `at` on, where the words before it are written.
fn run_on(a: &[u64], b: &[u64], row: &mut [u64], from: usize, step: usize, at: usize)
    requires same { length b.now ≡ length a.now }
    requires some { 0 < step }
    requires before { step ≤ from }
    requires room { from + length a.now ≤ length row.old }
    requires within { at ≤ length a.now }
    requires sums { (k : ℕ) → k < at →
        slice_index row.old (from + k) ≡ bit_xor (bit_xor (slice_index a.now k) (slice_index b.now k)) (slice_index row.old (from + k - step)) }
    ensures sums { (k : ℕ) → k < length a.now →
        slice_index row.new (from + k) ≡ bit_xor (bit_xor (slice_index a.now k) (slice_index b.now k)) (slice_index row.new (from + k - step)) }
    ensures below { (k : ℕ) → k < from → slice_index row.new k ≡ slice_index row.old k }
    ensures above { (k : ℕ) → from + length a.now ≤ k → slice_index row.new k ≡ slice_index row.old k }
{
    for n in at..a.len() {
        row[from + n] = a[n] ^ b[n] ^ row[from + n - step];
    }
}

/// Copies `n` words from place `from` on to place `to` and on.
pub fn copy_words(words: &[u64], from: usize, n: usize, out: &mut [u64], to: usize)
    requires from { from + n ≤ length words.now }
    requires to { to + n ≤ length out.old }
    ensures inside { (k : ℕ) → k < n → slice_index out.new (to + k) ≡ slice_index words.now (from + k) }
    ensures below { (k : ℕ) → k < to → slice_index out.new k ≡ slice_index out.old k }
    ensures above { (k : ℕ) → to + n ≤ k → slice_index out.new k ≡ slice_index out.old k }
{
    out[to..to + n].copy_from_slice(&words[from..from + n]);
}
