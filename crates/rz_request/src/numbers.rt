//! The numbers of the line.

ghost use Rattle.std.specs.Prelude.{◌≡◌, ◌≤◌, IfSome};
ghost use Rattle.rz_request.specs.Line.{number_in};

use rz_script::read_number;

/// A number from `low` to `high`.
pub fn read_number_in(word: &str, low: u64, high: u64) -> Option<u64>
    ensures value { result ≡ number_in low high word.now }
    ensures low { IfSome result (λ n. low ≤ n) }
    ensures high { IfSome result (λ n. n ≤ high) }
{
    let n = read_number(word)?;
    if n < low || high < n {
        return None;
    }
    Some(n)
}
