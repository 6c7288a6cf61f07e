//! The number that a word says.

ghost use Rattle.std.specs.Prelude.{◌≡◌};
ghost use Rattle.rz_script_words.specs.Numerals.{numeral};

/// The number that a word of decimal digits says, where a `u64` holds it.
pub fn read_number(word: &str) -> Option<u64>
    ensures { result ≡ numeral word.now }
{
    if word.starts_with('+') {
        return None;
    }
    match word.parse::<u64>() {
        Ok(n) => Some(n),
        Err(_) => None,
    }
}
