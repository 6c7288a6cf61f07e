//! The printed lines of clients.
use crate::told::{End, Write};

/// How many letters of a word are among these.
fn letters(word: &str, among: &[u8]) -> u64 {
    let mut count = 0u64;
    for letter in word.bytes() {
        if among.contains(&letter) {
            count = count.saturating_add(1);
        }
    }
    count
}

/// A number in digits.
fn number(word: &str) -> Option<u64> {
    word.parse::<u64>().ok()
}

/// The write whose text this is: its client and its number, of two digits each.
fn write_of(shown: &str) -> Option<Write> {
    let code = number(shown.strip_prefix("x:")?)?;
    Some(Write {
        client: code / 100,
        number: code % 100,
    })
}

/// What stands behind the first word of a read that found something: stamp, length and text.
fn data(words: &str) -> Option<End> {
    let (stamp, words) = words.split_once(' ')?;
    let (length, shown) = words.split_once(' ')?;
    if length != "2" {
        return None;
    }
    Some(End::Data {
        stamp: number(stamp)?,
        write: write_of(shown)?,
    })
}

/// What stands behind the first word of a write that was acknowledged: the stamp, and the mask of the six
/// of eight positions that have it.
fn acked(words: &str) -> Option<End> {
    let (stamp, mask) = words.split_once(' ')?;
    if letters(mask, b"1") != 6 || letters(mask, b"0") != 2 {
        return None;
    }
    Some(End::Acked {
        stamp: number(stamp)?,
    })
}

/// What stands behind the first word of a read of a block that was written meanwhile.
fn moved(words: &str) -> Option<End> {
    let (was, now) = words.split_once(' ')?;
    Some(End::Moved {
        was: number(was)?,
        now: number(now)?,
    })
}

/// The end of an operation, by the words of its line.
pub fn end_of(words: &str) -> Option<End> {
    match words {
        "hole" => return Some(End::Hole),
        "refused Exists" => return Some(End::Exists),
        _ => {}
    }
    let (first, words) = words.split_once(' ')?;
    match first {
        "created" => Some(End::Created),
        "acked" => acked(words),
        "revoked" => Some(End::Revoked {
            later: number(words)?,
        }),
        "data" => data(words),
        "moved" => moved(words),
        "toofew" => Some(End::TooFew {
            good: letters(words, b"ks"),
        }),
        _ => None,
    }
}
