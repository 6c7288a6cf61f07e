//! Words as bytes.

ghost use Rattle.std.specs.Prelude.{◌≡◌, ◌≤◌, ◌<◌, ◌*◌, ◌+◌, length, take, drop};
ghost use Rattle.rz_words.specs.Grid.{words_from, bytes_from};
ghost use Rattle.byteorder.specs.Endian.{little_number};

use byteorder::{ByteOrder, LittleEndian};

/// Replaces the words by those of `bytes`, which may be fewer, and then by zeros.
pub fn load_words(words: &mut [u64], bytes: &[u8])
    requires { length bytes.now ≤ 8 * length words.old }
    ensures { words.new ≡ words_from bytes.now (length words.old) }
{
    let whole = bytes.len() / 8;
    'whole: for i in 0..whole {
        words[i] = LittleEndian::read_u64(&bytes[8 * i..]);
    }
    'rest: for i in whole..words.len() {
        words[i] = last_word(bytes, 8 * i);
    }
}

/// The word at a place where fewer than 8 bytes are left.
fn last_word(bytes: &[u8], from: usize) -> u64
    requires { length bytes.now < from + 8 }
    ensures { result ≡ little_number 8 (drop from bytes.now) }
{
    if from < bytes.len() {
        LittleEndian::read_uint(&bytes[from..], bytes.len() - from)
    } else {
        0
    }
}

/// Writes the first bytes of the words, as many as `out` has.
pub fn store_words(words: &[u64], out: &mut [u8])
    requires { length out.old ≤ 8 * length words.now }
    ensures { out.new ≡ take (length out.old) (bytes_from words.now) }
{
    let whole = out.len() / 8;
    LittleEndian::write_u64_into(&words[..whole], &mut out[..8 * whole]);
    'rest: for i in 8 * whole..out.len() {
        out[i] = words[i / 8].to_le_bytes()[i % 8];
    }
}
