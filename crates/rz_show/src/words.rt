//! The words of a line.

ghost use Rattle.std.specs.Prelude.{◌≡◌, ◌∷◌, ◌++◌, IfOk, OnOk, false, string_bytes};
ghost use Rattle.std.specs.Fmt.{digits};
ghost use Rattle.hex.specs.Hex.{encode_lower};
ghost use Rattle.sha2.specs.Sha256.{sha256};
ghost use Rattle.rz_show.specs.Words.{bytes_word, kind_word, uuid_word};

use rz_events::Kind;
use rz_script::{push_hex, push_word};
use sha2::{Digest, Sha256};
use std::alloc::{AllocError, Global};
use uuid::Uuid;

/// The most bytes that are printed whole.
const WHOLE: usize = 32;

/// Adds a number in octal after a space.
pub fn push_octal(alloc: Global, out: &mut Vec<u8>, number: u16) -> Result<(), AllocError>
    ensures { OnOk result (out.new.items ≡ out.old.items ++ 32 ∷ digits 8 false number) }
{
    let word = format!(in alloc; "{number:o}")?;
    push_word(out, word.as_bytes())
}

/// The text of an object's number.
#[tactic(auto, unfolding(crate::specs::Words::uuid_word))]
fn uuid_text(alloc: Global, fid: u128) -> Result<String, AllocError>
    ensures { IfOk result (λ t. string_bytes t ≡ uuid_word fid) }
{
    let id = Uuid::from_u128(fid);
    id.to_string(alloc)
}

/// Adds an object's number after a space.
pub fn push_uuid(alloc: Global, out: &mut Vec<u8>, fid: u128) -> Result<(), AllocError>
    ensures { OnOk result (out.new.items ≡ out.old.items ++ 32 ∷ uuid_word fid) }
{
    let word = uuid_text(alloc, fid)?;
    push_word(out, word.as_bytes())
}

/// The word of a kind.
#[tactic(auto, unfolding(crate::specs::Words::kind_word))]
pub fn kind_name(kind: Kind) -> &'static str
    ensures { result.now ≡ kind_word kind }
{
    match kind {
        Kind::File => "file",
        Kind::Dir => "dir",
        Kind::Link => "link",
    }
}

/// The SHA-256 of some bytes, in hexadecimal.
fn digest_text(alloc: Global, bytes: &[u8]) -> Result<String, AllocError>
    ensures { IfOk result (λ t. string_bytes t ≡ encode_lower (sha256 bytes.now)) }
{
    let digest = Sha256::digest(bytes);
    hex::encode(alloc, digest.as_slice())
}

/// Adds the word of some bytes after a space: up to 32 in hexadecimal, and more by their SHA-256.
#[tactic(auto, unfolding(crate::specs::Words::bytes_word))]
pub fn push_bytes(alloc: Global, out: &mut Vec<u8>, bytes: &[u8]) -> Result<(), AllocError>
    ensures { OnOk result (out.new.items ≡ out.old.items ++ 32 ∷ bytes_word bytes.now) }
{
    if bytes.len() <= WHOLE {
        out.push(b' ')?;
        push_hex(alloc, out, bytes)
    } else {
        let digits = digest_text(alloc, bytes)?;
        push_word(out, b"h:")?;
        out.extend_from_slice(digits.as_bytes())
    }
}
