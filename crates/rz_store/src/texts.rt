//! Texts of blocks that are written or read in part.
ghost use Rattle.std.specs.Prelude.{◌≡◌, ◌<◌, ◌+◌, ◌^◌, IfOk, length};
ghost use Rattle.rz_contents.specs.Ranges as ranges;

use std::alloc::{AllocError, Global};

/// A text with these bytes from a place on, behind zeros where it ended before that, in new memory.
pub fn patched(alloc: Global, text: &[u8], from: usize, bytes: &[u8]) -> Result<Vec<u8>, AllocError>
    requires few { from + length bytes.now < 2 ^ 64 }
    ensures { IfOk result (λ out. out.items ≡ ranges.patched text.now from bytes.now) }
{
    let mut out = Vec::new(alloc);
    out.extend_from_slice(text)?;
    out.resize(from, 0)?;
    out.extend_from_slice(bytes)?;
    let end = from + bytes.len();
    if end < text.len() {
        out.extend_from_slice(&text[end..])?;
    }
    Ok(out)
}

/// The bytes that a text has from a place on, with zeros past its end.
pub fn fill_from(text: &[u8], from: usize, out: &mut [u8])
    ensures { out.new ≡ ranges.bytes_from text.now from (length out.old) }
{
    out.fill(0);
    if from < text.len() {
        let common = out.len().min(text.len() - from);
        out[..common].copy_from_slice(&text[from..from + common]);
    }
}
