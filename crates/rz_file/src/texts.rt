//! The text of a block that is written in part, and the bytes of one that is read in part.

ghost use Rattle.std.specs.Prelude.{◌≡◌, ◌≤◌, ◌<◌, ◌+◌, ◌^◌, length, ◌++◌, vec_len, vec_capacity};
ghost use Rattle.rz_operation_model.specs.Ranges.{cut, patched};

/// Adds so many bytes from `start` on, with zeros past the end, where there is room for them.
pub fn push_cut(bytes: &mut Vec<u8>, text: &[u8], start: usize, count: usize)
    requires room { vec_len bytes.old + count ≤ vec_capacity bytes.old }
    requires few { start + count < 2 ^ 64 }
    ensures items { bytes.new.items ≡ bytes.old.items ++ cut start count text.now }
    ensures len { vec_len bytes.new ≡ vec_len bytes.old + count }
    ensures capacity { vec_capacity bytes.new ≡ vec_capacity bytes.old }
{
    for i in 0..count {
        let byte = if start + i < text.len() {
            text[start + i]
        } else {
            0
        };
        bytes.push_reserved(byte);
    }
}

/// Makes the text of a block that is written in part: so many bytes of `given` stand in the text from
/// `start` on, with zeros before them where it is shorter.
pub fn patch(out: &mut Vec<u8>, text: &[u8], start: usize, given: &[u8], done: usize, count: usize)
    requires room { start + count + length text.now ≤ vec_capacity out.old }
    requires few { done + count < 2 ^ 64 }
    requires short { start + count < 2 ^ 64 }
    ensures items { out.new.items ≡ patched start (cut done count given.now) text.now }
    ensures capacity { vec_capacity out.new ≡ vec_capacity out.old }
{
    out.clear();
    push_cut(out, text, 0, start);
    push_cut(out, given, done, count);
    let end = start + count;
    if end < text.len() {
        push_cut(out, text, end, text.len() - end);
    }
}
