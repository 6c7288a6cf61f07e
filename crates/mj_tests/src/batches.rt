//! The bins of batches.

ghost use Rattle.std.specs.Prelude.{◌≡◌, ◌<◌};
ghost use Rattle.mj_angles.specs.declared.layout.Layout.TheVariants.{L0};

use mj_angles::Layout;
use rz_batch::Batch;
use std::process::Abort;
use std::test::Fail;

/// A word of a bin, or none where there is no such block or bin.
fn word_at(batch: &Batch, block: usize, position: u8, bin: usize) -> Option<u64>
    requires layout { batch.now.layout ≡ L0 }
    requires position { position < 4 }
{
    if block < batch.len() {
        batch.bins(block, position).get(bin).copied()
    } else {
        None
    }
}

fn is(rt: &impl Abort, found: Option<u64>, want: Option<u64>) {
    assert_eq!(rt; found, want);
}

/// Checks that block 0 has a zero there, that the second block of the batch has the word 1 in row 1, and
/// that there is no third.
fn has_word(rt: &impl Abort, batch: &Batch, position: u8, bin: usize)
    requires layout { batch.now.layout ≡ L0 }
    requires position { position < 4 }
{
    is(rt, word_at(batch, 0, position, bin), Some(0));
    is(rt, word_at(batch, 1, position, bin), Some(1));
    is(rt, word_at(batch, 2, position, bin), None);
}

/// The bins on which column 0 of row 1 falls, by position.
fn has_words(rt: &impl Abort, batch: &Batch)
    requires { batch.now.layout ≡ L0 }
{
    has_word(rt, batch, 0, 0);
    has_word(rt, batch, 1, 0);
    has_word(rt, batch, 2, 0);
    has_word(rt, batch, 3, 1);
}

/// Two whole blocks of layout 0 and a rest, whose projections are made one after the other and in threads.
#[test]
fn two_blocks(rt: HostRuntime) -> Result<(), Fail> {
    let mut bytes = vec![in rt.alloc(); 0u8; 9000].expect(&rt, "memory");
    bytes[4096 + 2048] = 1;
    let one = Batch::forward(rt.alloc(), Layout::L0, &bytes).expect(&rt, "memory");
    has_words(&rt, &one);
    drop(one);
    let many = Batch::forward_par(&rt, rt.alloc(), Layout::L0, &bytes).expect(&rt, "memory");
    has_words(&rt, &many);
    drop(many);
    drop(bytes);
    Ok(())
}
