//! Kernels over words, at lengths about their vectors of eight.

ghost use Rattle.std.specs.Prelude.{◌≤◌};

use rz_lanes::{all_zero, first_nonzero, xor_eight, xor_into};
use std::process::Abort;
use std::test::Fail;

const LENGTHS: [usize; 7] = [0, 1, 7, 8, 9, 64, 258];

/// Added twice to words that are each the same, so many words are those again; and once they are other ones.
fn adds(rt: &(impl Abort + AllocGlobal), length: usize) -> bool {
    let added = vec![in rt.alloc(); 5u64; length].expect(rt, "memory");
    let mut words = vec![in rt.alloc(); 3u64; length].expect(rt, "memory");
    xor_into(&mut words, &added);
    let once = words.iter().all(|word| *word == 6);
    xor_into(&mut words, &added);
    let twice = words.iter().all(|word| *word == 3);
    drop(words);
    drop(added);
    once && twice
}

/// The last whole group of eight words is added to, and the words about it stay.
fn adds_group(rt: &(impl Abort + AllocGlobal), length: usize) -> bool
    requires { 8 ≤ length }
{
    let group = length / 8 - 1;
    let added = vec![in rt.alloc(); 5u64; length].expect(rt, "memory");
    let mut words = vec![in rt.alloc(); 3u64; length].expect(rt, "memory");
    let mut wanted = vec![in rt.alloc(); 3u64; length].expect(rt, "memory");
    for place in 8 * group..8 * group + 8 {
        wanted[place] = 6;
    }
    xor_eight(&mut words, group, &added, group);
    let are_added = words == wanted;
    drop(wanted);
    drop(words);
    drop(added);
    are_added
}

/// Whether the first word that is not zero is found at each place, and none where there is none.
fn finds(rt: &(impl Abort + AllocGlobal), length: usize) -> bool {
    let mut words = vec![in rt.alloc(); 0u64; length].expect(rt, "memory");
    let mut is_found = all_zero(&words) && first_nonzero(&words).is_none();
    for place in (0..words.len()).rev() {
        words[place] = 1;
        is_found = is_found && first_nonzero(&words) == Some(place) && !all_zero(&words);
    }
    drop(words);
    is_found
}

#[test]
fn lengths_about_eight(rt: HostRuntime) -> Result<(), Fail> {
    for length in LENGTHS {
        assert!(rt; adds(&rt, length) && finds(&rt, length), "{length} words");
        if length >= 8 {
            assert!(rt; adds_group(&rt, length), "{length} words");
        }
    }
    Ok(())
}
