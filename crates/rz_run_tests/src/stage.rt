//! One run over disks and links, and what is printed of it.
ghost use Rattle.std.specs.Prelude.{◌≡◌, ◌∷◌, ◌++◌, [], IsTrue, length};

use rz_disk::Disk;
use rz_link::Link;
use rz_ports::{PlainSink, PlainSource};
use rz_run::run;
use std::process::Abort;
use std::sync::Wait;
use std::thread::Threads;

/// A text has room for so many bytes.
const ROOM: usize = 65_536;

/// Adds an item at the end.
pub fn push<T: Drop>(rt: &impl Abort, items: &mut Vec<T>, item: T)
    ensures { items.new.items ≡ items.old.items ++ item ∷ [] }
{
    match items.push(item) {
        Ok(()) => {}
        Err(_) => rt.panic("memory"),
    }
}

/// The words between single spaces.
fn words_of(rt: &(impl Abort + AllocGlobal), line: &str) -> Vec<String> {
    let mut words = Vec::new(rt.alloc());
    for word in line.split(' ') {
        let word = String::from_str(rt.alloc(), word).expect(rt, "memory");
        push(rt, &mut words, word);
    }
    words
}

/// Plays a script over disks that tell what they hold, and gives what is printed of it. Another status than 0
/// stops the test.
pub fn play<R: Threads + Wait + Abort + AllocGlobal + Sync, D: Disk + Send, L: Link + Send>(
    rt: &R,
    line: &str,
    script: &str,
    disks: Vec<D>,
    links: Vec<L>,
) -> String
    requires links { length links.items ≡ 80 }
    requires tells { IsTrue D.tells }
{
    play_over(rt, line, script, disks, links, true)
}

/// The same over any disks.
pub fn play_over<R: Threads + Wait + Abort + AllocGlobal + Sync, D: Disk + Send, L: Link + Send>(
    rt: &R,
    line: &str,
    script: &str,
    disks: Vec<D>,
    links: Vec<L>,
    honest: bool,
) -> String
    requires links { length links.items ≡ 80 }
    requires tells { IsTrue honest → IsTrue D.tells }
{
    let words = words_of(rt, line);
    let bytes = Vec::from_slice(rt.alloc(), script.as_bytes()).expect(rt, "memory");
    let mut input = PlainSource::new(bytes);
    let mut output = PlainSink::with_room(rt.alloc(), ROOM).expect(rt, "memory");
    let ran = run(
        rt,
        rt.alloc(),
        &words,
        &mut input,
        &mut output,
        disks,
        links,
        honest,
    );
    drop(input);
    drop(words);
    let status = ran.status;
    drop(ran);
    assert!(rt; status == 0);
    let text = String::from_utf8_lossy(rt.alloc(), output.taken()).expect(rt, "memory");
    drop(output);
    text
}
