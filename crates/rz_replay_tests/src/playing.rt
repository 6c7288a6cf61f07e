//! A play over disks of a test, and disks that lose their power.

use rz_disk::Disk;
use rz_link::MemLink;
use rz_ports::{PlainSink, PlainSource, Source};
use rz_replay::replay;
use rz_test_disks::{OutageDisk, Power};
use std::process::Abort;

/// A play whose journal stands behind the disks of four nodes.
pub(super) const FIRST: &str = "rozo first --disks 5";

/// The disks of such a play.
pub(super) const DISKS: u64 = 5;

/// What stands for all of these disks.
pub(super) const ALL: u64 = DISKS;

/// Adds an item at the end.
pub(super) fn push<T: Drop>(rt: &impl Abort, items: &mut Vec<T>, item: T) {
    match items.push(item) {
        Ok(()) => {}
        Err(_) => rt.panic("memory"),
    }
}

/// The words between single spaces.
fn words_of(rt: &(impl Abort + AllocGlobal), line: &str) -> Vec<String> {
    let mut words = Vec::new(rt.alloc());
    for word in line.split(' ') {
        let word = String::from_str(rt.alloc(), word).expect(rt, "memory");
        push(rt, &mut words, word);
    }
    words
}

/// Plays what a source gives, and gives the status and what was written to a sink with room for so many bytes. The
/// link loses what stands in its list.
pub(super) fn play_streams<I: Source, D: Disk>(
    rt: &(impl Abort + AllocGlobal),
    line: &str,
    mut input: I,
    room: usize,
    disks: &mut Vec<D>,
    mut link: MemLink,
) -> (u8, String) {
    let words = words_of(rt, line);
    let mut output = PlainSink::with_room(rt.alloc(), room).expect(rt, "memory");
    let played = replay(
        rt.alloc(),
        &words,
        &mut input,
        &mut output,
        disks,
        &mut link,
    );
    drop(words);
    drop(input);
    drop(link);
    let status = played.status;
    drop(played);
    let text = String::from_utf8_lossy(rt.alloc(), output.taken()).expect(rt, "memory");
    drop(output);
    (status, text)
}

/// A source of a script.
pub(super) fn source_of(rt: &(impl Abort + AllocGlobal), script: &str) -> PlainSource {
    PlainSource::new(Vec::from_slice(rt.alloc(), script.as_bytes()).expect(rt, "memory"))
}

/// Plays a script, and gives the status and what was written. The link loses what stands in its list.
pub(super) fn play_over<D: Disk>(
    rt: &(impl Abort + AllocGlobal),
    line: &str,
    script: &str,
    disks: &mut Vec<D>,
    link: MemLink,
) -> (u8, String) {
    let input = source_of(rt, script);
    play_streams(rt, line, input, 4096, disks, link)
}

/// The same over a link that loses nothing.
pub(super) fn play<D: Disk>(
    rt: &(impl Abort + AllocGlobal),
    line: &str,
    script: &str,
    disks: &mut Vec<D>,
) -> (u8, String) {
    play_over(rt, line, script, disks, MemLink::new(Vec::new(rt.alloc())))
}

/// What stands behind this start of a line. It is empty where no line begins so.
pub(super) fn behind<'t>(text: &'t str, start: &str) -> &'t str {
    for line in text.lines() {
        if let Some(words) = line.strip_prefix(start) {
            return words;
        }
    }
    ""
}

/// The disks of a play, of which this one has the power that goes, or all of them.
pub(super) fn disks_on<'a>(
    rt: &(impl Abort + AllocGlobal),
    disk: u64,
    power: &'a Power,
    lasting: &'a Power,
) -> Vec<OutageDisk<'a>> {
    let mut disks = Vec::new(rt.alloc());
    for index in 0..DISKS {
        let goes = disk == index || disk == ALL;
        let power = if goes { power } else { lasting };
        push(rt, &mut disks, OutageDisk::new(rt.alloc(), power));
    }
    disks
}
