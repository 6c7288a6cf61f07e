//! The lines of a scrub that finds something. Those of a clean block and of one with too few records are in examples.

use mj_angles::Layout;
use rz_events::Key;
use rz_scrub::Verdict;
use rz_scrub_report::{Finding, push_line};
use std::test::Fail;

const KEY: Key = Key {
    fid: 0x0123_4567_89ab_cdef_0123_4567_89ab_cdef,
    block: 18446744073709551615,
};

/// Each finding, and the words that end its line.
const LINES: [(Layout, Finding, &str); 4] = [
    (Layout::L2, Finding::Judged(Verdict::Unsure), "unsure"),
    (
        Layout::L0,
        Finding::Judged(Verdict::Altered { mask: 4 }),
        "altered 0010",
    ),
    (
        Layout::L1,
        Finding::Judged(Verdict::Altered { mask: 0x81 }),
        "altered 10000001",
    ),
    (
        Layout::L2,
        Finding::Judged(Verdict::Altered { mask: 0x6000 }),
        "altered 0000000000000110",
    ),
];

#[test]
fn lines(rt: HostRuntime) -> Result<(), Fail> {
    for (layout, finding, words) in LINES {
        let want = format!(in rt.alloc();
            "scrub 01234567-89ab-cdef-0123-456789abcdef 18446744073709551615 {words}\n"
        ).expect(&rt, "memory");
        let mut out = Vec::new(rt.alloc());
        let pushed = push_line(rt.alloc(), &mut out, layout, KEY, finding);
        let is_line = out.as_slice() == want.as_bytes();
        drop(out);
        drop(want);
        assert!(rt; pushed.is_ok() && is_line, "{words}");
    }
    Ok(())
}
