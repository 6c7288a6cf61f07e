//! The printed form of every line.
use crate::comparing::compare;
use rz_script::{Form, Script};
use std::process::Abort;
use std::test::Fail;

/// Eight nodes in two clusters with the largest blocks, and every line and operation in a loose
/// spelling.
const LOOSE: &str =
    "#\n volume  {\"clusters\":[{\"nodes\":[{\"sid\":7,\"cells\":1},{\"cells\":2,\"sid\":8},{\"sid\":9,\"cells\":3},{\"sid\":65535,\"cells\":1048576}],\"cid\":65535},{\"cid\":2,\"nodes\":[{\"sid\":1,\"cells\":4},{\"sid\":2,\"cells\":4},{\"sid\":3,\"cells\":4},{\"sid\":4,\"cells\":4}]}], \"bsize\":32768,\"layout\":0}\n\
op c01 mkdir /d\n\
  op  c64  rmdir  d  \n\
op c1 create /d/\u{e4}\n\
op c1 unlink /f\n\
op c1 rename /f  /g\n\
op c1 link /f /g\n\
op c1 symlink ../a /l\n\
op c1 readlink /l\n\
op c1 readdir /\n\
op c1 lookup #\n\
op c1 getattr /f\n\
op c1 setattr /f 04095 18446744073709551615\n\
op c1 put /f 007 t:hello\n\
op c1 put /f 7 x:00FfaB\n\
op c1 put /f 0 t:\n\
op c1 put /f 0 g:00032768:0255\n\
op c1 get /f 000\n\
op c1 write /f 4160749568 g:134217728:0\n\
op c1 read /f 1 134217728\n\
op c1 update /f 2 t:\u{e4}\n\
op c1 view /f 3 0\n\
op r16 rebuild n65535\n\
turn r01 01\n\
rounds 0001000000\n\
rest\n\
   \n\
stop n007\n\
start n7\n\
lose n9\n\
break n1 01000000 18446744073709551615\n\
miss c1 request\n\
#\n\
miss r1 reply";

/// Its one spelling.
const PRINTED: &str =
    "volume {\"layout\":0,\"bsize\":32768,\"clusters\":[{\"cid\":65535,\"nodes\":[{\"sid\":7,\"cells\":1},{\"sid\":8,\"cells\":2},{\"sid\":9,\"cells\":3},{\"sid\":65535,\"cells\":1048576}]},{\"cid\":2,\"nodes\":[{\"sid\":1,\"cells\":4},{\"sid\":2,\"cells\":4},{\"sid\":3,\"cells\":4},{\"sid\":4,\"cells\":4}]}]}\n\
op c1 mkdir /d\n\
op c64 rmdir d\n\
op c1 create /d/\u{e4}\n\
op c1 unlink /f\n\
op c1 rename /f /g\n\
op c1 link /f /g\n\
op c1 symlink ../a /l\n\
op c1 readlink /l\n\
op c1 readdir /\n\
op c1 lookup #\n\
op c1 getattr /f\n\
op c1 setattr /f 4095 18446744073709551615\n\
op c1 put /f 7 x:68656c6c6f\n\
op c1 put /f 7 x:00ffab\n\
op c1 put /f 0 x:\n\
op c1 put /f 0 g:32768:255\n\
op c1 get /f 0\n\
op c1 write /f 4160749568 g:134217728:0\n\
op c1 read /f 1 134217728\n\
op c1 update /f 2 x:c3a4\n\
op c1 view /f 3 0\n\
op r16 rebuild n65535\n\
turn r1 1\n\
rounds 1000000\n\
rest\n\
stop n7\n\
start n7\n\
lose n9\n\
break n1 1000000 18446744073709551615\n\
miss c1 request\n\
miss r1 reply\n";

/// Reads a text, which is short, and prints it.
fn printed(rt: &(impl Abort + AllocGlobal), text: &[u8]) -> Vec<u8> {
    assert!(rt; text.len() <= 100_000);
    let script = Script::read(rt.alloc(), text, Form::Replay).expect(rt, "a script");
    let text = script.print(rt.alloc()).expect(rt, "memory");
    drop(script);
    text
}

#[test]
fn prints_what_reads_back(rt: HostRuntime) -> Result<(), Fail> {
    let once = printed(&rt, LOOSE.as_bytes());
    let twice = printed(&rt, &once);
    compare(&rt, &once.as_slice(), &PRINTED.as_bytes(), "once");
    compare(&rt, &twice.as_slice(), &PRINTED.as_bytes(), "twice");
    drop(once);
    drop(twice);
    Ok(())
}
