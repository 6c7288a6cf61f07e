//! Bytes and words of a block.

use rz_words::Block;
use std::test::Fail;

#[test]
fn bytes_and_words(rt: HostRuntime) -> Result<(), Fail> {
    let text = b"\x01\x02\x03\x04\x05\x06\x07\x08hello";
    let block = Block::from_bytes(rt.alloc(), 2, 2, text).expect(&rt, "memory");
    let has_words = block.words() == [0x0807_0605_0403_0201u64, 0x6f_6c6c_6568, 0, 0].as_slice();
    let mut out = [9u8; 13];
    block.to_bytes_into(&mut out);
    drop(block);
    assert!(rt; has_words && out == *text);
    Ok(())
}
