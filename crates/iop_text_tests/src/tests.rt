use arrayvec::ArrayVec;
use iop_text::{append, append_hex, append_hex_digits, append_number};
use std::test::Fail;

#[test]
fn texts_are_appended(rt: HostRuntime) -> Result<(), Fail> {
    let mut text = ArrayVec::<u8, 32>::new();
    append(&mut text, b"at ");
    append_hex(&mut text, 0x1F_FFFC);
    append(&mut text, b" ");
    append_hex_digits(&mut text, 0xABCD, 2);
    append(&mut text, b" ");
    append_number(&mut text, -64i16);
    assert_eq!(rt; text.as_slice(), b"at 001ffffc cd -64".as_slice());
    Ok(())
}
