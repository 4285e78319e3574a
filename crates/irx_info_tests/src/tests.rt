use irx_info::{Info, read_info};

/// The information of a module `t` of version 1.1 with 8 bytes of text, and a byte behind its name.
const PLAIN: [u8; 29] = [
    0xff, 0xff, 0xff, 0xff, 0, 0, 0, 0, 0, 0, 0, 0, 8, 0, 0, 0, 0, 0, 0, 0, 0, 0, 0, 0, 1, 1, b't',
    0, b'x',
];

#[test]
fn plain(rt: HostRuntime) {
    let info = Info {
        id: 0xFFFF_FFFF,
        entry: 0,
        gp: 0,
        text_size: 8,
        data_size: 0,
        bss_size: 0,
        version: 0x0101,
        name: b"t",
    };
    assert_eq!(rt; read_info(&PLAIN), Some(info));
    assert_eq!(rt; read_info(&PLAIN[..28]), Some(info));
    assert_eq!(rt; read_info(&PLAIN[..27]), None);
    assert_eq!(rt; read_info(&PLAIN[..26]), None);
    assert_eq!(rt; read_info(&[]), None);
}
