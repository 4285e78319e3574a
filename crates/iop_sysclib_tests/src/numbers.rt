use crate::rows::{
    BACKSPACE_6, END, FAR_BELOW, FORM_FEED_4, HEX, LINE_FEED_2, NO_HEX, RETURN_5, SHIFT_OUT_7,
    TAB_1, VERTICAL_TAB_3, quiet, serve_all, writing,
};
use iop_base::GuestFault;
use iop_services::SysclibService;
use std::test::Fail;

#[test]
fn numbers(rt: HostRuntime) -> Result<(), Fail> {
    use SysclibService::Strtol;
    let least = 0x8000_0000;
    let rows = [
        writing(Strtol, [HEX, END, 0, 0], 31, END, b"\x04\x03\x02\0"),
        writing(Strtol, [HEX, END, 8, 0], 0, END, b"\x01\x03\x02\0"),
        writing(Strtol, [NO_HEX, END, 16, 0], 0, END, b"\x61\x03\x02\0"),
        writing(
            Strtol,
            [FAR_BELOW, END, 10, 0],
            least,
            END,
            b"\x2C\x03\x02\0",
        ),
        writing(Strtol, [HEX, END, 37, 0], 0, END, b"\0\x03\x02\0"),
        quiet(Strtol, [HEX, 0, 36, 0], Ok(1_541_519)),
        quiet(Strtol, [HEX, END + 2, 1, 0], Err(GuestFault::Address)),
    ];
    serve_all(&rt, rt.alloc(), &rows)
}

#[test]
fn white_space(rt: HostRuntime) -> Result<(), Fail> {
    use SysclibService::Strtol;
    let rows = [
        quiet(Strtol, [TAB_1, 0, 10, 0], Ok(1)),
        quiet(Strtol, [LINE_FEED_2, 0, 10, 0], Ok(2)),
        quiet(Strtol, [VERTICAL_TAB_3, 0, 10, 0], Ok(3)),
        quiet(Strtol, [FORM_FEED_4, 0, 10, 0], Ok(4)),
        quiet(Strtol, [RETURN_5, 0, 10, 0], Ok(5)),
        quiet(Strtol, [BACKSPACE_6, 0, 10, 0], Ok(0)),
        quiet(Strtol, [SHIFT_OUT_7, 0, 10, 0], Ok(0)),
    ];
    serve_all(&rt, rt.alloc(), &rows)
}
