use crate::rows::{
    AB_FF, ABCDE, FORMAT, FREE, LAST_BYTES, LETTER_X, OUTSIDE, RAM_END, quiet, serve_all, writing,
};
use iop_base::GuestFault;
use iop_services::SysclibService;
use std::test::Fail;

#[test]
fn strings(rt: HostRuntime) -> Result<(), Fail> {
    use SysclibService::{Strchr, Strcmp, Strlen, Strncmp, Strrchr};
    let rows = [
        quiet(Strlen, [LAST_BYTES, 0, 0, 0], Ok(3)),
        quiet(Strlen, [RAM_END, 0, 0, 0], Ok(0)),
        quiet(Strchr, [ABCDE, 0, 0, 0], Ok(ABCDE + 5)),
        quiet(Strchr, [FORMAT, 0x125, 0, 0], Ok(FORMAT)),
        quiet(Strrchr, [FORMAT, 0x25, 0, 0], Ok(FORMAT + 3)),
        quiet(Strrchr, [ABCDE, 0, 0, 0], Ok(ABCDE + 5)),
        quiet(Strrchr, [FORMAT, 0x7A, 0, 0], Ok(0)),
        quiet(Strcmp, [AB_FF, ABCDE, 0, 0], Ok(1)),
        quiet(Strcmp, [RAM_END, LETTER_X, 0, 0], Ok(0xFFFF_FFFF)),
        quiet(Strncmp, [AB_FF, ABCDE, 3, 0], Ok(1)),
        quiet(Strncmp, [ABCDE, AB_FF, 3, 0], Ok(0xFFFF_FFFF)),
        quiet(Strncmp, [AB_FF, ABCDE, 2, 0], Ok(0)),
    ];
    serve_all(&rt, rt.alloc(), &rows)
}

#[test]
fn stored_strings(rt: HostRuntime) -> Result<(), Fail> {
    use SysclibService::{Sprintf, Strcat, Strcpy, Strncpy};
    let five = 0xFFFF_FFFB;
    let rows = [
        writing(
            Strcpy,
            [ABCDE + 1, ABCDE, 0, 0],
            ABCDE + 1,
            ABCDE,
            b"aabcde\0",
        ),
        writing(Strcpy, [ABCDE, ABCDE + 1, 0, 0], ABCDE, ABCDE, b"bcde\0\0"),
        writing(
            Strcat,
            [LETTER_X, ABCDE, 0, 0],
            LETTER_X,
            LETTER_X,
            b"xabcde\0",
        ),
        writing(Strcat, [FREE, ABCDE, 0, 0], FREE, FREE, b"abcde\0"),
        writing(Strncpy, [ABCDE, LETTER_X, 4, 0], ABCDE, ABCDE, b"x\0\0\0e"),
        writing(Strncpy, [ABCDE, ABCDE + 1, 3, 0], ABCDE, ABCDE, b"bcdde"),
        writing(Sprintf, [FREE, FORMAT, five, LETTER_X], 4, FREE, b"-5-x\0"),
        quiet(Strncpy, [OUTSIDE, ABCDE + 1, 0, 0], Ok(OUTSIDE)),
        quiet(Strcpy, [RAM_END, RAM_END, 0, 0], Err(GuestFault::Address)),
    ];
    serve_all(&rt, rt.alloc(), &rows)
}
