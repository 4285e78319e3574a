use crate::rows::{AB_FF, ABCDE, KSEG0, LAST_BYTES, OUTSIDE, RAM_END, quiet, serve_all, writing};
use iop_base::GuestFault;
use iop_services::SysclibService;
use std::test::Fail;

#[test]
fn ranges(rt: HostRuntime) -> Result<(), Fail> {
    use SysclibService::{Bzero, Memchr, Memcmp, Memcpy, Memmove, Memset};
    let fault = Err(GuestFault::Address);
    let rows = [
        writing(Memcpy, [ABCDE + 1, ABCDE, 4, 0], ABCDE + 1, ABCDE, b"aabcd"),
        writing(Memmove, [ABCDE, ABCDE + 1, 4, 0], ABCDE, ABCDE, b"bcdee"),
        writing(
            Memset,
            [KSEG0 + ABCDE + 1, 0x141, 2, 0],
            KSEG0 + ABCDE + 1,
            ABCDE,
            b"aAAde",
        ),
        writing(Bzero, [ABCDE + 3, 2, 0, 0], 0, ABCDE, b"abc\0\0"),
        quiet(Memcpy, [OUTSIDE, RAM_END, 0, 0], Ok(OUTSIDE)),
        quiet(Memcpy, [ABCDE, RAM_END - 1, 2, 0], fault),
        quiet(Memset, [RAM_END, 0, 0, 0], Ok(RAM_END)),
        quiet(Memset, [RAM_END - 1, 0, 2, 0], fault),
        quiet(Memchr, [ABCDE, 0x163, 5, 0], Ok(ABCDE + 2)),
        quiet(Memchr, [ABCDE, 0x66, 5, 0], Ok(0)),
        quiet(Memchr, [LAST_BYTES, 0x65, 4, 0], fault),
        quiet(Memcmp, [ABCDE, AB_FF, 3, 0], Ok(0xFFFF_FFFF)),
        quiet(Memcmp, [ABCDE, AB_FF, 2, 0], Ok(0)),
    ];
    serve_all(&rt, rt.alloc(), &rows)
}
