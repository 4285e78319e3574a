use crate::told::Told;
use iop_base::GuestFault;
use iop_exec::Cpu;
use iop_services::SysclibService;
use iop_stubs::Guest;
use iop_sysclib::serve_sysclib;
use std::alloc::Global;
use std::process::Abort;
use std::test::Fail;

/// Where the bytes of the rows stand.
pub(crate) const ABCDE: u32 = 0x2_0000;

pub(crate) const FORMAT: u32 = 0x2_0100;

pub(crate) const LETTER_X: u32 = 0x2_0200;

pub(crate) const HEX: u32 = 0x2_0300;

pub(crate) const FAR_BELOW: u32 = 0x2_0320;

pub(crate) const TAB_1: u32 = 0x2_0340;

pub(crate) const LINE_FEED_2: u32 = 0x2_0344;

pub(crate) const VERTICAL_TAB_3: u32 = 0x2_0348;

pub(crate) const FORM_FEED_4: u32 = 0x2_034C;

pub(crate) const RETURN_5: u32 = 0x2_0350;

pub(crate) const BACKSPACE_6: u32 = 0x2_0354;

pub(crate) const SHIFT_OUT_7: u32 = 0x2_0358;

pub(crate) const NO_HEX: u32 = 0x2_0360;

pub(crate) const AB_FF: u32 = 0x2_0400;

pub(crate) const LAST_BYTES: u32 = 0x1F_FFFD;

/// Places in RAM where nothing stands.
pub(crate) const FREE: u32 = 0x2_0500;

pub(crate) const END: u32 = 0x2_0600;

/// The first address behind RAM, and one far outside.
pub(crate) const RAM_END: u32 = 0x20_0000;

pub(crate) const OUTSIDE: u32 = 0x3000_0000;

/// What the addresses of KSEG0 are more than those of KUSEG.
pub(crate) const KSEG0: u32 = 0x8000_0000;

/// Makes a processor with the arguments of a call.
pub(crate) fn processor(arguments: [u32; 4]) -> Cpu {
    let mut regs = [0; 32];
    for (index, argument) in arguments.iter().enumerate() {
        regs[4 + index] = *argument;
    }
    Cpu {
        regs,
        hi: 0,
        lo: 0,
        pc: 0,
        next: 4,
        in_slot: false,
        pending: None,
    }
}

/// A call with its arguments, what it answers, and the bytes that stand at a place behind it.
#[derive(Clone, Copy)]
pub(crate) struct Row<'a> {
    service: SysclibService,
    arguments: [u32; 4],
    answer: Result<u32, GuestFault>,
    at: u32,
    wanted: &'a [u8],
}

/// Makes a row of a call that leaves what it reads as it was.
pub(crate) fn quiet(
    service: SysclibService,
    arguments: [u32; 4],
    answer: Result<u32, GuestFault>,
) -> Row<'static> {
    Row {
        service,
        arguments,
        answer,
        at: ABCDE,
        wanted: b"abcde",
    }
}

/// Makes a row of a call that answers a word.
pub(crate) fn writing(
    service: SysclibService,
    arguments: [u32; 4],
    answer: u32,
    at: u32,
    wanted: &'static [u8],
) -> Row<'static> {
    Row {
        service,
        arguments,
        answer: Ok(answer),
        at,
        wanted,
    }
}

/// Writes the bytes that the rows read.
pub(crate) fn lay(rt: &impl Abort, guest: &mut Guest, told: &mut Told) {
    let texts = [
        (ABCDE, b"abcde\0".as_slice()),
        (FORMAT, b"%d-%s\0".as_slice()),
        (LETTER_X, b"x\0".as_slice()),
        (HEX, b"0x1fz\0".as_slice()),
        (FAR_BELOW, b"-99999999999\0".as_slice()),
        (TAB_1, b"\t1\0\0\n2\0\0\x0B3\0\0\x0C4\0\0\r5\0".as_slice()),
        (BACKSPACE_6, b"\x086\0\0\x0E7\0".as_slice()),
        (NO_HEX, b"0xg\0".as_slice()),
        (AB_FF, b"ab\xFF\0".as_slice()),
        (LAST_BYTES, b"end".as_slice()),
    ];
    for (at, text) in texts {
        assert_eq!(rt; guest.store_bytes(at, text, 0, told), Ok(()));
    }
}

/// Serves each row in memory in which the bytes of the rows stand.
pub(crate) fn serve_all(rt: &impl Abort, alloc: Global, rows: &[Row]) -> Result<(), Fail> {
    let mut told = Told {
        stubs: Vec::new(alloc),
    };
    let mut guest = Guest::new(alloc, RAM_END)?;
    for row in rows {
        lay(rt, &mut guest, &mut told);
        let cpu = processor(row.arguments);
        let answer = serve_sysclib(row.service, &cpu, &mut guest, 1, &mut told);
        assert_eq!(rt; answer, row.answer);
        let len = u32::try_from(row.wanted.len()).unwrap_or(u32::MAX);
        assert_eq!(rt; guest.ram().window(row.at, len), Some(row.wanted));
    }
    assert_eq!(rt; told.stubs.len(), 0);
    Ok(())
}
