use iop_intr::{Handler, IrqLine};
use iop_ports::MemSink;
use iop_registry::Registry;
use iop_saved_tables::{
    put_stubs, restore_alarms, restore_blocks, restore_delays, restore_libraries, restore_lines,
    restore_stubs, save_alarms, save_blocks, save_delays, save_libraries, save_lines,
};
use iop_snapshot::{Decoder, Encoder, SnapFault};
use iop_stubs::Guest;
use iop_sysmem::Blocks;
use iop_time::Clock;
use std::alloc::{AllocError, Global};
use std::process::Abort;
use std::test::Fail;

/// How many bytes of RAM there are.
const RAM: u32 = 0x20_0000;

/// Two alarms: their numbers, moments, handlers, arguments and gp.
pub(crate) const ALARMS: [u8; 60] = [
    2, 0, 0, 0, // how many
    3, 0, 0, 0, 0, 0, 0, 0, 0, 1, 0, 0, 0, 0, 0, 0, 4, 0, 1, 0, 5, 0, 0, 0, 6, 0, 0, 0, //
    7, 0, 0, 0, 0, 0, 0, 0, 0, 0, 0, 0, 0, 0, 0, 0x80, 4, 0, 1, 0, 8, 0, 0, 0, 9, 0, 0, 0,
];

/// Two delays: their numbers, moments and threads.
pub(crate) const DELAYS: [u8; 44] = [
    2, 0, 0, 0, // how many
    3, 0, 0, 0, 0, 0, 0, 0, 0, 1, 0, 0, 0, 0, 0, 0, 5, 0, 0, 0, //
    7, 0, 0, 0, 0, 0, 0, 0, 0, 0, 0, 0, 0, 0, 0, 0x80, 6, 0, 0, 0,
];

/// The kernel's block and another one: their starts and sizes.
const BLOCKS: [u8; 20] = [
    2, 0, 0, 0, // how many
    0, 0, 0, 0, 0, 0, 1, 0, //
    0, 1, 1, 0, 0, 3, 0, 0,
];

/// Two libraries: their names, major versions and tables.
pub(crate) const LIBRARIES: [u8; 30] = [
    2, 0, 0, 0, // how many
    b'a', b'b', 0, 0, 0, 0, 0, 0, 1, 0, 2, 1, 0, //
    b'a', b'b', 0, 0, 0, 0, 0, 0, 2, 0, 2, 1, 0,
];

/// A stub: its place, the name and major version of its library, its index and its target.
const STUBS: [u8; 23] = [
    1, 0, 0, 0, // how many
    8, 0, 1, 0, b'a', b'b', 0, 0, 0, 0, 0, 0, 1, 4, 0, 0, 0, 2, 0,
];

/// A line that is enabled: its handler, the handler's argument, and gp.
const LINE: [u8; 15] = [0, 1, 1, 4, 0, 1, 0, 5, 0, 0, 0, 6, 0, 0, 0];

/// That line.
pub(crate) fn last() -> IrqLine {
    let handler = Handler {
        address: 0x1_0004,
        arg: 5,
        gp: 6,
    };
    IrqLine {
        raised: false,
        enabled: true,
        handler: Some(handler),
    }
}

/// The bytes of all lines: the first is raised, the second enabled, the last is that one, the others
/// are idle.
pub(crate) fn lines() -> [u8; 960] {
    let mut bytes = [0; 960];
    bytes[0] = 1;
    bytes[16] = 1;
    bytes[945..].copy_from_slice(&LINE);
    bytes
}

/// Makes a copy of bytes with another one at a place, if there is one.
fn with_byte(alloc: Global, bytes: &[u8], place: usize, byte: u8) -> Result<Vec<u8>, AllocError> {
    let mut changed = Vec::from_slice(alloc, bytes)?;
    if let Some(old) = changed.get_mut(place) {
        *old = byte;
    }
    Ok(changed)
}

/// A sink with room for the bytes of a test.
pub(crate) fn sink(alloc: Global) -> Result<MemSink, AllocError> {
    MemSink::new(alloc, 1000, Vec::new(alloc))
}

/// Restores alarms into an empty clock.
fn alarms_of(alloc: Global, bytes: &[u8]) -> Result<Clock, SnapFault> {
    restore_alarms(Clock::new(alloc)?, &mut Decoder::new(bytes))
}

/// Restores delays into an empty clock.
fn delays_of(alloc: Global, bytes: &[u8]) -> Result<Clock, SnapFault> {
    restore_delays(Clock::new(alloc)?, &mut Decoder::new(bytes))
}

/// Restores blocks.
fn blocks_of(alloc: Global, bytes: &[u8]) -> Result<Blocks, SnapFault> {
    restore_blocks(Blocks::new(alloc, RAM)?, &mut Decoder::new(bytes))
}

/// Restores libraries into an empty registry.
fn libraries_of(alloc: Global, bytes: &[u8]) -> Result<Registry, SnapFault> {
    restore_libraries(Registry::empty(alloc)?, &mut Decoder::new(bytes))
}

/// Restores alarms and writes them again.
fn alarms_again(alloc: Global, bytes: &[u8]) -> Result<MemSink, SnapFault> {
    let mut sink = sink(alloc)?;
    let _ = save_alarms(&alarms_of(alloc, bytes)?, &mut Encoder::new(&mut sink));
    Ok(sink)
}

/// Restores delays and writes them again.
fn delays_again(alloc: Global, bytes: &[u8]) -> Result<MemSink, SnapFault> {
    let mut sink = sink(alloc)?;
    let _ = save_delays(&delays_of(alloc, bytes)?, &mut Encoder::new(&mut sink));
    Ok(sink)
}

/// Restores libraries and writes them again.
fn libraries_again(alloc: Global, bytes: &[u8]) -> Result<MemSink, SnapFault> {
    let mut sink = sink(alloc)?;
    let _ = save_libraries(&libraries_of(alloc, bytes)?, &mut Encoder::new(&mut sink));
    Ok(sink)
}

/// Restores lines and writes them again.
fn lines_again(alloc: Global, bytes: &[u8]) -> Result<MemSink, SnapFault> {
    let mut sink = sink(alloc)?;
    let Some(lines) = restore_lines(&mut Decoder::new(bytes)) else {
        return Err(SnapFault::Bad);
    };
    let _ = save_lines(&lines, &mut Encoder::new(&mut sink));
    Ok(sink)
}

/// The last line of those that are restored, if they are.
fn last_line(bytes: &[u8]) -> Option<IrqLine> {
    let lines = restore_lines(&mut Decoder::new(bytes))?;
    Some(lines.line(63))
}

/// Whether a sink was written these bytes.
pub(crate) fn is_written(sink: Result<MemSink, SnapFault>, wanted: &[u8]) -> bool {
    match sink {
        Ok(sink) => sink.bytes() == wanted,
        Err(_) => false,
    }
}

#[test]
fn lists_come_back(rt: HostRuntime) {
    let alloc = rt.alloc();
    assert_eq!(rt; is_written(alarms_again(alloc, &ALARMS), &ALARMS), true);
    assert_eq!(rt; is_written(delays_again(alloc, &DELAYS), &DELAYS), true);
    assert_eq!(rt;
        is_written(libraries_again(alloc, &LIBRARIES), &LIBRARIES),
        true
    );
}

#[test]
fn lines_come_back(rt: HostRuntime) -> Result<(), Fail> {
    let alloc = rt.alloc();
    let bytes = lines();
    assert_eq!(rt; last_line(&bytes), Some(last()));
    assert_eq!(rt; is_written(lines_again(alloc, &bytes), &bytes), true);
    assert_eq!(rt; last_line(&bytes[1..]), None);
    // No truth values, and a handler, an argument and a gp where there is no handler.
    for (place, byte) in [(0, 2), (1, 2), (2, 2), (3, 1), (7, 1), (14, 1), (947, 0)] {
        let changed = with_byte(alloc, &bytes, place, byte)?;
        assert_eq!(rt; last_line(&changed), None);
    }
    Ok(())
}

/// The place, major version, index and target of the first stub.
fn first_stub(alloc: Global, bytes: &[u8]) -> Result<Option<(u32, u8, u16, u32)>, AllocError> {
    let Ok(stubs) = restore_stubs(alloc, &mut Decoder::new(bytes)) else {
        return Ok(None);
    };
    let Some(stub) = stubs.first() else {
        return Ok(None);
    };
    Ok(Some((stub.at, stub.major, stub.index, stub.target)))
}

/// Restores blocks and writes them again.
fn blocks_again(alloc: Global, bytes: &[u8]) -> Result<MemSink, SnapFault> {
    let mut sink = sink(alloc)?;
    let blocks = blocks_of(alloc, bytes)?;
    if blocks.used().len() < 100 {
        let _ = save_blocks(&blocks, &mut Encoder::new(&mut sink));
    }
    Ok(sink)
}

/// How many bytes are free beside the blocks, if they are some.
fn free_beside(alloc: Global, bytes: &[u8]) -> Option<u32> {
    match blocks_of(alloc, bytes) {
        Ok(blocks) => Some(blocks.total_free()),
        Err(_) => None,
    }
}

#[test]
fn blocks_and_stubs_come_back(rt: HostRuntime) -> Result<(), Fail> {
    let alloc = rt.alloc();
    assert_eq!(rt; free_beside(alloc, &BLOCKS), Some(RAM - 0x1_0300));
    assert_eq!(rt; is_written(blocks_again(alloc, &BLOCKS), &BLOCKS), true);
    let stub = first_stub(alloc, &STUBS)?;
    assert_eq!(rt; stub, Some((0x1_0008, 1, 4, 0x2_0000)));
    Ok(())
}

/// The fault of what was refused; none where it was taken.
fn fault_of<T: Drop>(restored: Result<T, SnapFault>) -> Option<SnapFault> {
    match restored {
        Ok(_) => None,
        Err(fault) => Some(fault),
    }
}

#[test]
fn what_a_table_does_not_take_is_bad(rt: HostRuntime) -> Result<(), Fail> {
    let alloc = rt.alloc();
    // An alarm's number that does not rise, and the argument of the other alarm with its handler.
    for (place, byte) in [(32, 3), (52, 5), (0, 3)] {
        let bytes = with_byte(alloc, &ALARMS, place, byte)?;
        assert_eq!(rt; fault_of(alarms_of(alloc, &bytes)), Some(SnapFault::Bad));
    }
    // A delay's number that does not rise, and a thread that waits already.
    for (place, byte) in [(24, 3), (40, 5), (0, 3)] {
        let bytes = with_byte(alloc, &DELAYS, place, byte)?;
        assert_eq!(rt; fault_of(delays_of(alloc, &bytes)), Some(SnapFault::Bad));
    }
    // Another first block, one inside of the kernel's, one of no whole unit, and none at all.
    for (place, byte) in [(5, 1), (14, 0), (12, 1), (0, 0), (0, 3)] {
        let bytes = with_byte(alloc, &BLOCKS, place, byte)?;
        assert_eq!(rt; fault_of(blocks_of(alloc, &bytes)), Some(SnapFault::Bad));
    }
    // The same library twice, and a table at no multiple of 4.
    for (place, byte) in [(25, 1), (26, 1), (0, 3)] {
        let bytes = with_byte(alloc, &LIBRARIES, place, byte)?;
        assert_eq!(rt; fault_of(libraries_of(alloc, &bytes)), Some(SnapFault::Bad));
    }
    Ok(())
}

/// Whether stubs are put back into memory that is all zero.
fn are_put_back(alloc: Global, bytes: &[u8]) -> Result<bool, SnapFault> {
    let stubs = restore_stubs(alloc, &mut Decoder::new(bytes))?;
    Ok(put_stubs(Guest::new(alloc, RAM)?, &stubs).is_some())
}

#[test]
fn stubs_want_their_words(rt: HostRuntime) {
    let alloc = rt.alloc();
    assert_eq!(rt; are_put_back(alloc, &STUBS), Ok(false));
    assert_eq!(rt; are_put_back(alloc, &[0; 4]), Ok(true));
}
