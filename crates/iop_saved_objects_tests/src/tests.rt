ghost use Rattle.std.specs.Prelude.{◌+◌, if◌then◌else◌, nat_lt, Some, None};

use crate::bytes::{EVENT_FLAGS, FIXED_POOLS, MAILBOXES, SEMAPHORES, VARIABLE_POOLS};
use iop_event::EventFlags;
use iop_mbx::Mailboxes;
use iop_pools::{FixedPools, VariablePools};
use iop_ports::MemSink;
use iop_saved_objects::{
    Priorities, restore_event_flags, restore_fixed_pools, restore_mailboxes, restore_semaphores,
    restore_variable_pools, save_event_flags, save_fixed_pools, save_mailboxes, save_semaphores,
    save_variable_pools,
};
use iop_sema::Semaphores;
use iop_snapshot::{Decoder, Encoder, SnapFault};
use std::alloc::{AllocError, Global};
use std::process::Abort;
use std::test::Fail;

/// Threads below 10 are live, each with a priority 20 above its id.
struct Live;

impl Priorities for Live {
    ghost of = { λ _ thread. if nat_lt thread 10 then Some (20 + thread) else None };

    fn priority(&self, thread: u32) -> Option<u8> {
        if thread < 10 {
            Some(20 + thread as u8)
        } else {
            None
        }
    }
}

/// Makes a copy of bytes with another one at a place, if there is one.
fn with_byte(alloc: Global, bytes: &[u8], place: usize, byte: u8) -> Result<Vec<u8>, AllocError> {
    let mut changed = Vec::from_slice(alloc, bytes)?;
    if let Some(old) = changed.get_mut(place) {
        *old = byte;
    }
    Ok(changed)
}

/// A sink with room for the bytes of a test.
pub(crate) fn sink(alloc: Global) -> Result<MemSink, AllocError> {
    MemSink::new(alloc, 100, Vec::new(alloc))
}

/// Restores semaphores into an empty table.
pub(crate) fn semaphores_of(alloc: Global, bytes: &[u8]) -> Result<Semaphores, SnapFault> {
    restore_semaphores(Semaphores::new(alloc)?, &Live, &mut Decoder::new(bytes))
}

/// Restores event flags into an empty table.
fn event_flags_of(alloc: Global, bytes: &[u8]) -> Result<EventFlags, SnapFault> {
    restore_event_flags(EventFlags::new(alloc)?, &Live, &mut Decoder::new(bytes))
}

/// Restores mailboxes into an empty table.
fn mailboxes_of(alloc: Global, bytes: &[u8]) -> Result<Mailboxes, SnapFault> {
    restore_mailboxes(Mailboxes::new(alloc)?, &Live, &mut Decoder::new(bytes))
}

/// Restores variable pools into an empty table.
fn variable_pools_of(alloc: Global, bytes: &[u8]) -> Result<VariablePools, SnapFault> {
    restore_variable_pools(VariablePools::new(alloc)?, &Live, &mut Decoder::new(bytes))
}

/// Restores fixed pools into an empty table.
fn fixed_pools_of(alloc: Global, bytes: &[u8]) -> Result<FixedPools, SnapFault> {
    restore_fixed_pools(FixedPools::new(alloc)?, &Live, &mut Decoder::new(bytes))
}

/// Restores semaphores and writes them again.
fn semaphores_again(alloc: Global, bytes: &[u8]) -> Result<MemSink, SnapFault> {
    let mut sink = sink(alloc)?;
    let _ = save_semaphores(&semaphores_of(alloc, bytes)?, &mut Encoder::new(&mut sink));
    Ok(sink)
}

/// Restores event flags and writes them again.
fn event_flags_again(alloc: Global, bytes: &[u8]) -> Result<MemSink, SnapFault> {
    let mut sink = sink(alloc)?;
    let _ = save_event_flags(&event_flags_of(alloc, bytes)?, &mut Encoder::new(&mut sink));
    Ok(sink)
}

/// Restores mailboxes and writes them again.
fn mailboxes_again(alloc: Global, bytes: &[u8]) -> Result<MemSink, SnapFault> {
    let mut sink = sink(alloc)?;
    let _ = save_mailboxes(&mailboxes_of(alloc, bytes)?, &mut Encoder::new(&mut sink));
    Ok(sink)
}

/// Restores variable pools and writes them again.
fn variable_pools_again(alloc: Global, bytes: &[u8]) -> Result<MemSink, SnapFault> {
    let mut sink = sink(alloc)?;
    let pools = variable_pools_of(alloc, bytes)?;
    let _ = save_variable_pools(&pools, &mut Encoder::new(&mut sink));
    Ok(sink)
}

/// Restores fixed pools and writes them again.
fn fixed_pools_again(alloc: Global, bytes: &[u8]) -> Result<MemSink, SnapFault> {
    let mut sink = sink(alloc)?;
    let _ = save_fixed_pools(&fixed_pools_of(alloc, bytes)?, &mut Encoder::new(&mut sink));
    Ok(sink)
}

/// Whether a sink was written these bytes.
pub(crate) fn is_written(sink: Result<MemSink, SnapFault>, wanted: &[u8]) -> bool {
    match sink {
        Ok(sink) => sink.bytes() == wanted,
        Err(_) => false,
    }
}

#[test]
fn lists_come_back(rt: HostRuntime) {
    let alloc = rt.alloc();
    let semaphores = semaphores_again(alloc, &SEMAPHORES);
    assert_eq!(rt; is_written(semaphores, &SEMAPHORES), true);
    let event_flags = event_flags_again(alloc, &EVENT_FLAGS);
    assert_eq!(rt; is_written(event_flags, &EVENT_FLAGS), true);
    let mailboxes = mailboxes_again(alloc, &MAILBOXES);
    assert_eq!(rt; is_written(mailboxes, &MAILBOXES), true);
    let pools = variable_pools_again(alloc, &VARIABLE_POOLS);
    assert_eq!(rt; is_written(pools, &VARIABLE_POOLS), true);
    let pools = fixed_pools_again(alloc, &FIXED_POOLS);
    assert_eq!(rt; is_written(pools, &FIXED_POOLS), true);
}

/// The fault of what was refused; none where it was taken.
fn fault_of<T: Drop>(restored: Result<T, SnapFault>) -> Option<SnapFault> {
    match restored {
        Ok(_) => None,
        Err(fault) => Some(fault),
    }
}

#[test]
fn what_a_table_does_not_take_is_bad(rt: HostRuntime) -> Result<(), Fail> {
    let alloc = rt.alloc();
    // An id that does not rise, a count over the most, a thread that is not live.
    for (place, byte) in [(40, 3), (60, 10), (32, 99), (0, 3)] {
        let bytes = with_byte(alloc, &SEMAPHORES, place, byte)?;
        assert_eq!(rt;
            fault_of(semaphores_of(alloc, &bytes)),
            Some(SnapFault::Bad)
        );
    }
    // A thread that asks for no bit, two where one alone may wait, and an unknown attribute.
    for (place, byte) in [(32, 0), (8, 0), (8, 1), (60, 1), (0, 3)] {
        let bytes = with_byte(alloc, &EVENT_FLAGS, place, byte)?;
        assert_eq!(rt;
            fault_of(event_flags_of(alloc, &bytes)),
            Some(SnapFault::Bad)
        );
    }
    // An unknown attribute, a thread that is not live, a priority that is not looked at.
    for (place, byte) in [(8, 2), (20, 10), (66, 1), (0, 3)] {
        let bytes = with_byte(alloc, &MAILBOXES, place, byte)?;
        assert_eq!(rt; fault_of(mailboxes_of(alloc, &bytes)), Some(SnapFault::Bad));
    }
    Ok(())
}

#[test]
fn what_a_pool_does_not_take_is_bad(rt: HostRuntime) -> Result<(), Fail> {
    let alloc = rt.alloc();
    // A base of no whole unit, a range that meets the one before, a size of no whole unit.
    for (place, byte) in [(16, 1), (36, 0x10), (60, 0xF1), (0, 3)] {
        let bytes = with_byte(alloc, &VARIABLE_POOLS, place, byte)?;
        assert_eq!(rt;
            fault_of(variable_pools_of(alloc, &bytes)),
            Some(SnapFault::Bad)
        );
    }
    // No block, a place that is not one, and one that is out already.
    for (place, byte) in [(24, 0), (36, 0x19), (36, 0), (0, 3)] {
        let bytes = with_byte(alloc, &FIXED_POOLS, place, byte)?;
        assert_eq!(rt;
            fault_of(fixed_pools_of(alloc, &bytes)),
            Some(SnapFault::Bad)
        );
    }
    Ok(())
}
