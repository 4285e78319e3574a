//! Which bytes tables are whose objects were named number by number.

use crate::bytes::{EVENT_FLAGS, FIXED_POOLS, MAILBOXES, SEMAPHORES, VARIABLE_POOLS};
use crate::tests::{is_written, semaphores_of, sink};
use iop_event::{CLEAR, EITHER, EventFlag, EventFlags, MANY_WAITERS, Wanted};
use iop_mbx::{MESSAGES_BY_PRIORITY, Mailbox, Mailboxes, WAITERS_BY_PRIORITY};
use iop_pools::{FixedLayout, FixedPools, VariableLayout, VariablePools};
use iop_ports::MemSink;
use iop_saved_objects::{
    save_event_flags, save_fixed_pools, save_mailboxes, save_semaphores, save_variable_pools,
};
use iop_sema::{BY_PRIORITY, Semaphore, Semaphores};
use iop_snapshot::{Encoder, SnapFault};
use std::alloc::Global;
use std::process::Abort;

/// The option of the first object of each kind.
const OPTION: u32 = 0x0A09_0807;

/// Makes the two semaphores, lets the threads wait, and writes them.
fn made_semaphores(alloc: Global) -> Result<MemSink, SnapFault> {
    let mut sink = sink(alloc)?;
    let mut semaphores = Semaphores::new(alloc)?;
    let first = Semaphore {
        attr: BY_PRIORITY,
        option: OPTION,
        initial: 4,
        max: 5,
        count: 0,
    };
    let _ = semaphores.put_back(3, first);
    let _ = semaphores.put_waiter(3, 6, 26);
    let _ = semaphores.put_waiter(3, 5, 25);
    let second = Semaphore {
        attr: 0,
        option: 8,
        initial: 2,
        max: 9,
        count: 3,
    };
    let _ = semaphores.put_back(4, second);
    let _ = save_semaphores(&semaphores, &mut Encoder::new(&mut sink));
    Ok(sink)
}

/// What a thread waits for of an event flag.
fn wanted(bits: u32, mode: u32, place: u32) -> Wanted {
    Wanted { bits, mode, place }
}

/// Makes the two event flags, lets the threads wait, and writes them.
fn made_event_flags(alloc: Global) -> Result<MemSink, SnapFault> {
    let mut sink = sink(alloc)?;
    let mut event_flags = EventFlags::new(alloc)?;
    let first = EventFlag {
        attr: MANY_WAITERS,
        option: OPTION,
        first: 3,
        pattern: 0x100,
    };
    let _ = event_flags.put_back(1, first);
    let _ = event_flags.put_waiter(1, 6, 26, wanted(3, EITHER, 0x2_0000));
    let _ = event_flags.put_waiter(1, 5, 25, wanted(4, CLEAR, 0));
    let second = EventFlag {
        attr: 0,
        option: 8,
        first: 5,
        pattern: 6,
    };
    let _ = event_flags.put_back(2, second);
    let _ = event_flags.put_waiter(2, 4, 24, wanted(1, EITHER | CLEAR, 0x3_0004));
    let _ = save_event_flags(&event_flags, &mut Encoder::new(&mut sink));
    Ok(sink)
}

/// Makes the two mailboxes, lets a thread wait and messages come, and writes them.
fn made_mailboxes(alloc: Global) -> Result<MemSink, SnapFault> {
    let mut sink = sink(alloc)?;
    let mut mailboxes = Mailboxes::new(alloc)?;
    let first = Mailbox {
        attr: WAITERS_BY_PRIORITY | MESSAGES_BY_PRIORITY,
        option: OPTION,
    };
    let _ = mailboxes.put_back(2, first);
    let _ = mailboxes.put_waiter(2, 6, 26, 0x2_0000);
    let _ = mailboxes.put_message(2, 0x3_0000, 9);
    let _ = mailboxes.put_message(2, 0x4_0000, 1);
    let _ = mailboxes.put_back(3, Mailbox { attr: 0, option: 8 });
    let _ = mailboxes.put_message(3, 0x5_0000, 0);
    let _ = save_mailboxes(&mailboxes, &mut Encoder::new(&mut sink));
    Ok(sink)
}

/// Makes the variable pool, takes ranges out of it, lets the threads wait, and writes it.
fn made_variable_pools(alloc: Global) -> Result<MemSink, SnapFault> {
    let mut sink = sink(alloc)?;
    let mut pools = VariablePools::new(alloc)?;
    let layout = VariableLayout {
        attr: iop_pools::BY_PRIORITY,
        option: OPTION,
        base: 0x1_0000,
        size: 0x100,
    };
    let _ = pools.put_back(3, layout);
    let _ = pools.put_range(3, 0x1_0000, 0x20);
    let _ = pools.put_range(3, 0x1_0040, 0x10);
    let _ = pools.put_waiter(3, 6, 0x100, 26);
    let _ = pools.put_waiter(3, 5, 0xF0, 25);
    let _ = save_variable_pools(&pools, &mut Encoder::new(&mut sink));
    Ok(sink)
}

/// Makes the fixed pool, takes blocks out of it, lets the threads wait, and writes it.
fn made_fixed_pools(alloc: Global) -> Result<MemSink, SnapFault> {
    let mut sink = sink(alloc)?;
    let mut pools = FixedPools::new(alloc)?;
    let layout = FixedLayout {
        attr: iop_pools::BY_PRIORITY,
        option: OPTION,
        base: 0x1_0000,
        size: 8,
        count: 4,
    };
    let _ = pools.put_back(3, layout);
    let _ = pools.put_block(3, 0x1_0000);
    let _ = pools.put_block(3, 0x1_0018);
    let _ = pools.put_waiter(3, 6, 26);
    let _ = pools.put_waiter(3, 5, 25);
    let _ = save_fixed_pools(&pools, &mut Encoder::new(&mut sink));
    Ok(sink)
}

#[test]
fn each_number_has_its_place(rt: HostRuntime) {
    let alloc = rt.alloc();
    assert_eq!(rt; is_written(made_semaphores(alloc), &SEMAPHORES), true);
    assert_eq!(rt; is_written(made_event_flags(alloc), &EVENT_FLAGS), true);
    assert_eq!(rt; is_written(made_mailboxes(alloc), &MAILBOXES), true);
    assert_eq!(rt;
        is_written(made_variable_pools(alloc), &VARIABLE_POOLS),
        true
    );
    assert_eq!(rt; is_written(made_fixed_pools(alloc), &FIXED_POOLS), true);
}

/// The thread that is next among those that wait for the first semaphore.
fn next_waiter(alloc: Global, bytes: &[u8]) -> Option<u32> {
    match semaphores_of(alloc, bytes) {
        Ok(mut semaphores) => semaphores.pop_waiter(3),
        Err(_) => None,
    }
}

#[test]
fn threads_wait_with_their_priorities(rt: HostRuntime) {
    assert_eq!(rt; next_waiter(rt.alloc(), &SEMAPHORES), Some(5));
}
