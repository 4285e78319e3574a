use crate::kernels::{Numbers, Saved, agrees_again, dormant, loader, ready};
use iop_stubs::Guest;
use std::process::Abort;
use std::test::Fail;

/// No object, no alarm and no delay.
const NONE: [u32; 7] = [0; 7];

#[test]
fn which_waits_agree(rt: HostRuntime) -> Result<(), Fail> {
    let alloc = rt.alloc();
    let guest = Guest::new(alloc, 0x20_0000)?;
    // The thread's state, what it waits for and the id of that, and its wakeups; the lists; and
    // whether they agree.
    let rows: [((u32, u32, u32, u32), &[u32], bool); 26] = [
        // Dormant, and asleep.
        ((0x10, 0, 0, 0), &NONE, true),
        ((4, 1, 0, 0), &NONE, true),
        ((4, 1, 0, 1), &NONE, false),
        ((8, 0, 0, 1), &NONE, true),
        // A semaphore: id, attribute, option, first count, most, count; those that wait.
        (
            (4, 3, 1, 0),
            &[1, 1, 0, 0, 0, 1, 0, 1, 1, 0, 0, 0, 0, 0, 0],
            true,
        ),
        (
            (0xC, 3, 1, 0),
            &[1, 1, 0, 0, 0, 1, 0, 1, 1, 0, 0, 0, 0, 0, 0],
            true,
        ),
        (
            (4, 3, 1, 0),
            &[1, 1, 0, 0, 0, 1, 1, 1, 1, 0, 0, 0, 0, 0, 0],
            false,
        ),
        (
            (4, 3, 1, 0),
            &[1, 1, 0, 0, 0, 1, 0, 0, 0, 0, 0, 0, 0, 0],
            false,
        ),
        (
            (4, 3, 1, 0),
            &[1, 1, 0, 0, 0, 1, 0, 2, 1, 1, 0, 0, 0, 0, 0, 0],
            false,
        ),
        (
            (0x10, 0, 0, 0),
            &[1, 1, 0, 0, 0, 1, 0, 1, 1, 0, 0, 0, 0, 0, 0],
            false,
        ),
        (
            (4, 1, 0, 0),
            &[1, 1, 0, 0, 0, 1, 0, 1, 1, 0, 0, 0, 0, 0, 0],
            false,
        ),
        // An event flag: id, attribute, option, first bits, bits; thread, bits, mode, place.
        (
            (4, 4, 1, 0),
            &[0, 1, 1, 0, 0, 0, 2, 1, 1, 1, 0, 0, 0, 0, 0, 0, 0],
            true,
        ),
        (
            (4, 4, 1, 0),
            &[0, 1, 1, 0, 0, 0, 3, 1, 1, 1, 0, 0, 0, 0, 0, 0, 0],
            false,
        ),
        (
            (4, 4, 1, 0),
            &[0, 1, 1, 0, 0, 0, 2, 1, 1, 3, 1, 0, 0, 0, 0, 0, 0],
            false,
        ),
        (
            (4, 4, 1, 0),
            &[0, 1, 1, 0, 0, 0, 2, 1, 1, 3, 0, 0, 0, 0, 0, 0, 0],
            true,
        ),
        (
            (4, 4, 1, 0),
            &[0, 1, 1, 0, 0, 0, 2, 1, 1, 1, 0, 2, 0, 0, 0, 0, 0],
            false,
        ),
        (
            (4, 4, 1, 0),
            &[0, 1, 1, 0, 0, 0, 2, 1, 1, 1, 0, 0x1F_FFFC, 0, 0, 0, 0, 0],
            true,
        ),
        (
            (4, 4, 1, 0),
            &[0, 1, 1, 0, 0, 0, 2, 1, 1, 1, 0, 0x20_0000, 0, 0, 0, 0, 0],
            false,
        ),
        // A mailbox: id, attribute, option; thread, place; messages.
        (
            (4, 5, 1, 0),
            &[0, 0, 1, 1, 0, 0, 1, 1, 0, 0, 0, 0, 0, 0],
            true,
        ),
        (
            (4, 5, 1, 0),
            &[0, 0, 1, 1, 0, 0, 1, 1, 2, 0, 0, 0, 0, 0],
            false,
        ),
        // A variable pool: id, attribute, option, base, size; start and size of what is out;
        // thread, size.
        (
            (4, 6, 1, 0),
            &[
                0, 0, 0, 1, 1, 0, 0, 0x10000, 64, 1, 0x10000, 48, 1, 1, 32, 0, 0, 0,
            ],
            true,
        ),
        (
            (4, 6, 1, 0),
            &[
                0, 0, 0, 1, 1, 0, 0, 0x10000, 64, 1, 0x10000, 32, 1, 1, 32, 0, 0, 0,
            ],
            false,
        ),
        // A fixed pool: id, attribute, option, base, size, count; blocks that are out; threads.
        (
            (4, 7, 1, 0),
            &[
                0, 0, 0, 0, 1, 1, 0, 0, 0x10000, 4, 1, 1, 0x10000, 1, 1, 0, 0,
            ],
            true,
        ),
        (
            (4, 7, 1, 0),
            &[
                0, 0, 0, 0, 1, 1, 0, 0, 0x10000, 4, 2, 1, 0x10000, 1, 1, 0, 0,
            ],
            false,
        ),
        // A delay: number, moment, each of two words; thread.
        ((4, 2, 0, 0), &[0, 0, 0, 0, 0, 0, 1, 1, 0, 5, 0, 1], true),
        (
            (0x10, 0, 0, 0),
            &[0, 0, 0, 0, 0, 0, 1, 1, 0, 5, 0, 1],
            false,
        ),
    ];
    for ((state, wait, wait_id, wakeups), lists, wanted) in rows {
        let saved = Saved {
            interrupts: true,
            running: 0,
            threads: &[loader(state, wait, wait_id, wakeups)],
            ready: &[],
            lists,
        };
        assert_eq!(rt; agrees_again(alloc, &guest, saved), Ok(wanted));
    }
    Ok(())
}

#[test]
fn who_runs(rt: HostRuntime) -> Result<(), Fail> {
    let alloc = rt.alloc();
    let guest = Guest::new(alloc, 0x20_0000)?;
    // Whether interrupts are on, whether the loader's thread runs or sleeps, the priority of the
    // ready thread beside it, and whether they agree.
    let rows = [
        (true, true, 7, false),
        (true, true, 8, true),
        (true, true, 9, true),
        (false, true, 7, true),
        (true, false, 9, false),
        (false, false, 9, false),
    ];
    for (interrupts, runs, priority, wanted) in rows {
        let first = if runs {
            loader(1, 0, 0, 0)
        } else {
            loader(4, 1, 0, 0)
        };
        let saved = Saved {
            interrupts,
            running: u32::from(runs),
            threads: &[first, ready(2, priority)],
            ready: &[2],
            lists: &NONE,
        };
        assert_eq!(rt; agrees_again(alloc, &guest, saved), Ok(wanted));
    }
    Ok(())
}

/// A kernel of these threads, of which none runs, and of these objects, alarms and delays.
fn at_rest<'a>(threads: &'a [Numbers], lists: &'a [u32]) -> Saved<'a> {
    Saved {
        interrupts: true,
        running: 0,
        threads,
        ready: &[],
        lists,
    }
}

#[test]
fn which_loaders_can_be(rt: HostRuntime) -> Result<(), Fail> {
    let alloc = rt.alloc();
    let guest = Guest::new(alloc, 0x20_0000)?;
    // The numbers of the only thread, and whether it can be.
    let rows = [
        ([1, 0x0200_0000, 0, 0, 0xC000, 0x4000, 0, 8], true),
        ([1, 0x0100_0000, 0, 0, 0xC000, 0x4000, 0, 8], false),
        ([1, 0x0200_0000, 1, 0, 0xC000, 0x4000, 0, 8], false),
        ([1, 0x0200_0000, 0, 4, 0xC000, 0x4000, 0, 8], false),
        ([1, 0x0200_0000, 0, 0, 0xC100, 0x4000, 0, 8], false),
        ([1, 0x0200_0000, 0, 0, 0xC000, 0x3F00, 0, 8], false),
        ([1, 0x0200_0000, 0, 0, 0xC000, 0x4000, 1, 8], false),
        ([1, 0x0200_0000, 0, 0, 0xC000, 0x4000, 0, 9], false),
        ([2, 0x0200_0000, 0, 0, 0x10000, 0x4000, 0, 8], false),
    ];
    for (numbers, wanted) in rows {
        let threads = [dormant(numbers, 0)];
        let saved = at_rest(&threads, &NONE);
        assert_eq!(rt; agrees_again(alloc, &guest, saved), Ok(wanted));
    }
    Ok(())
}

#[test]
fn which_threads_can_be(rt: HostRuntime) -> Result<(), Fail> {
    let alloc = rt.alloc();
    let guest = Guest::new(alloc, 0x20_0000)?;
    // The attribute of a second thread, its entry, its stack and the size of that, and its wakeups;
    // and whether it can be.
    let rows = [
        (0x0200_0000, 0x10000, 0x20000, 0x400, 0, true),
        (0x0300_0000, 0, 0x1F_FC00, 0x400, 0x7FFF_FFFF, true),
        (0x0200_0000, 0x10000, 0x8002_0000, 0x400, 0, true),
        (0x0400_0000, 0x10000, 0x20000, 0x400, 0, false),
        (0x0200_0000, 0x10002, 0x20000, 0x400, 0, false),
        (0x0200_0000, 0x10000, 0xFF00, 0x400, 0, false),
        (0x0200_0000, 0x10000, 0x20080, 0x400, 0, false),
        (0x0200_0000, 0x10000, 0x20000, 0x480, 0, false),
        (0x0200_0000, 0x10000, 0x20000, 0, 0, false),
        (0x0200_0000, 0x10000, 0x1F_FD00, 0x400, 0, false),
        (0x0200_0000, 0x10000, 0xFFFF_FF00, 0x400, 0, false),
        (0x0200_0000, 0x10000, 0x20000, 0x400, 0x8000_0000, false),
    ];
    for (attr, entry, stack, size, wakeups, wanted) in rows {
        let second = dormant([2, attr, 0, entry, stack, size, 5, 9], wakeups);
        let threads = [loader(0x10, 0, 0, 0), second];
        let saved = at_rest(&threads, &NONE);
        assert_eq!(rt; agrees_again(alloc, &guest, saved), Ok(wanted));
    }
    Ok(())
}

#[test]
fn which_pools_can_be(rt: HostRuntime) -> Result<(), Fail> {
    let alloc = rt.alloc();
    let guest = Guest::new(alloc, 0x20_0000)?;
    let threads = [loader(0x10, 0, 0, 0)];
    // Where a variable pool begins and its size, and whether it can be.
    let variable = [
        (0x1F_FF00, 256, true),
        (0x1F_FF00, 272, false),
        (0x20_0000, 64, false),
    ];
    for (base, size, wanted) in variable {
        let lists = [0, 0, 0, 1, 1, 0, 0, base, size, 0, 0, 0, 0, 0];
        let saved = at_rest(&threads, &lists);
        assert_eq!(rt; agrees_again(alloc, &guest, saved), Ok(wanted));
    }
    // The same of a fixed pool, whose blocks have 64 bytes, and how many it has.
    let fixed = [
        (0x1F_FF00, 4, true),
        (0x1F_FF00, 5, false),
        (0x20_0000, 1, false),
    ];
    for (base, count, wanted) in fixed {
        let lists = [0, 0, 0, 0, 1, 1, 0, 0, base, 64, count, 0, 0, 0, 0];
        let saved = at_rest(&threads, &lists);
        assert_eq!(rt; agrees_again(alloc, &guest, saved), Ok(wanted));
    }
    Ok(())
}
