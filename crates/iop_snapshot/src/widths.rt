//! The widths of the items of a snapshot, in bytes, by what each item tells. This project's own
//! profile.
//!
//! A truth value is 0 or 1. Addresses, sizes and ids are of 4 bytes, moments and the numbers of
//! alarms and delays of 8.

/// How many items follow, of a list.
pub const COUNT: [u8; 1] = [4];

/// The head of the file: the eight letters `IOPSNAP1`, and how many MiB RAM has.
pub const HEAD: [u8; 9] = [1, 1, 1, 1, 1, 1, 1, 1, 4];

/// The kernel: the moment, whether interrupts are on, whether dispatch is enabled, the id of the
/// thread that runs, or 0, whether a handler is active (0 none, 1 of a line, 2 of an alarm), and
/// the number of its line or alarm, or 0.
pub const KERNEL: [u8; 6] = [8, 1, 1, 4, 1, 8];

/// A processor: registers 0 to 31, HI, LO, the place of the instruction, that of the next one,
/// whether it stands in a delay slot, the register that a load has still to bring, or 0, and the
/// value that it brings, or 0.
pub const CPU: [u8; 39] = [
    4, 4, 4, 4, 4, 4, 4, 4, 4, 4, 4, 4, 4, 4, 4, 4, 4, 4, 4, 4, 4, 4, 4, 4, 4, 4, 4, 4, 4, 4, 4, 4,
    4, 4, 4, 4, 1, 1, 4,
];

/// A thread: its id, attributes, option, entry, stack, size of the stack, gp, first priority,
/// priority, state, what it waits for, or 0, the id of that, or 0, and how many wakeups it has.
pub const THREAD: [u8; 13] = [4, 4, 4, 4, 4, 4, 4, 4, 4, 4, 4, 4, 4];

/// The id of a thread that is ready, or that waits where nothing more is to tell of the wait.
pub const THREAD_ID: [u8; 1] = [4];

/// A semaphore: its id, attributes, option, first count, highest count, and count.
pub const SEMAPHORE: [u8; 6] = [4, 4, 4, 4, 4, 4];

/// An event flag: its id, attributes, option, first bits, and bits.
pub const EVENT_FLAG: [u8; 5] = [4, 4, 4, 4, 4];

/// A thread that waits for an event flag: its id, the bits, the mode, and where the bits go, or 0.
pub const EVENT_FLAG_WAITER: [u8; 4] = [4, 4, 4, 4];

/// A mailbox: its id, attributes, and option.
pub const MAILBOX: [u8; 3] = [4, 4, 4];

/// A thread that waits for a mailbox: its id, and where the message goes.
pub const MAILBOX_WAITER: [u8; 2] = [4, 4];

/// A message in a mailbox: its address, and its priority.
pub const MESSAGE: [u8; 2] = [4, 1];

/// A variable pool: its id, attributes, option, base, and size.
pub const VARIABLE_POOL: [u8; 5] = [4, 4, 4, 4, 4];

/// A range that is out of a variable pool: its start, and its size.
pub const POOL_RANGE: [u8; 2] = [4, 4];

/// A thread that waits for a variable pool: its id, and the size that it asks for.
pub const VARIABLE_POOL_WAITER: [u8; 2] = [4, 4];

/// A fixed pool: its id, attributes, option, base, size of a block, and how many blocks it has.
pub const FIXED_POOL: [u8; 6] = [4, 4, 4, 4, 4, 4];

/// A block that is out of a fixed pool: its address.
pub const POOL_BLOCK: [u8; 1] = [4];

/// An alarm: its number, its moment, its handler, the handler's argument, and gp.
pub const ALARM: [u8; 5] = [8, 8, 4, 4, 4];

/// A delay: its number, its moment, and the id of the thread.
pub const DELAY: [u8; 3] = [8, 8, 4];

/// An interrupt line: whether it is raised, whether it is enabled, whether it has a handler, and
/// the handler, its argument and gp, which are 0 where it has none.
pub const LINE: [u8; 6] = [1, 1, 1, 4, 4, 4];

/// What is given out next: the ids of threads, semaphores, event flags, mailboxes, variable pools
/// and fixed pools, and the number of an alarm or a delay.
pub const NEXT: [u8; 7] = [4, 4, 4, 4, 4, 4, 8];

/// A range of memory that is used: its start, and its size.
pub const USED_RANGE: [u8; 2] = [4, 4];

/// A library: the eight bytes of its name, its major version, and its table.
pub const LIBRARY: [u8; 10] = [1, 1, 1, 1, 1, 1, 1, 1, 1, 4];

/// A live stub: its place, the eight bytes of the library's name, the major version, the index of
/// the function, and where the stub goes.
pub const STUB: [u8; 12] = [4, 1, 1, 1, 1, 1, 1, 1, 1, 1, 2, 4];

/// Whether a module is there.
pub const MODULE_PRESENT: [u8; 1] = [1];

/// The module that is there: its number, base, and length.
pub const MODULE: [u8; 3] = [4, 4, 4];

/// The number of the module that is loaded next.
pub const NEXT_MODULE: [u8; 1] = [4];

/// An event of the script that is still to come: its tick, the line, and whether the line rises.
pub const SCRIPT_EVENT: [u8; 3] = [8, 1, 1];

/// The number of the module that words of the script are for.
pub const ARGUMENTS_MODULE: [u8; 1] = [4];
