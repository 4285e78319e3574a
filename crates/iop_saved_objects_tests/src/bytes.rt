//! The bytes of lists of objects, in each of which no two numbers of an object are equal.

/// Two semaphores, for the first of which the threads 6 and 5 wait: ids, attributes, options, first
/// and highest counts, counts, and threads.
pub(crate) const SEMAPHORES: [u8; 68] = [
    2, 0, 0, 0, // how many
    3, 0, 0, 0, 1, 0, 0, 0, 7, 8, 9, 10, 4, 0, 0, 0, 5, 0, 0, 0, 0, 0, 0, 0, //
    2, 0, 0, 0, 6, 0, 0, 0, 5, 0, 0, 0, //
    4, 0, 0, 0, 0, 0, 0, 0, 8, 0, 0, 0, 2, 0, 0, 0, 9, 0, 0, 0, 3, 0, 0, 0, //
    0, 0, 0, 0,
];

/// Two event flags, for the first of which the threads 6 and 5 wait, and 4 for the other: ids,
/// attributes, options, first bits, bits, and threads with bits, modes and places.
pub(crate) const EVENT_FLAGS: [u8; 100] = [
    2, 0, 0, 0, // how many
    1, 0, 0, 0, 2, 0, 0, 0, 7, 8, 9, 10, 3, 0, 0, 0, 0, 1, 0, 0, //
    2, 0, 0, 0, //
    6, 0, 0, 0, 3, 0, 0, 0, 1, 0, 0, 0, 0, 0, 2, 0, //
    5, 0, 0, 0, 4, 0, 0, 0, 0x10, 0, 0, 0, 0, 0, 0, 0, //
    2, 0, 0, 0, 0, 0, 0, 0, 8, 0, 0, 0, 5, 0, 0, 0, 6, 0, 0, 0, //
    1, 0, 0, 0, //
    4, 0, 0, 0, 1, 0, 0, 0, 0x11, 0, 0, 0, 4, 0, 3, 0,
];

/// Two mailboxes: ids, attributes, options, threads with places, and messages with priorities.
pub(crate) const MAILBOXES: [u8; 67] = [
    2, 0, 0, 0, // how many
    2, 0, 0, 0, 5, 0, 0, 0, 7, 8, 9, 10, //
    1, 0, 0, 0, 6, 0, 0, 0, 0, 0, 2, 0, //
    2, 0, 0, 0, 0, 0, 3, 0, 9, 0, 0, 4, 0, 1, //
    3, 0, 0, 0, 0, 0, 0, 0, 8, 0, 0, 0, //
    0, 0, 0, 0, //
    1, 0, 0, 0, 0, 0, 5, 0, 0,
];

/// A variable pool: its id, attribute, option, base and size, ranges, and threads with sizes.
pub(crate) const VARIABLE_POOLS: [u8; 64] = [
    1, 0, 0, 0, // how many
    3, 0, 0, 0, 1, 0, 0, 0, 7, 8, 9, 10, 0, 0, 1, 0, 0, 1, 0, 0, //
    2, 0, 0, 0, 0, 0, 1, 0, 0x20, 0, 0, 0, 0x40, 0, 1, 0, 0x10, 0, 0, 0, //
    2, 0, 0, 0, 6, 0, 0, 0, 0, 1, 0, 0, 5, 0, 0, 0, 0xF0, 0, 0, 0,
];

/// A fixed pool: its id, attribute, option, base, size and count, blocks, and threads.
pub(crate) const FIXED_POOLS: [u8; 52] = [
    1, 0, 0, 0, // how many
    3, 0, 0, 0, 1, 0, 0, 0, 7, 8, 9, 10, 0, 0, 1, 0, 8, 0, 0, 0, 4, 0, 0, 0, //
    2, 0, 0, 0, 0, 0, 1, 0, 0x18, 0, 1, 0, //
    2, 0, 0, 0, 6, 0, 0, 0, 5, 0, 0, 0,
];
