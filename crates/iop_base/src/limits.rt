//! Limits that several crates hold to: this project's profile.

/// The last id of a thread or of an object. Ids are given in their order, each once.
pub const LAST_ID: u32 = 0x7FFF_FFFF;

/// The most workers of a generated module: the greatest count of its semaphore.
pub const MOST_WORKERS: u32 = 250;

/// How many bytes the smaller RAM has: 2 MiB, as in a PlayStation 2.
pub const SMALL_RAM: u32 = 0x20_0000;

/// How many bytes the larger RAM has: 8 MiB, as in its development console.
pub const LARGE_RAM: u32 = 0x80_0000;
