//! The kernel's libraries.

/// The names of the kernel's libraries by their numbers, each of eight bytes and filled up with
/// zeros (ps2sdk's `irx.h`).
pub const KERNEL_LIBRARIES: [[u8; 8]; 11] = [
    *b"loadcore",
    *b"sysmem\0\0",
    *b"intrman\0",
    *b"thbase\0\0",
    *b"thsemap\0",
    *b"thevent\0",
    *b"thmsgbx\0",
    *b"stdio\0\0\0",
    *b"thvpool\0",
    *b"thfpool\0",
    *b"sysclib\0",
];
