//! The numbers of the kernel's libraries, and the codes of their services.

ghost use Rattle.std.specs.Prelude.{◌≡◌, ◌<◌, ◌^◌};
ghost use Rattle.iop_services.specs.Codes.{service_code};

/// The number of `loadcore` among `KERNEL_LIBRARIES` of iop_base.
pub const LOADCORE: u32 = 0;

/// The number of `sysmem` among `KERNEL_LIBRARIES` of iop_base.
pub const SYSMEM: u32 = 1;

/// The number of `intrman` among `KERNEL_LIBRARIES` of iop_base.
pub const INTRMAN: u32 = 2;

/// The number of `thbase` among `KERNEL_LIBRARIES` of iop_base.
pub const THBASE: u32 = 3;

/// The number of `thsemap` among `KERNEL_LIBRARIES` of iop_base.
pub const THSEMAP: u32 = 4;

/// The number of `thevent` among `KERNEL_LIBRARIES` of iop_base.
pub const THEVENT: u32 = 5;

/// The number of `thmsgbx` among `KERNEL_LIBRARIES` of iop_base.
pub const THMSGBX: u32 = 6;

/// The number of `stdio` among `KERNEL_LIBRARIES` of iop_base.
pub const STDIO: u32 = 7;

/// The number of `thvpool` among `KERNEL_LIBRARIES` of iop_base.
pub const THVPOOL: u32 = 8;

/// The number of `thfpool` among `KERNEL_LIBRARIES` of iop_base.
pub const THFPOOL: u32 = 9;

/// The number of `sysclib` among `KERNEL_LIBRARIES` of iop_base.
pub const SYSCLIB: u32 = 10;

/// How many services a kernel library has room for.
pub const SERVICES: u32 = 64;

/// How far the codes of one library's services begin behind those of the one before.
pub const LIBRARY_CODES: u32 = 256;

/// The code of service `number` of a library: that of the `syscall` that calls it.
pub fn service_code(library: u32, number: u32) -> u32
    requires fits { service_code library number < 2 ^ 32 }
    ensures { result ≡ service_code library number }
{
    library * LIBRARY_CODES + number
}
