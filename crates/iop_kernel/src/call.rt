ghost use Rattle.std.specs.Prelude.{◌≡◌};
ghost use Rattle.iop_kernel.specs.Serving.{call_of};

use iop_base::KERNEL_LIBRARIES;
use iop_services::{LIBRARY_CODES, SERVICES};

/// The code of the `syscall` to which a thread returns.
pub const THREAD_RETURN_CALL: u32 = 0xF00;

/// The code of the `syscall` to which a handler returns.
pub const HANDLER_RETURN_CALL: u32 = 0xF01;

/// The code of the `syscall` to which a module returns.
pub const MODULE_RETURN_CALL: u32 = 0xF02;

/// What a `syscall` calls.
#[derive(Clone, Copy, Debug, PartialEq, Eq)]
pub enum Call {
    /// A number of a kernel library.
    Library {
        /// The library's place among `KERNEL_LIBRARIES` of iop_base.
        library: u32,
        /// The number: below `SERVICES` of iop_services.
        number: u32,
    },
    /// The thread returns.
    ThreadReturn,
    /// The handler returns.
    HandlerReturn,
    /// The module returns.
    ModuleReturn,
}

impl Call {
    /// Finds what a code calls, if it has a meaning. The codes of a library's services begin at its
    /// number times `LIBRARY_CODES`.
    pub(crate) fn of_code(code: u32) -> Option<Self>
        ensures { result ≡ call_of code }
    {
        match code {
            THREAD_RETURN_CALL => Some(Call::ThreadReturn),
            HANDLER_RETURN_CALL => Some(Call::HandlerReturn),
            MODULE_RETURN_CALL => Some(Call::ModuleReturn),
            _ => {
                let library = code / LIBRARY_CODES;
                let number = code % LIBRARY_CODES;
                let listed = (library as usize) < KERNEL_LIBRARIES.len() && number < SERVICES;
                listed.then_some(Call::Library { library, number })
            }
        }
    }
}
