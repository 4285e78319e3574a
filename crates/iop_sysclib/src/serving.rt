//! The services of `sysclib`.

ghost use Rattle.std.specs.Prelude.{◌≡◌, OnErr};
ghost use Rattle.iop_sysclib.specs.Calls.{serves_sysclib};
ghost use Rattle.iop_sysclib.specs.Outcomes.{IsServed};

use crate::memory_calls::{bzero, memchr, memcmp, memcpy, memset};
use crate::sprintf::sprintf;
use crate::string_calls::{strchr, strcmp, strlen, strncmp, strrchr};
use crate::string_stores::{strcat, strcpy, strncpy};
use crate::strtol::strtol;
use iop_base::{GuestFault, Lines};
use iop_exec::Cpu;
use iop_services::SysclibService;
use iop_stubs::Guest;

/// The number of `$sp`.
const STACK_POINTER: usize = 29;

/// Does what a service of `sysclib` does at moment `now`, and answers the word of `$v0`: an
/// address, a length, a number, or -1, 0 or 1 as two's complement. Its arguments stand in `$a0` to
/// `$a3` of the processor, and those of a format go on in the words from 16(`$sp`) on (MIPS o32).
/// What it writes is one store, which ends the live stubs that it meets; all that it reads is read
/// before. What each call does is C99's 7.20.1.4 and 7.21, but for `bzero`, which is BSD's, and
/// `sprintf`, which is 7.19.6.6 with this project's format.
///
/// `Address` exactly where a range that is read by its length or written has a byte and is not
/// wholly in RAM, or the `end` of `strtol` is not 0 and not a multiple of 4; nothing has changed
/// then, and there is no line. A string ends at RAM's end too, and is empty outside RAM. A
/// comparison gives -1, 0 or 1, and a number is read in base 0 or in one from 2 to 36, and is 0 in
/// every other. This is this project's own profile.
pub fn serve_sysclib<L: Lines>(
    service: SysclibService,
    cpu: &Cpu,
    guest: &mut Guest,
    now: u64,
    lines: &mut L,
) -> Result<u32, GuestFault>
    ensures served { IsServed (serves_sysclib guest.old.ram cpu.now service) now result guest.old
        guest.new (L.output lines.old) (L.output lines.new) }
    ensures untouched { OnErr result (lines.new ≡ lines.old) }
{
    let [a0, a1, a2, a3] = [cpu.regs[4], cpu.regs[5], cpu.regs[6], cpu.regs[7]];
    match service {
        SysclibService::Memchr => memchr(guest, a0, a1, a2),
        SysclibService::Memcmp => memcmp(guest, a0, a1, a2),
        SysclibService::Memcpy | SysclibService::Memmove => memcpy(guest, a0, a1, a2, now, lines),
        SysclibService::Memset => memset(guest, a0, a1, a2, now, lines),
        SysclibService::Bzero => bzero(guest, a0, a1, now, lines),
        SysclibService::Sprintf => {
            sprintf(guest, a0, a1, [a2, a3], cpu.regs[STACK_POINTER], now, lines)
        }
        SysclibService::Strcat => strcat(guest, a0, a1, now, lines),
        SysclibService::Strchr => Ok(strchr(guest, a0, a1)),
        SysclibService::Strcmp => Ok(strcmp(guest, a0, a1)),
        SysclibService::Strcpy => strcpy(guest, a0, a1, now, lines),
        SysclibService::Strlen => Ok(strlen(guest, a0)),
        SysclibService::Strncmp => Ok(strncmp(guest, a0, a1, a2)),
        SysclibService::Strncpy => strncpy(guest, a0, a1, a2, now, lines),
        SysclibService::Strrchr => Ok(strrchr(guest, a0, a1)),
        SysclibService::Strtol => strtol(guest, a0, a1, a2, now, lines),
    }
}
