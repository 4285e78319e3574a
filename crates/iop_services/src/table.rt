//! The table of services.

ghost use Rattle.std.specs.Prelude.{◌≡◌};
ghost use Rattle.iop_services.specs.Table.{find_row, row_of, loadcore, sysmem, intrman, thbase, thsemap, thevent, thmsgbx, stdio, thvpool, thfpool, sysclib};

use crate::codes::{
    INTRMAN, LOADCORE, STDIO, SYSCLIB, SYSMEM, THBASE, THEVENT, THFPOOL, THMSGBX, THSEMAP, THVPOOL,
};
use crate::context::Context;
use crate::intrman_service::IntrmanService;
use crate::loadcore_service::LoadcoreService;
use crate::row::Row;
use crate::service::Service;
use crate::stdio_service::StdioService;
use crate::sysclib_service::SysclibService;
use crate::sysmem_service::SysmemService;
use crate::thbase_service::ThbaseService;
use crate::thevent_service::TheventService;
use crate::thfpool_service::ThfpoolService;
use crate::thmsgbx_service::ThmsgbxService;
use crate::thsemap_service::ThsemapService;
use crate::thvpool_service::ThvpoolService;

/// Finds the row of a number in those of a library: a number, a service, and from where it may be
/// called.
macro_rules! find_row {
    ($number:ident $library:ident $services:ident {
        $($row:literal $service:ident $context:ident)*
    }) => {
        match $number {
            $($row => Some(Row {
                service: Service::$library($services::$service),
                context: Context::$context,
            }),)*
            _ => None,
        }
    };
}

/// Finds the service of a number of `loadcore` (ps2sdk's loadcore.h).
fn loadcore(number: u32) -> Option<Row>
    ensures { result ≡ find_row number loadcore }
{
    find_row!(number Loadcore LoadcoreService {
        4 FlushIcache Both
        5 FlushDcache Both
        6 RegisterLibraryEntries Thread
        7 ReleaseLibraryEntries Thread
    })
}

/// Finds the service of a number of `sysmem` (ps2sdk's sysmem.h).
fn sysmem(number: u32) -> Option<Row>
    ensures { result ≡ find_row number sysmem }
{
    find_row!(number Sysmem SysmemService {
        4 AllocSysMemory Both
        5 FreeSysMemory Both
        6 QueryMemSize Both
        7 QueryMaxFreeMemSize Both
        8 QueryTotalFreeMemSize Both
        9 QueryBlockTopAddress Both
        10 QueryBlockSize Both
        14 Kprintf Both
    })
}

/// Finds the service of a number of `intrman` (ps2sdk's intrman.h).
fn intrman(number: u32) -> Option<Row>
    ensures { result ≡ find_row number intrman }
{
    find_row!(number Intrman IntrmanService {
        4 RegisterIntrHandler Thread
        5 ReleaseIntrHandler Thread
        6 EnableIntr Both
        7 DisableIntr Both
        8 CpuDisableIntr Both
        9 CpuEnableIntr Both
        17 CpuSuspendIntr Both
        18 CpuResumeIntr Both
        23 QueryIntrContext Both
    })
}

/// Finds the service of a number of `thbase` (ps2sdk's thbase.h).
fn thbase(number: u32) -> Option<Row>
    ensures { result ≡ find_row number thbase }
{
    find_row!(number Thbase ThbaseService {
        4 CreateThread Thread
        5 DeleteThread Thread
        6 StartThread Thread
        8 ExitThread Thread
        9 ExitDeleteThread Thread
        10 TerminateThread Thread
        11 TerminateThread Handler
        12 DisableDispatchThread Thread
        13 EnableDispatchThread Thread
        14 ChangeThreadPriority Thread
        15 ChangeThreadPriority Handler
        16 RotateThreadReadyQueue Thread
        17 RotateThreadReadyQueue Handler
        18 ReleaseWaitThread Thread
        19 ReleaseWaitThread Handler
        20 GetThreadId Thread
        22 ReferThreadStatus Thread
        23 ReferThreadStatus Handler
        24 SleepThread Thread
        25 WakeupThread Thread
        26 WakeupThread Handler
        27 CancelWakeupThread Thread
        28 CancelWakeupThread Handler
        29 SuspendThread Thread
        30 SuspendThread Handler
        31 ResumeThread Thread
        32 ResumeThread Handler
        33 DelayThread Thread
        34 GetSystemTime Both
        35 SetAlarm Thread
        36 SetAlarm Handler
        37 CancelAlarm Thread
        38 CancelAlarm Handler
        39 USec2SysClock Both
        40 SysClock2USec Both
    })
}

/// Finds the service of a number of `thsemap` (ps2sdk's thsemap.h).
fn thsemap(number: u32) -> Option<Row>
    ensures { result ≡ find_row number thsemap }
{
    find_row!(number Thsemap ThsemapService {
        4 CreateSema Thread
        5 DeleteSema Thread
        6 SignalSema Thread
        7 SignalSema Handler
        8 WaitSema Thread
        9 PollSema Thread
        11 ReferSemaStatus Thread
        12 ReferSemaStatus Handler
    })
}

/// Finds the service of a number of `thevent` (ps2sdk's thevent.h).
fn thevent(number: u32) -> Option<Row>
    ensures { result ≡ find_row number thevent }
{
    find_row!(number Thevent TheventService {
        4 CreateEventFlag Thread
        5 DeleteEventFlag Thread
        6 SetEventFlag Thread
        7 SetEventFlag Handler
        8 ClearEventFlag Thread
        9 ClearEventFlag Handler
        10 WaitEventFlag Thread
        11 PollEventFlag Thread
        13 ReferEventFlagStatus Thread
        14 ReferEventFlagStatus Handler
    })
}

/// Finds the service of a number of `thmsgbx` (ps2sdk's thmsgbx.h).
fn thmsgbx(number: u32) -> Option<Row>
    ensures { result ≡ find_row number thmsgbx }
{
    find_row!(number Thmsgbx ThmsgbxService {
        4 CreateMbx Thread
        5 DeleteMbx Thread
        6 SendMbx Thread
        7 SendMbx Handler
        8 ReceiveMbx Thread
        9 PollMbx Thread
        11 ReferMbxStatus Thread
        12 ReferMbxStatus Handler
    })
}

/// Finds the service of a number of `stdio` (ps2sdk's stdio.h).
fn stdio(number: u32) -> Option<Row>
    ensures { result ≡ find_row number stdio }
{
    find_row!(number Stdio StdioService {
        4 Printf Both
    })
}

/// Finds the service of a number of `thvpool`. The names are those of ps2sdk's thvpool.h, the numbers
/// this project's own.
fn thvpool(number: u32) -> Option<Row>
    ensures { result ≡ find_row number thvpool }
{
    find_row!(number Thvpool ThvpoolService {
        4 CreateVpl Thread
        5 DeleteVpl Thread
        6 AllocateVpl Thread
        7 PAllocateVpl Both
        8 FreeVpl Thread
        9 FreeVpl Handler
        11 ReferVplStatus Thread
        12 ReferVplStatus Handler
    })
}

/// Finds the service of a number of `thfpool`. The names are those of ps2sdk's thfpool.h, the numbers
/// this project's own.
fn thfpool(number: u32) -> Option<Row>
    ensures { result ≡ find_row number thfpool }
{
    find_row!(number Thfpool ThfpoolService {
        4 CreateFpl Thread
        5 DeleteFpl Thread
        6 AllocateFpl Thread
        7 PAllocateFpl Both
        8 FreeFpl Thread
        9 FreeFpl Handler
        11 ReferFplStatus Thread
        12 ReferFplStatus Handler
    })
}

/// Finds the service of a number of `sysclib`. The names are those of ps2sdk's sysclib.h, the numbers
/// this project's own.
fn sysclib(number: u32) -> Option<Row>
    ensures { result ≡ find_row number sysclib }
{
    find_row!(number Sysclib SysclibService {
        10 Memchr Both
        11 Memcmp Both
        12 Memcpy Both
        13 Memmove Both
        14 Memset Both
        17 Bzero Both
        19 Sprintf Both
        20 Strcat Both
        21 Strchr Both
        22 Strcmp Both
        23 Strcpy Both
        27 Strlen Both
        29 Strncmp Both
        30 Strncpy Both
        32 Strrchr Both
        36 Strtol Both
    })
}

/// Finds the service of a number of a kernel library, 0 to 10 in the order of `KERNEL_LIBRARIES` of
/// iop_base. None exactly where the library lists no such number, or there is no such library.
pub fn row_of(library: u32, number: u32) -> Option<Row>
    ensures { result ≡ row_of library number }
{
    match library {
        LOADCORE => loadcore(number),
        SYSMEM => sysmem(number),
        INTRMAN => intrman(number),
        THBASE => thbase(number),
        THSEMAP => thsemap(number),
        THEVENT => thevent(number),
        THMSGBX => thmsgbx(number),
        STDIO => stdio(number),
        THVPOOL => thvpool(number),
        THFPOOL => thfpool(number),
        SYSCLIB => sysclib(number),
        _ => None,
    }
}
