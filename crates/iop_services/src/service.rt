use crate::intrman_service::IntrmanService;
use crate::loadcore_service::LoadcoreService;
use crate::stdio_service::StdioService;
use crate::sysclib_service::SysclibService;
use crate::sysmem_service::SysmemService;
use crate::thbase_service::ThbaseService;
use crate::thevent_service::TheventService;
use crate::thfpool_service::ThfpoolService;
use crate::thmsgbx_service::ThmsgbxService;
use crate::thsemap_service::ThsemapService;
use crate::thvpool_service::ThvpoolService;

/// What a call of a kernel library asks for. The names are ps2sdk's; a service that has one number for
/// threads and one for handlers, whose name there begins with `i`, is one.
#[derive(Clone, Copy, Debug, PartialEq, Eq)]
pub enum Service {
    /// A service of `loadcore`.
    Loadcore(LoadcoreService),
    /// A service of `sysmem`.
    Sysmem(SysmemService),
    /// A service of `intrman`.
    Intrman(IntrmanService),
    /// A service of `thbase`.
    Thbase(ThbaseService),
    /// A service of `thsemap`.
    Thsemap(ThsemapService),
    /// A service of `thevent`.
    Thevent(TheventService),
    /// A service of `thmsgbx`.
    Thmsgbx(ThmsgbxService),
    /// A service of `stdio`.
    Stdio(StdioService),
    /// A service of `thvpool`.
    Thvpool(ThvpoolService),
    /// A service of `thfpool`.
    Thfpool(ThfpoolService),
    /// A service of `sysclib`.
    Sysclib(SysclibService),
}
