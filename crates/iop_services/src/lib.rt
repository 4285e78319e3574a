//! The services of the kernel's libraries: their codes, and the table of their numbers.
#![tactic(auto)]

mod codes;
mod context;
mod intrman_service;
mod loadcore_service;
mod row;
mod service;
mod stdio_service;
mod sysclib_service;
mod sysmem_service;
mod table;
mod thbase_service;
mod thevent_service;
mod thfpool_service;
mod thmsgbx_service;
mod thsemap_service;
mod thvpool_service;

pub use codes::{
    INTRMAN, LIBRARY_CODES, LOADCORE, SERVICES, STDIO, SYSCLIB, SYSMEM, THBASE, THEVENT, THFPOOL,
    THMSGBX, THSEMAP, THVPOOL, service_code,
};
pub use context::Context;
pub use intrman_service::IntrmanService;
pub use loadcore_service::LoadcoreService;
pub use row::Row;
pub use service::Service;
pub use stdio_service::StdioService;
pub use sysclib_service::SysclibService;
pub use sysmem_service::SysmemService;
pub use table::row_of;
pub use thbase_service::ThbaseService;
pub use thevent_service::TheventService;
pub use thfpool_service::ThfpoolService;
pub use thmsgbx_service::ThmsgbxService;
pub use thsemap_service::ThsemapService;
pub use thvpool_service::ThvpoolService;
