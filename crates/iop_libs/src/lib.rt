//! The services of the kernel's libraries `loadcore`, `sysmem` and `stdio`.
#![tactic(auto)]

mod loadcore;
mod stdio;
mod sysmem;

pub use loadcore::serve_loadcore;
pub use stdio::serve_stdio;
pub use sysmem::serve_sysmem;
