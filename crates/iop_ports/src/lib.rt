//! The outside of the machine: the files that it reads and the sinks that it writes.
#![tactic(auto)]

mod calls;
mod count_sink;
mod disk_files;
mod disk_keep;
mod laws;
mod mem_files;
mod mem_keep;
mod mem_sink;
mod ports;
mod sending;
mod shelf;
mod stream_sink;
mod sure_files;
mod trickle_sink;

pub use count_sink::CountSink;
pub use disk_files::DiskFiles;
pub use disk_keep::DiskKeep;
pub use laws::creations_come_first;
pub use mem_files::MemFiles;
pub use mem_keep::MemKeep;
pub use mem_sink::MemSink;
pub use ports::{Failed, Files, Keep, Sink};
pub use sending::send;
pub use stream_sink::StreamSink;
pub use sure_files::SureFiles;
pub use trickle_sink::TrickleSink;
