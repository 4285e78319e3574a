//! The types that every crate of the machine speaks in, and the words for numbers, places and
//! lines.
#![tactic(auto)]

mod blocks;
mod code;
mod guest_fault;
mod illegal;
mod kept;
pub mod laws;
mod libraries;
mod limits;
mod line;
mod lines;
mod numbers;
mod relocation_types;
mod stop;
mod strings;
mod width;
mod words;
mod write_fault;

pub use blocks::{BLOCK_UNIT, block_len};
pub use code::Code;
pub use guest_fault::GuestFault;
pub use illegal::Illegal;
pub use kept::Kept;
pub use libraries::KERNEL_LIBRARIES;
pub use limits::{LARGE_RAM, LAST_ID, MOST_WORKERS, SMALL_RAM};
pub use line::Line;
pub use lines::Lines;
pub use numbers::{half_at, high_half, sign_extended, word_at};
pub use relocation_types::{R_MIPS_26, R_MIPS_32, R_MIPS_HI16, R_MIPS_LO16, R_MIPS_NONE};
pub use stop::Stop;
pub use strings::{before_zero, first_zero};
pub use width::{Bad, Width};
pub use words::{EXPORT_MAGIC, IMPORT_MAGIC, JUMP_BACK, STUB_INDEX};
pub use write_fault::WriteFault;
