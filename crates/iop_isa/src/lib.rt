//! The instructions of the R3000, and the words that hold them.
//!
//! Two macros are exported beside the items below. `table!` hands the rows of the table of
//! instructions to a macro, and `select_row!` expands them to the choice of a word's row: a crate
//! that has something to do for each instruction writes what one row does.
#![tactic(auto)]

mod decoding;
mod encoding;
mod fields;
mod immediate;
mod instruction;
mod mnemonic;
mod naming;
mod opcode;
mod operands;
mod registers;
mod spelling;
mod table;
mod targets;

pub use decoding::decode;
pub use encoding::encode;
pub use fields::{Fields, field};
pub use immediate::signed_immediate;
pub use instruction::Inst;
pub use mnemonic::Mnemonic;
pub use naming::mnemonic_of;
pub use opcode::Opcode;
pub use operands::{Code20, Reg, Shift5, Target26};
pub use registers::REGISTER_NAMES;
pub use spelling::{Spelling, spelling_of};
pub use table::Operand;
pub use targets::{branch_target, jump_target};
