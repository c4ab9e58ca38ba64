// Relative branches, jcc, jmp and call, as every encoder here writes them.
#![tactic(auto)]

mod draft;
mod relative;

pub use draft::{Draft, Opcode};
pub use relative::branch;
