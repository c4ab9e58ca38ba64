// Listings: what one line says.
#![tactic(auto)]

mod build;
mod line;
mod mnemonic;

pub use line::{Line, read_line};
