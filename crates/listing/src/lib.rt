// A listing, followed line by line: the instructions that its lines state, encoded one after another.
#![tactic(auto)]

pub mod answer;
pub mod code;
pub mod listing;
pub mod progress;

pub use answer::{Answer, Encoded};
pub use code::Code;
pub use listing::Listing;
pub use progress::Progress;
