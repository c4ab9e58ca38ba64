// The text of one line: its words, the numbers that they write, what can be wrong with it, and how answers are shown.
#![tactic(auto)]

pub mod number;
pub mod problem;
pub mod show;
pub mod word;
pub mod words;

pub use problem::{Problem, Wanted};
pub use word::Word;
pub use words::Words;
