// The instructions that bits 8 to 15 of a body number.
pub use bodies::{Kind, MemoryKind, PlainKind};
