// The records that every layer shares, and what bytes mean by Intel's manual.
#![tactic(auto)]

ghost use Rattle.x86.specs.Examples.{ManualExamples};

pub mod constant_offsets;
pub mod instruction;

pub use constant_offsets::ConstantOffsets;
pub use instruction::{Family, Form, Instruction, UnknownWidth, Width};

// The manual's worked examples, read by the definitions that every encoder is held to.
pub fn manual_examples_hold()
    ensures { ManualExamples }
{}
