// What any measure and any encoder mean, and how an encoding is laid out and written.
#![tactic(auto)]

ghost use Rattle.std.specs.Prelude.{◌≡◌, ℕ, Option};
ghost use Rattle.x86.specs.declared.instruction.Instruction.{Instruction};
ghost use Rattle.x86.specs.declared.instruction.Width.{Width};
ghost use Rattle.encoder.specs.Encodings.{Encoding, answered, stored};
ghost use Rattle.encoder.specs.Laws.{MeasureLaws, EncoderLaws};

pub mod displacement;
pub mod field;
pub mod layout;

pub use field::Field;
pub use layout::Layout;
use thiserror::Error;
use x86::{ConstantOffsets, Instruction, Width};

// No instruction has more bytes.
pub const LONGEST: usize = 15;

// Room for any encoding.
pub type Row = [u8; LONGEST];

// Why an encoder writes nothing.
#[derive(Clone, Copy, PartialEq, Eq, Debug, Error)]
pub enum Refusal {
    // it knows no encoding of the instruction in the form stated
    #[error("no size")]
    NoSize,
    // the displacement does not fit its field
    #[error("out of reach")]
    OutOfReach,
}

// What knows the size of each instruction in each form.
pub trait Measure {
    ghost bitness: { Self → Width };

    ghost sized: { Self → Instruction → Option ℕ };

    fn bitness(&self) -> Width
        ensures { result ≡ bitness self.now };

    // The size of the instruction in the form that it states, 1 to 15, or none.
    fn size(&self, ins: &Instruction) -> Option<usize>
        ensures { result ≡ sized self.now ins.now };

    ghost measures: { (e : Self) → MeasureLaws (bitness e) (sized e) };
}

// A measure that can also write.
pub trait Encoder: Measure {
    // what is written for an instruction, a target and an address
    ghost code: { Self → Instruction → ℕ → ℕ → Option Encoding };

    // Writes the instruction, with that target in place of its own, as it stands at the address: its bytes go to the
    // start of the row, whose rest stays. A refusal leaves the whole row. Instruction, target and address stand apart, since
    // the target need not be the instruction's own, and a struct of them would be built for one call; and the row is the
    // caller's, as memory is fixed.
    fn encode(
        &self,
        ins: &Instruction,
        target: u64,
        address: u64,
        row: &mut Row,
    ) -> Result<(ConstantOffsets, usize), Refusal>
        ensures answer { result ≡ answered (Self.Measure.sized self.now ins.now) (code self.now ins.now target address) }
        ensures after { row.new ≡ stored (code self.now ins.now target address) row.old };

    ghost encodes: { (e : Self) → EncoderLaws (Self.Measure.bitness e) (Self.Measure.sized e) (code e) };
}
