// An encoding with its displacement left out, and how it is written.
ghost use Rattle.std.specs.Prelude.{◌≡◌, Some};
ghost use Rattle.encoder.specs.Encodings.{answered, stored};
ghost use Rattle.encoder.specs.Layouts.{size_of, code_of};
ghost use Rattle.encoder.specs.Laid.{laid};

use crate::displacement::displacement_to;
use crate::{Field, LONGEST, Refusal, Row};
use x86::{ConstantOffsets, Instruction};

// The bytes before the field, in two parts, the bytes behind it, and what the encoding's constants are.
#[derive(Clone, Copy)]
pub struct Layout<'a> {
    pub prefixes: &'a [u8],
    pub opcode: &'a [u8],
    pub tail: &'a [u8],
    pub constants: ConstantOffsets,
}

impl Layout<'_> {
    // The size of the instruction so laid out, or none where it is not 1 to 15.
    pub fn size(&self, ins: &Instruction) -> Option<usize>
        ensures { result ≡ size_of ins.now (Some (laid self.now)) }
    {
        let around = self
            .prefixes
            .len()
            .saturating_add(self.opcode.len())
            .saturating_add(self.tail.len());
        let size = around.saturating_add(Field::of(ins).size());
        match size {
            1..=LONGEST => Some(size),
            _ => None,
        }
    }

    // Writes the instruction so laid out, or refuses and leaves the row.
    pub fn write(
        &self,
        ins: &Instruction,
        target: u64,
        address: u64,
        row: &mut Row,
    ) -> Result<(ConstantOffsets, usize), Refusal>
        ensures answer { result ≡ answered (size_of ins.now (Some (laid self.now))) (code_of ins.now (Some (laid self.now)) target address) }
        ensures after { row.new ≡ stored (code_of ins.now (Some (laid self.now)) target address) row.old }
    {
        let Some(size) = self.size(ins) else {
            return Err(Refusal::NoSize);
        };
        let field = Field::of(ins);
        let displacement = displacement_to(ins.width, target, address, size);
        if !field.holds(displacement) {
            return Err(Refusal::OutOfReach);
        }
        let bytes = displacement.to_le_bytes();
        let held = &bytes[..field.size()];
        // each part goes to the front of what is left of the row, one by one, since nothing is known of what a loop over
        // them has written
        let (part, rest) = row.split_at_mut(self.prefixes.len());
        part.copy_from_slice(self.prefixes);
        let (part, rest) = rest.split_at_mut(self.opcode.len());
        part.copy_from_slice(self.opcode);
        let (part, rest) = rest.split_at_mut(held.len());
        part.copy_from_slice(held);
        let (part, _) = rest.split_at_mut(self.tail.len());
        part.copy_from_slice(self.tail);
        Ok((self.constants, size))
    }
}
