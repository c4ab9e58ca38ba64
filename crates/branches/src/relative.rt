// Relative branches: jcc, jmp and call.
ghost use Rattle.std.specs.Prelude.{◌≡◌, [], ◌∷◌};
ghost use Rattle.std.specs.Option.{option_map};
ghost use Rattle.branches.specs.Drafted.{opcode_bytes, drafted};
ghost use Rattle.branches.specs.Shapes.{opcode_of, branch_bytes, branch_shape};

use crate::{Draft, Opcode};
use encoder::Field;
use x86::{ConstantOffsets, Family, Form, Instruction, Width};

// An opcode and its field, behind 66 where the width is not the bitness.
fn relative(bits: Width, ins: &Instruction, opcode: Opcode) -> Draft
    ensures { drafted result ≡ branch_bytes [] bits ins.now.width ins.now.form (opcode_bytes opcode) }
{
    let prefix = if bits == ins.width { None } else { Some(0x66) };
    let offset = (prefix.as_slice().len() + opcode.as_slice().len()) as u8;
    let size = Field::of_branch(ins.form, ins.width).size() as u8;
    Draft {
        prefix,
        constants: ConstantOffsets::none().with_immediate(offset, size),
        ..Draft::from(opcode)
    }
}

// The draft of a branch, whatever its body; none for another family, and where the bitness has no such branch.
pub fn branch(bits: Width, ins: &Instruction) -> Option<Draft>
    ensures { option_map drafted result ≡ branch_shape [] bits ins.now.family ins.now.condition ins.now.form ins.now.width }
{
    // 64-bit code has branches of width 64 alone, and no other code has one
    if (bits == Width::Bits64) != (ins.width == Width::Bits64) {
        return None;
    }
    let condition = ins.condition;
    let opcode = match (ins.family, ins.form) {
        (Family::Jcc, Form::Short) if condition <= 15 => Opcode::One([0x70 + condition]),
        (Family::Jcc, Form::Near) if condition <= 15 => Opcode::Two([0x0F, 0x80 + condition]),
        (Family::Jmp, Form::Short) => Opcode::One([0xEB]),
        (Family::Jmp, Form::Near) => Opcode::One([0xE9]),
        (Family::Call, Form::Near) => Opcode::One([0xE8]),
        _ => return None,
    };
    Some(relative(bits, ins, opcode))
}
