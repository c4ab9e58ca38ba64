// Instructions with a memory operand relative to RIP or EIP.
ghost use Rattle.std.specs.Prelude.{◌≡◌, ◌+◌, length};
ghost use Rattle.std.specs.Option.{option_map, option_to_list};
ghost use Rattle.branches.specs.Drafted.{drafted};
ghost use Rattle.field_shapes.specs.Shapes.{base_prefix, moved, compared, memory_shape};

use bodies::MemoryKind;
use branches::{Draft, Opcode};
use x86::{ConstantOffsets, Width};

// 67 where the base is EIP.
fn base(width: Width) -> Option<u8>
    ensures { option_to_list result ≡ base_prefix width }
{
    match width {
        Width::Bits32 => Some(0x67),
        Width::Bits16 | Width::Bits64 => None,
    }
}

// load, store and address of a register
fn moved_register(width: Width, op: u8, r: u8) -> Option<Draft>
    ensures { option_map drafted result ≡ moved width op r }
{
    if r >= 16 {
        return None;
    }
    let rex = if r < 8 { 0x48 } else { 0x4C };
    let prefix = base(width);
    let offset = prefix.as_slice().len() as u8 + 3;
    Some(Draft {
        prefix,
        constants: ConstantOffsets::none().with_displacement(offset, 4),
        ..Draft::from(Opcode::Three([rex, op, 0x05 + 8 * (r % 8)]))
    })
}

// compare with an immediate byte, which stands behind the displacement
fn compared_byte(width: Width, immediate: u8) -> Draft
    ensures { drafted result ≡ compared width immediate }
{
    let prefix = base(width);
    let offset = prefix.as_slice().len() as u8 + 3;
    Draft {
        prefix,
        last: Some(immediate),
        constants: ConstantOffsets::none()
            .with_displacement(offset, 4)
            .with_immediate(offset + 4, 1),
        ..Draft::from(Opcode::Three([0x48, 0x83, 0x3D]))
    }
}

pub(crate) fn memory_operand(bits: Width, width: Width, kind: MemoryKind, low: u8) -> Option<Draft>
    ensures { option_map drafted result ≡ memory_shape bits width kind low }
{
    // 64-bit code alone has such operands
    if bits != Width::Bits64 || width == Width::Bits16 {
        return None;
    }
    // a match, since the kinds are a fixed list and each step takes other arguments
    match kind {
        MemoryKind::Load => moved_register(width, 0x8B, low),
        MemoryKind::Store => moved_register(width, 0x89, low),
        MemoryKind::Address => moved_register(width, 0x8D, low),
        MemoryKind::Compare => Some(compared_byte(width, low)),
    }
}
