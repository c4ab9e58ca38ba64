// Instructions whose bytes do not depend on where they stand.
ghost use Rattle.std.specs.Prelude.{◌≡◌, ◌≤◌};
ghost use Rattle.std.specs.Option.{option_map};
ghost use Rattle.branches.specs.Drafted.{drafted};
ghost use Rattle.field_shapes.specs.Shapes.{sole, stack, step, plain_shape};

use bodies::PlainKind;
use branches::{Draft, Opcode};
use x86::{ConstantOffsets, Width};

// One byte; the body's low byte is 0.
fn sole_byte(op: u8, low: u8) -> Option<Draft>
    ensures { option_map drafted result ≡ sole op low }
{
    if low != 0 {
        return None;
    }
    Some(Draft::from(Opcode::One([op])))
}

// push or pop of a register; 8 to 15 stand behind 41, in 64-bit code alone.
fn stack_byte(bits: Width, op: u8, r: u8) -> Option<Draft>
    requires { op ≤ 0x58 }
    ensures { option_map drafted result ≡ stack bits op r }
{
    match (bits, r) {
        (_, 0..=7) => Some(Draft::from(Opcode::One([op + r]))),
        (Width::Bits64, 8..=15) => Some(Draft::from(Opcode::Two([0x41, op + (r - 8)]))),
        _ => None,
    }
}

// lea r, [r + 1]; rsp and r12 as a base would need a SIB byte.
fn step_bytes(bits: Width, r: u8) -> Option<Draft>
    ensures { option_map drafted result ≡ step bits r }
{
    if bits != Width::Bits64 || r >= 16 || r % 8 == 4 {
        return None;
    }
    let rex = if r < 8 { 0x48 } else { 0x4D };
    Some(Draft {
        constants: ConstantOffsets::none().with_displacement(3, 1),
        ..Draft::from(Opcode::Four([rex, 0x8D, 0x40 + 9 * (r % 8), 0x01]))
    })
}

pub(crate) fn plain_bytes(bits: Width, kind: PlainKind, low: u8) -> Option<Draft>
    ensures { option_map drafted result ≡ plain_shape bits kind low }
{
    // a match, since the kinds are a fixed list and each step takes other arguments
    match kind {
        PlainKind::Nop => sole_byte(0x90, low),
        PlainKind::Ret => sole_byte(0xC3, low),
        PlainKind::Int3 => sole_byte(0xCC, low),
        PlainKind::Push => stack_byte(bits, 0x50, low),
        PlainKind::Pop => stack_byte(bits, 0x58, low),
        PlainKind::Step => step_bytes(bits, low),
    }
}
