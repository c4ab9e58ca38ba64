// The displacement that reaches a target.
ghost use Rattle.std.specs.Prelude.{◌≡◌, ◌+◌};
ghost use Rattle.std.specs.Int.{cast_signed};
ghost use Rattle.x86.specs.Widths.{span, low};
ghost use Rattle.encoder.specs.Fields.{displacement};

use x86::Width;

// A number's low bits, signed.
fn signed_low(width: Width, x: u64) -> i64
    ensures { result ≡ cast_signed (span width) (low width x) }
{
    match width {
        Width::Bits16 => ((x & 0xFFFF) as u16).cast_signed().into(),
        Width::Bits32 => ((x & 0xFFFF_FFFF) as u32).cast_signed().into(),
        Width::Bits64 => x.cast_signed(),
    }
}

// The target minus the address behind `size` bytes at `address`, reduced to the width, signed.
pub fn displacement_to(width: Width, target: u64, address: u64, size: usize) -> i64
    ensures { result ≡ displacement width target (address + size) }
{
    let next = address.wrapping_add(size as u64);
    signed_low(width, target.wrapping_sub(next))
}
