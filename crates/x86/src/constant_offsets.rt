// Where an encoding holds its constants.
ghost use Rattle.std.specs.Prelude.{◌≡◌};
ghost use Rattle.x86.specs.Constants.{no_constants, with_displacement, with_immediate};

use std::fmt;

// Offset and size in bytes of the displacement and of up to two immediates. A size of 0, and no `Option`, says that there
// is none, since these are iced-x86's six numbers.
#[derive(Clone, Copy, PartialEq, Eq, Debug, Default)]
pub struct ConstantOffsets {
    pub displacement_offset: u8,
    pub displacement_size: u8,
    pub immediate_offset: u8,
    pub immediate_size: u8,
    pub immediate_offset2: u8,
    pub immediate_size2: u8,
}

impl ConstantOffsets {
    // Six zeros.
    pub fn none() -> ConstantOffsets
        ensures { result ≡ no_constants }
    {
        ConstantOffsets::default()
    }

    pub fn with_displacement(self, offset: u8, size: u8) -> ConstantOffsets
        ensures { result ≡ with_displacement self offset size }
    {
        ConstantOffsets {
            displacement_offset: offset,
            displacement_size: size,
            ..self
        }
    }

    // The first immediate. What it shares with `with_displacement` is a shape; the fields have other names.
    pub fn with_immediate(self, offset: u8, size: u8) -> ConstantOffsets
        ensures { result ≡ with_immediate self offset size }
    {
        ConstantOffsets {
            immediate_offset: offset,
            immediate_size: size,
            ..self
        }
    }
}

// Offset and size of the displacement, of the immediate and of the second immediate.
impl fmt::Display for ConstantOffsets {
    fn fmt<W: fmt::Write>(&self, f: &mut fmt::Formatter<W>) -> fmt::Result {
        let ConstantOffsets {
            displacement_offset,
            displacement_size,
            immediate_offset,
            immediate_size,
            immediate_offset2,
            immediate_size2,
        } = *self;
        write!(
            f,
            "{displacement_offset},{displacement_size},{immediate_offset},{immediate_size},{immediate_offset2},{immediate_size2}"
        )
    }
}
