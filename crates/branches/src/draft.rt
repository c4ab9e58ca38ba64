// An encoding with its displacement left out, held by value.
ghost use Rattle.std.specs.Prelude.{◌≡◌, ◌≤◌, length};
ghost use Rattle.encoder.specs.Laid.{laid};
ghost use Rattle.branches.specs.Drafted.{opcode_bytes, bare, drafted};

use encoder::Layout;
use x86::ConstantOffsets;

// All bytes between the prefix and the field, a case for each number of them: with the number in its type, an opcode would
// give drafts of other types, and the kit's vector of fixed capacity is not copied.
#[derive(Clone, Copy)]
pub enum Opcode {
    Empty,
    One([u8; 1]),
    Two([u8; 2]),
    Three([u8; 3]),
    Four([u8; 4]),
}

impl Opcode {
    pub fn as_slice(&self) -> &[u8]
        ensures value { result.now ≡ opcode_bytes self.now }
        ensures fits { length result.now ≤ 4 }
    {
        match self {
            Opcode::Empty => &[],
            Opcode::One(bytes) => bytes,
            Opcode::Two(bytes) => bytes,
            Opcode::Three(bytes) => bytes,
            Opcode::Four(bytes) => bytes,
        }
    }
}

// Contracts read it by `drafted`: it is copied and its fields are open, so it is no model of the bytes.
#[derive(Clone, Copy)]
pub struct Draft {
    pub prefix: Option<u8>,
    pub opcode: Opcode,
    // the byte behind the field
    pub last: Option<u8>,
    pub constants: ConstantOffsets,
}

impl Draft {
    pub fn layout(&self) -> Layout<'_>
        ensures { laid result ≡ drafted self.now }
    {
        Layout {
            prefixes: self.prefix.as_slice(),
            opcode: self.opcode.as_slice(),
            tail: self.last.as_slice(),
            constants: self.constants,
        }
    }
}

// An opcode alone, with no constants.
impl From<Opcode> for Draft {
    ghost from_gives = { λ opcode draft. draft ≡ bare opcode };

    fn from(opcode: Opcode) -> Draft {
        Draft {
            prefix: None,
            opcode,
            last: None,
            constants: ConstantOffsets::none(),
        }
    }
}
