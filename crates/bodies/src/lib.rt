// The plain and memory instructions that the field encoder's bodies number: a kind in bits 8 to 15, and a register or an
// immediate in bits 0 to 7.
#![tactic(auto)]

ghost use Rattle.std.specs.Prelude.{◌≡◌, ℕ, ◌+◌, ◌*◌, ◌/◌, ◌%◌, ◌<◌, Some, Option};
ghost use Rattle.bodies.specs.Kinds.{KindLaws, plain_kind, plain_number, plain_body, plain_laws, memory_kind, memory_number, memory_body, memory_laws};

// Instructions that a body numbers in its bits 8 to 15.
pub trait Kind: Copy {
    ghost kind_of: { ℕ → Option Self };

    ghost number_of: { Self → ℕ };

    ghost body_of: { Self → ℕ → ℕ };

    // The kind of that number, if one has it. It is no `TryFrom`, since a number without a kind is no error: such a body is
    // not listed.
    fn numbered(number: u32) -> Option<Self>
        ensures { result ≡ kind_of number };

    fn number(self) -> u8
        ensures { result ≡ number_of self };

    ghost laws: { KindLaws kind_of number_of body_of };

    // The body of that kind, with a register, an immediate or 0 in its low byte.
    final fn body(self, low: u8) -> u32
        ensures value { result ≡ body_of self low }
        ensures kind { kind_of (result / 0x100) ≡ Some self }
        ensures low { result % 0x100 ≡ low }
    {
        0x100 * u32::from(self.number()) + u32::from(low)
    }
}

#[derive(Clone, Copy)]
pub enum PlainKind {
    Nop,
    Ret,
    Int3,
    Push,
    Pop,
    // adds 1 to a register and leaves the flags: lea r, [r + 1]
    Step,
}

#[derive(Clone, Copy)]
pub enum MemoryKind {
    Load,
    Store,
    // lea
    Address,
    // with an immediate byte
    Compare,
}

impl Kind for PlainKind {
    ghost kind_of = { plain_kind };

    ghost number_of = { plain_number };

    ghost body_of = { plain_body };

    ghost laws = { plain_laws };

    fn numbered(number: u32) -> Option<PlainKind> {
        match number {
            0 => Some(PlainKind::Nop),
            1 => Some(PlainKind::Ret),
            2 => Some(PlainKind::Int3),
            3 => Some(PlainKind::Push),
            4 => Some(PlainKind::Pop),
            5 => Some(PlainKind::Step),
            _ => None,
        }
    }

    fn number(self) -> u8 {
        self as u8
    }
}

impl Kind for MemoryKind {
    ghost kind_of = { memory_kind };

    ghost number_of = { memory_number };

    ghost body_of = { memory_body };

    ghost laws = { memory_laws };

    fn numbered(number: u32) -> Option<MemoryKind> {
        match number {
            0 => Some(MemoryKind::Load),
            1 => Some(MemoryKind::Store),
            2 => Some(MemoryKind::Address),
            3 => Some(MemoryKind::Compare),
            _ => None,
        }
    }

    fn number(self) -> u8 {
        self as u8
    }
}
