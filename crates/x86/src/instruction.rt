// One instruction of the code that is moved, as its reader describes it.
ghost use Rattle.x86.specs.Bitness.{Denotes};

use thiserror::Error;

#[derive(Clone, Copy, PartialEq, Eq, Debug)]
pub enum Family {
    // a jump on a condition
    Jcc,
    Jmp,
    Call,
    // an instruction with a memory operand relative to RIP or EIP
    Memory,
    // an instruction whose bytes do not depend on where it stands
    Plain,
    // anything else: no encoder knows it
    Other,
}

// How far a branch can reach: its displacement has 8 bits, or 16 or 32.
#[derive(Clone, Copy, PartialEq, Eq, Debug)]
pub enum Form {
    Short,
    Near,
}

// A number of bits: the bitness of code, or the width of an instruction.
#[derive(Clone, Copy, PartialEq, Eq, Debug)]
pub enum Width {
    Bits16,
    Bits32,
    Bits64,
}

// A number of bits that no code and no instruction has.
#[derive(Clone, Copy, PartialEq, Eq, Debug, Error)]
#[error("{0} is none of 16, 32 and 64")]
pub struct UnknownWidth(pub u64);

impl TryFrom<u64> for Width {
    type Error = UnknownWidth;

    ghost try_from_gives = { Denotes };

    fn try_from(bits: u64) -> Result<Width, UnknownWidth> {
        match bits {
            16 => Ok(Width::Bits16),
            32 => Ok(Width::Bits32),
            64 => Ok(Width::Bits64),
            _ => Err(UnknownWidth(bits)),
        }
    }
}

#[derive(Clone, Copy, PartialEq, Eq, Debug)]
pub struct Instruction {
    pub family: Family,
    // of a jcc: o, no, b, ae, e, ne, be, a, s, ns, p, np, l, ge, le, g from 0; its lowest bit negates it. It is no enum, since
    // a number past 15 has an answer too: no size.
    pub condition: u8,
    pub form: Form,
    // of a branch its operand size; of a memory operand 64 for base RIP, 32 for base EIP
    pub width: Width,
    // which instruction of the family it is: a number, since each encoder numbers its own
    pub body: u32,
    pub old_address: u64,
    // where a branch goes or a memory operand points, in its low `width` bits
    pub target: u64,
}
