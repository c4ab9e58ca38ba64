// The field encoder: branches, and the plain and memory instructions that a body numbers.
#![tactic(auto)]

ghost use Rattle.std.specs.Prelude.{◌≡◌};
ghost use Rattle.std.specs.Option.{option_map};
ghost use Rattle.encoder.specs.Layouts.{size_of, code_of};
ghost use Rattle.branches.specs.Drafted.{drafted};
ghost use Rattle.field_encoder.specs.Makes.{made_by};
ghost use Rattle.field_shapes.specs.Shapes.{shape};
ghost use Rattle.encoder.proofs.ShapeLaws.{measure_laws, encoder_laws};
ghost use Rattle.field_shapes.proofs.FieldShapes.{field_shapes};

pub mod kinds;
mod memory;
mod plain;

use bodies::{Kind, MemoryKind, PlainKind};
use branches::{Draft, branch};
use encoder::{Encoder, Measure, Refusal, Row};
use memory::memory_operand;
use plain::plain_bytes;
use thiserror::Error;
use x86::{ConstantOffsets, Family, Instruction, Width};

#[derive(Clone, Copy)]
pub struct FieldEncoder {
    bits: Width,
}

// Refusal 1: a field encoder has 16, 32 or 64 bits, and not these. It is a type of its own, and holds what was asked for.
#[derive(Clone, Copy, PartialEq, Eq, Debug, Error)]
#[error("bitness {bitness} is none of 16, 32 and 64")]
pub struct UnknownBitness {
    pub bitness: u32,
}

impl FieldEncoder {
    pub fn new(bitness: u32) -> Result<FieldEncoder, UnknownBitness>
        ensures { result ≡ made_by bitness }
    {
        Width::try_from(u64::from(bitness))
            .map(|bits| FieldEncoder { bits })
            .map_err(|_| UnknownBitness { bitness })
    }

    // The encoding of an instruction with its displacement left out, if the body is listed.
    fn lay_out(&self, ins: &Instruction) -> Option<Draft>
        ensures { option_map drafted result ≡ shape self.now.bits ins.now }
    {
        let low = (ins.body % 0x100) as u8;
        let kind = ins.body / 0x100;
        let bits = self.bits;
        // a match, since the families are a fixed list and each step takes other arguments
        match ins.family {
            Family::Jcc | Family::Jmp | Family::Call if ins.body == 0 => branch(bits, ins),
            Family::Memory => memory_operand(bits, ins.width, MemoryKind::numbered(kind)?, low),
            Family::Plain => plain_bytes(bits, PlainKind::numbered(kind)?, low),
            _ => None,
        }
    }
}

impl Measure for FieldEncoder {
    ghost bitness = { λ e. e.bits };

    ghost sized = { λ e i. size_of i (shape e.bits i) };

    ghost measures = { λ e. measure_laws e.bits (shape e.bits) (field_shapes e.bits) };

    fn bitness(&self) -> Width {
        self.bits
    }

    fn size(&self, ins: &Instruction) -> Option<usize> {
        let draft = self.lay_out(ins)?;
        draft.layout().size(ins)
    }
}

impl Encoder for FieldEncoder {
    ghost code = { λ e i t a. code_of i (shape e.bits i) t a };

    ghost encodes = { λ e. encoder_laws e.bits (shape e.bits) (field_shapes e.bits) };

    fn encode(
        &self,
        ins: &Instruction,
        target: u64,
        address: u64,
        row: &mut Row,
    ) -> Result<(ConstantOffsets, usize), Refusal> {
        let draft = self.lay_out(ins).ok_or(Refusal::NoSize)?;
        draft.layout().write(ins, target, address, row)
    }
}
