// What a listing answers to an instruction.
ghost use Rattle.std.specs.Prelude.{◌≡◌};
ghost use Rattle.listing.specs.Answers.{answer_of};

use crate::code::Code;
use encoder::{Encoder, LONGEST, Refusal};
use std::fmt;
use text::show::{Address, Bytes};
use x86::{ConstantOffsets, Instruction};

#[derive(Clone, Copy)]
pub struct Encoded {
    pub code: Code,
    pub constants: ConstantOffsets,
}

#[derive(Clone, Copy)]
pub struct Answer {
    pub address: u64,
    pub outcome: Result<Encoded, Refusal>,
}

impl Answer {
    // Encodes the instruction as its line states it.
    pub fn at<E: Encoder>(address: u64, encoder: &E, ins: &Instruction) -> Answer
        ensures value { result ≡ answer_of (E.Measure.sized encoder.now) (E.Encoder.code encoder.now) ins.now address }
    {
        let mut row = [0; LONGEST];
        let written = encoder.encode(ins, ins.target, address, &mut row);
        let outcome = written.map(|(constants, size)| Encoded {
            code: Code::from_row(row, size),
            constants,
        });
        Answer { address, outcome }
    }
}

impl fmt::Display for Answer {
    fn fmt<W: fmt::Write>(&self, f: &mut fmt::Formatter<W>) -> fmt::Result {
        let address = Address(self.address);
        match &self.outcome {
            Ok(Encoded { code, constants }) => {
                write!(
                    f,
                    "{address}{} constants {constants}",
                    Bytes(code.as_slice())
                )
            }
            Err(why) => write!(f, "{address} refused {why}"),
        }
    }
}
