// Where a listing stands, and what it has counted.
ghost use Rattle.std.specs.Prelude.{◌≡◌};
ghost use Rattle.listing.specs.Answers.{answer_of};
ghost use Rattle.listing.specs.Moves.{start, moved};

use crate::answer::Answer;
use encoder::Encoder;
use std::fmt;
use x86::Instruction;

#[derive(Clone, Copy, Default)]
pub struct Progress {
    // of the next instruction
    pub address: u64,
    pub encoded: u64,
    pub refused: u64,
}

impl Progress {
    pub fn new() -> Progress
        ensures value { result ≡ start }
    {
        Progress::default()
    }

    // Encodes an instruction where the listing stands, and moves on.
    pub fn encode<E: Encoder>(&mut self, encoder: &E, ins: &Instruction) -> Answer
        ensures value { result ≡ answer_of (E.Measure.sized encoder.now) (E.Encoder.code encoder.now) ins.now self.old.address }
        ensures after { self.new ≡ moved self.old result }
    {
        let answer = Answer::at(self.address, encoder, ins);
        self.pass(&answer);
        answer
    }

    // Addresses wrap at 2^64, as the processor's do.
    fn pass(&mut self, answer: &Answer)
        ensures after { self.new ≡ moved self.old answer.now }
    {
        match &answer.outcome {
            Ok(encoded) => {
                self.address = self.address.wrapping_add(encoded.code.len() as u64);
                self.encoded = self.encoded.wrapping_add(1);
            }
            Err(_) => self.refused = self.refused.wrapping_add(1),
        }
    }
}

impl fmt::Display for Progress {
    fn fmt<W: fmt::Write>(&self, f: &mut fmt::Formatter<W>) -> fmt::Result {
        write!(f, "{} encoded, {} refused", self.encoded, self.refused)
    }
}
