// A listing, followed line by line.
ghost use Rattle.std.specs.Prelude.{◌≡◌};
ghost use Rattle.std.specs.Result.{result_ok};
ghost use Rattle.script.specs.Lines.{line_of};
ghost use Rattle.text.specs.Words.{words_of};
ghost use Rattle.listing.specs.Steps.{opening, Stepped, Understood};

use crate::answer::Answer;
use crate::progress::Progress;
use encoder::Encoder;
use field_encoder::FieldEncoder;
use script::{Line, read_line};
use text::Problem;

#[derive(Clone, Copy)]
pub struct Listing {
    encoder: FieldEncoder,
    pub progress: Progress,
}

impl Listing {
    // In 64-bit code, at address 0.
    pub fn new() -> Listing
        ensures value { result ≡ opening }
    {
        Listing {
            encoder: FieldEncoder::new(64).unwrap(),
            progress: Progress::new(),
        }
    }

    // Does what the line says: an instruction is answered, `bits` and `at` move the listing, a line that cannot be read
    // changes nothing.
    pub fn follow<'a>(&mut self, text: &'a str) -> Result<Option<Answer>, Problem<'a>>
        ensures after { Stepped self.old (line_of (words_of text.now)) (result_ok result) self.new }
        ensures reads { Understood self.old (line_of (words_of text.now)) (result_ok result) }
    {
        self.step(text)
    }

    fn step<'a>(&mut self, text: &'a str) -> Result<Option<Answer>, Problem<'a>>
        ensures after { Stepped self.old (line_of (words_of text.now)) (result_ok result) self.new }
    {
        let Some(line) = read_line(text)? else {
            return Ok(None);
        };
        // a match, since a line is one of three things and each does something else
        match line {
            Line::Bits(bitness) => {
                let made = FieldEncoder::new(bitness);
                self.encoder = made.map_err(|_| Problem::UnknownBitness(bitness))?;
                Ok(None)
            }
            Line::At(address) => {
                self.progress.address = address;
                Ok(None)
            }
            Line::Instruction(ins) => Ok(Some(self.progress.encode(&self.encoder, &ins))),
        }
    }
}
