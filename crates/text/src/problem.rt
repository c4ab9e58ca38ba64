// What can be wrong with a line.
ghost use Rattle.std.specs.Prelude.{◌≡◌};
ghost use Rattle.text.specs.declared.problem.Problem.TheVariants.{UnknownWidth};

use std::fmt;
use thiserror::Error;
use x86::UnknownWidth;

// What a line lacks where it ends.
#[derive(Clone, Copy, Debug)]
pub enum Wanted {
    Number,
    Mnemonic,
    Form,
}

// A problem shows the words of the line that it is about.
#[derive(Clone, Copy, Debug, Error)]
pub enum Problem<'a> {
    #[error("the line ends where a {0} is wanted")]
    Missing(Wanted),
    #[error("{0} is no number of 64 bits")]
    NotNumber(&'a str),
    #[error("{value} is above {most}")]
    TooLarge { value: u64, most: u64 },
    #[error("{0} is no mnemonic")]
    UnknownMnemonic(&'a str),
    #[error("form {0} is neither short nor near")]
    UnknownForm(&'a str),
    #[error("width {0} is none of 16, 32 and 64")]
    UnknownWidth(u64),
    #[error("bitness {0} is none of 16, 32 and 64")]
    UnknownBitness(u32),
    #[error("unexpected {0}")]
    Unexpected(&'a str),
}

// A word of a message, and no error by itself.
impl fmt::Display for Wanted {
    fn fmt<W: fmt::Write>(&self, f: &mut fmt::Formatter<W>) -> fmt::Result {
        f.write_str(match self {
            Wanted::Number => "number",
            Wanted::Mnemonic => "mnemonic",
            Wanted::Form => "form",
        })
    }
}

impl From<UnknownWidth> for Problem<'_> {
    ghost from_gives = { λ width problem. problem ≡ UnknownWidth width.0 };

    fn from(UnknownWidth(bits): UnknownWidth) -> Self {
        Problem::UnknownWidth(bits)
    }
}
