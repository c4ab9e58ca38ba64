// What one word of a line can say.
ghost use Rattle.std.specs.Prelude.{◌≡◌, ℕ, List, Option};
ghost use Rattle.std.specs.Result.{result_ok};
ghost use Rattle.text.specs.Numbers.{number_of, number_up_to};
ghost use Rattle.text.specs.Tables.{form_of, width_named};

use crate::number::{number, number_up_to};
use crate::problem::{Problem, Wanted};
use x86::{Form, Width};

pub trait Word: Sized {
    // what a word means, none where it means nothing of this type
    ghost meaning: { List ℕ → Option Self };

    // what a line lacks that ends before the word
    const WANTED: Wanted;

    fn read(word: &str) -> Result<Self, Problem<'_>>
        ensures value { result_ok result ≡ meaning word.now };
}

impl Word for u64 {
    ghost meaning = { number_of };

    const WANTED: Wanted = Wanted::Number;

    fn read(word: &str) -> Result<u64, Problem<'_>> {
        number(word).ok_or(Problem::NotNumber(word))
    }
}

// Numbers of fewer bits: `number_up_to` refuses what the cast would cut. Each has an impl of its own, since one for all
// number types would overlap those below.
impl Word for u32 {
    ghost meaning = { number_up_to 0xFFFF_FFFF };

    const WANTED: Wanted = Wanted::Number;

    fn read(word: &str) -> Result<u32, Problem<'_>> {
        Ok(number_up_to(word, u64::from(u32::MAX))? as u32)
    }
}

impl Word for u8 {
    ghost meaning = { number_up_to 0xFF };

    const WANTED: Wanted = Wanted::Number;

    fn read(word: &str) -> Result<u8, Problem<'_>> {
        Ok(number_up_to(word, u64::from(u8::MAX))? as u8)
    }
}

impl Word for Form {
    ghost meaning = { form_of };

    const WANTED: Wanted = Wanted::Form;

    fn read(word: &str) -> Result<Form, Problem<'_>> {
        match word {
            "short" => Ok(Form::Short),
            "near" => Ok(Form::Near),
            _ => Err(Problem::UnknownForm(word)),
        }
    }
}

impl Word for Width {
    ghost meaning = { width_named };

    const WANTED: Wanted = Wanted::Number;

    fn read(word: &str) -> Result<Width, Problem<'_>> {
        Ok(Width::try_from(u64::read(word)?)?)
    }
}
