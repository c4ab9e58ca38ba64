// The words of a line, read one after another.
ghost use Rattle.std.specs.Prelude.{◌≡◌, ℕ, List, length};
ghost use Rattle.std.specs.Iterator.{at_most};
ghost use Rattle.std.specs.Result.{result_ok};
ghost use Rattle.std.specs.Str.Iter.{split_whitespace_rest};
ghost use Rattle.text.specs.Phrases.{Worded, told, alone, meant};
ghost use Rattle.text.specs.Words.{words_of, Taken};

use crate::problem::{Problem, Wanted};
use crate::word::Word;
use std::marker::Model;
use std::str::SplitWhitespace;

#[derive(Drop)]
pub struct Words<'a> {
    rest: SplitWhitespace<'a>,
}

// In contracts these are the words that are still to be read.
impl<'a> Model for Words<'a> {
    ghost Value = { List (List ℕ) };

    ghost view = { λ words. words_of (split_whitespace_rest words.rest) };
}

impl<'a> Words<'a> {
    pub fn new(line: &'a str) -> Words<'a>
        ensures value { result ≡ words_of line.now }
    {
        Words {
            rest: line.split_whitespace(),
        }
    }

    pub fn word(&mut self, wanted: Wanted) -> Result<&'a str, Problem<'a>>
        ensures value { Worded self.old result self.new }
    {
        self.next().ok_or(Problem::Missing(wanted))
    }

    // The next word, by what it means: what is answered, with the words that are left (`told`).
    pub fn read<T: Word>(&mut self) -> Result<T, Problem<'a>>
        ensures value { told result self.new ≡ meant T.meaning self.old }
    {
        T::read(self.word(T::WANTED)?)
    }

    // Refuses a word that is left over.
    pub fn end(&mut self) -> Result<(), Problem<'a>>
        ensures value { result_ok result ≡ alone tt self.old }
    {
        match self.next() {
            None => Ok(()),
            Some(word) => Err(Problem::Unexpected(word)),
        }
    }
}

impl<'a> Iterator for Words<'a> {
    type Item = &'a str;

    ghost next_gives = { Taken };

    ghost remaining = { λ words. at_most (length words) };

    fn next(&mut self) -> Option<&'a str> {
        self.rest.next()
    }
}
