// A line of a listing.
ghost use Rattle.std.specs.Prelude.{◌≡◌};
ghost use Rattle.std.specs.Result.{result_ok};
ghost use Rattle.script.specs.Lines.{body_in, branch_line, plain_line, operand_line, stated_in, instruction_of, line_of};
ghost use Rattle.text.specs.Phrases.{told};
ghost use Rattle.text.specs.Words.{words_of};

use crate::build;
use crate::mnemonic::{Mnemonic, has_register};
use bodies::{Kind, PlainKind};
use text::{Problem, Words};
use x86::{Family, Instruction};

#[derive(Clone, Copy)]
pub enum Line {
    // the bitness of the code from here on: a number, since there may be no encoder of it
    Bits(u32),
    // the address of what follows
    At(u64),
    Instruction(Instruction),
}

// A blank line and a comment are no line.
pub fn read_line(text: &str) -> Result<Option<Line>, Problem<'_>>
    ensures value { result_ok result ≡ line_of (words_of text.now) }
{
    let mut words = Words::new(text);
    let Some(first) = words.next() else {
        return Ok(None);
    };
    if first.starts_with('#') {
        return Ok(None);
    }
    let line = match first {
        "bits" => Line::Bits(words.read()?),
        "at" => Line::At(words.read()?),
        _ => return Ok(Some(Line::Instruction(read_instruction(text)?))),
    };
    words.end()?;
    Ok(Some(line))
}

// A line that begins with an old address.
fn read_instruction(text: &str) -> Result<Instruction, Problem<'_>>
    ensures value { result_ok result ≡ instruction_of (words_of text.now) }
{
    let mut words = Words::new(text);
    let old_address = words.read()?;
    let mnemonic = words.read()?;
    let instruction = stated(&mut words, mnemonic)?;
    words.end()?;
    Ok(Instruction {
        old_address,
        ..instruction
    })
}

// What the mnemonic and the words behind it state.
fn stated<'a>(words: &mut Words<'a>, mnemonic: Mnemonic) -> Result<Instruction, Problem<'a>>
    ensures value { told result words.new ≡ stated_in mnemonic words.old }
{
    // a match, since the mnemonics are a fixed list and each case carries what its step needs
    match mnemonic {
        Mnemonic::Jcc(condition) => branch(words, Family::Jcc, condition),
        Mnemonic::Jmp => branch(words, Family::Jmp, 0),
        Mnemonic::Call => branch(words, Family::Call, 0),
        Mnemonic::Plain(kind) => plain(words, kind),
        Mnemonic::Memory(kind) => {
            let low = words.read()?;
            operand(words, kind.body(low))
        }
        Mnemonic::RawPlain => Ok(build::plain(words.read()?)),
        Mnemonic::RawMemory => {
            let body = words.read()?;
            operand(words, body)
        }
        Mnemonic::Other => Ok(build::other()),
    }
}

fn branch<'a>(
    words: &mut Words<'a>,
    family: Family,
    condition: u8,
) -> Result<Instruction, Problem<'a>>
    ensures value { told result words.new ≡ branch_line family condition words.old }
{
    Ok(Instruction {
        family,
        condition,
        form: words.read()?,
        width: words.read()?,
        target: words.read()?,
        body: body(words)?,
        old_address: 0,
    })
}

fn body<'a>(words: &mut Words<'a>) -> Result<u32, Problem<'a>>
    ensures value { told result words.new ≡ body_in words.old }
{
    match words.next() {
        None => Ok(0),
        Some("body") => words.read(),
        Some(word) => Err(Problem::Unexpected(word)),
    }
}

fn plain<'a>(words: &mut Words<'a>, kind: PlainKind) -> Result<Instruction, Problem<'a>>
    ensures value { told result words.new ≡ plain_line kind words.old }
{
    if !has_register(kind) {
        return Ok(build::plain(kind.body(0)));
    }
    let register = words.read()?;
    Ok(build::plain(kind.body(register)))
}

fn operand<'a>(words: &mut Words<'a>, body: u32) -> Result<Instruction, Problem<'a>>
    ensures value { told result words.new ≡ operand_line body words.old }
{
    Ok(Instruction {
        family: Family::Memory,
        width: words.read()?,
        target: words.read()?,
        ..build::plain(body)
    })
}
