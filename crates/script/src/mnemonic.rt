// The mnemonics.
ghost use Rattle.std.specs.Prelude.{◌≡◌};
ghost use Rattle.script.specs.Names.{condition_of, mnemonic_of, has_register};

use bodies::{MemoryKind, PlainKind};
use text::{Problem, Wanted, Word};

#[derive(Clone, Copy)]
pub enum Mnemonic {
    // the condition's number, as an instruction has it
    Jcc(u8),
    Jmp,
    Call,
    Plain(PlainKind),
    Memory(MemoryKind),
    // with a body of its own
    RawPlain,
    RawMemory,
    Other,
}

impl Word for Mnemonic {
    ghost meaning = { mnemonic_of };

    const WANTED: Wanted = Wanted::Mnemonic;

    fn read(word: &str) -> Result<Mnemonic, Problem<'_>> {
        if let Some(condition) = condition(word) {
            return Ok(Mnemonic::Jcc(condition));
        }
        match word {
            "jmp" => Ok(Mnemonic::Jmp),
            "call" => Ok(Mnemonic::Call),
            "nop" => Ok(Mnemonic::Plain(PlainKind::Nop)),
            "ret" => Ok(Mnemonic::Plain(PlainKind::Ret)),
            "int3" => Ok(Mnemonic::Plain(PlainKind::Int3)),
            "push" => Ok(Mnemonic::Plain(PlainKind::Push)),
            "pop" => Ok(Mnemonic::Plain(PlainKind::Pop)),
            "step" => Ok(Mnemonic::Plain(PlainKind::Step)),
            "load" => Ok(Mnemonic::Memory(MemoryKind::Load)),
            "store" => Ok(Mnemonic::Memory(MemoryKind::Store)),
            "address" => Ok(Mnemonic::Memory(MemoryKind::Address)),
            "compare" => Ok(Mnemonic::Memory(MemoryKind::Compare)),
            "plain" => Ok(Mnemonic::RawPlain),
            "memory" => Ok(Mnemonic::RawMemory),
            "other" => Ok(Mnemonic::Other),
            _ => Err(Problem::UnknownMnemonic(word)),
        }
    }
}

// Does the mnemonic want a register behind it?
pub fn has_register(kind: PlainKind) -> bool
    ensures value { result ≡ has_register kind }
{
    matches!(kind, PlainKind::Push | PlainKind::Pop | PlainKind::Step)
}

// The names of the conditions, in the order of the processor's manual.
const CONDITIONS: [&str; 16] = [
    "o", "no", "b", "ae", "e", "ne", "be", "a", "s", "ns", "p", "np", "l", "ge", "le", "g",
];

// A jump on a condition is called by a j and the condition's name, whose place in that order is the condition. A word
// without the j is compared with no name.
pub fn condition(word: &str) -> Option<u8>
    ensures value { result ≡ condition_of word.now }
{
    let name = word.strip_prefix("j")?;
    CONDITIONS
        .iter()
        .position(|&known| known == name)
        .map(|place| place as u8)
}
