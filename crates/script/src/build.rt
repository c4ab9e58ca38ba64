// Instructions that state little. What a line leaves out is 0, near and 64 bits wide; the old address is put in later.
ghost use Rattle.std.specs.Prelude.{◌≡◌};
ghost use Rattle.script.specs.Built.{standing, unknown};

use x86::{Family, Form, Instruction, Width};

pub fn plain(body: u32) -> Instruction
    ensures value { result ≡ standing body }
{
    Instruction {
        family: Family::Plain,
        body,
        ..other()
    }
}

pub fn other() -> Instruction
    ensures value { result ≡ unknown }
{
    Instruction {
        family: Family::Other,
        condition: 0,
        form: Form::Near,
        width: Width::Bits64,
        body: 0,
        old_address: 0,
        target: 0,
    }
}
