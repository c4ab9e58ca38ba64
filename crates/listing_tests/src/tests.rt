// The field encoder and the reading of lines, held to tables of answers.
use crate::follow::{Follow, holds};
use crate::tables;
use encoder::{Encoder, LONGEST, Measure, Refusal};
use field_encoder::FieldEncoder;
use script::{Line, read_line};
use std::alloc::Global;
use std::test::Fail;
use text::show::Bytes;
use x86::Instruction;

// What a row holds before it is written to.
const MARK: u8 = 0xA5;

// An encoder, and the address of what it is to encode.
#[derive(Clone, Copy)]
struct Place {
    encoder: FieldEncoder,
    address: u64,
}

impl Place {
    fn start() -> Result<Place, Fail> {
        Ok(Place {
            encoder: FieldEncoder::new(64)?,
            address: 0,
        })
    }

    // What the encoder answers, as a table has it. The rest of the row stays, all of it where it refuses, and the size
    // is as told before.
    fn answer(&self, heap: Global, ins: &Instruction) -> Result<String, Fail> {
        let mut row = [MARK; LONGEST];
        let size = self.encoder.size(ins);
        match self.encoder.encode(ins, ins.target, self.address, &mut row) {
            Ok((constants, written)) => {
                if size != Some(written) || written > LONGEST {
                    return Err(Fail::new("another size than told"));
                }
                if row[written..] != [MARK; LONGEST][written..] {
                    return Err(Fail::new("the rest of the row is written"));
                }
                let bytes = Bytes(&row[0..written]);
                Ok(format!(in heap; "{bytes} constants {constants}")?)
            }
            Err(why) => {
                if row != [MARK; LONGEST] {
                    return Err(Fail::new("a refusal writes"));
                }
                if size.is_none() != (why == Refusal::NoSize) {
                    return Err(Fail::new("a refusal for another reason"));
                }
                Ok(format!(in heap; " {why}")?)
            }
        }
    }
}

impl Follow for Place {
    fn told(&mut self, heap: Global, line: &str) -> Result<Result<String, String>, Fail> {
        let told = match read_line(line) {
            Ok(None) => String::from_str(heap, " nothing")?,
            Ok(Some(Line::Bits(bits))) => match FieldEncoder::new(bits) {
                Ok(encoder) => {
                    self.encoder = encoder;
                    format!(in heap; " bits {bits}")?
                }
                Err(_) => return Ok(Err(String::from_str(heap, " no such bitness")?)),
            },
            Ok(Some(Line::At(address))) => {
                self.address = address;
                format!(in heap; " at {address}")?
            }
            Ok(Some(Line::Instruction(ins))) => self.answer(heap, &ins)?,
            Err(problem) => return Ok(Err(format!(in heap; " {problem}")?)),
        };
        Ok(Ok(told))
    }
}

#[test]
fn tables_hold(rt: HostRuntime) -> Result<(), Fail> {
    for table in [
        tables::CONDITIONS,
        tables::WIDTHS,
        tables::PLAIN,
        tables::OPERANDS,
        tables::SHORT,
        tables::NEAR,
        tables::WRAPPED,
        tables::UNLISTED,
        tables::LINES,
    ] {
        holds(&rt, Place::start()?, table)?;
    }
    Ok(())
}

// A listing cannot state these conditions.
#[test]
fn conditions_past_15(rt: HostRuntime) -> Result<(), Fail> {
    let Ok(Some(Line::Instruction(jump))) = read_line("1 jg near 64 0x2000") else {
        return Err(Fail::new("a line"));
    };
    let place = Place {
        address: 0x1000,
        ..Place::start()?
    };
    // 0x80 and 0x90 add up to 256 with the first opcodes
    for condition in [16, 0x80, 0x90, 0xFF] {
        let answer = place.answer(rt.alloc(), &Instruction { condition, ..jump })?;
        assert_eq!(rt; answer.as_str(), " no size");
    }
    Ok(())
}

#[test]
fn bitnesses(rt: HostRuntime) -> Result<(), Fail> {
    for bitness in [16, 32, 64] {
        assert!(rt; FieldEncoder::new(bitness).is_ok());
    }
    for bitness in [0, 15, 17, 31, 33, 48, 63, 65, 128, u32::MAX] {
        match FieldEncoder::new(bitness) {
            Ok(_) => return Err(Fail::new(bitness)),
            Err(unknown) => assert_eq!(rt; unknown.bitness, bitness),
        }
    }
    Ok(())
}
