// The field of an encoding that holds its displacement.
ghost use Rattle.std.specs.Prelude.{◌≡◌};
ghost use Rattle.encoder.specs.Fields.{branch_field, field_of, field_size, fits};

use x86::{Family, Form, Instruction, Width};

// `Absent` has a size and holds what it is asked to, so it is a field like the others, and no `None`.
#[derive(Clone, Copy)]
pub enum Field {
    Absent,
    Byte,
    Word,
    Double,
}

impl Field {
    // Plain bytes have none; short branches have a byte, near ones of width 16 a word, all else a double word.
    pub fn of(ins: &Instruction) -> Field
        ensures { result ≡ field_of ins.now }
    {
        match ins.family {
            Family::Jcc | Family::Jmp | Family::Call => Field::of_branch(ins.form, ins.width),
            Family::Memory => Field::Double,
            Family::Plain | Family::Other => Field::Absent,
        }
    }

    pub fn of_branch(form: Form, width: Width) -> Field
        ensures { result ≡ branch_field form width }
    {
        match (form, width) {
            (Form::Short, _) => Field::Byte,
            (Form::Near, Width::Bits16) => Field::Word,
            (Form::Near, Width::Bits32 | Width::Bits64) => Field::Double,
        }
    }

    // in bytes
    pub fn size(self) -> usize
        ensures { result ≡ field_size self }
    {
        match self {
            Field::Absent => 0,
            Field::Byte => 1,
            Field::Word => 2,
            Field::Double => 4,
        }
    }

    // Is the displacement one of the field's signed numbers?
    pub fn holds(self, displacement: i64) -> bool
        ensures { result ≡ fits self displacement }
    {
        match self {
            Field::Absent => true,
            Field::Byte => i8::try_from(displacement).is_ok(),
            Field::Word => i16::try_from(displacement).is_ok(),
            Field::Double => i32::try_from(displacement).is_ok(),
        }
    }
}
