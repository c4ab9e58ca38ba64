// The bytes of one encoding.
ghost use Rattle.std.specs.Prelude.{◌≡◌, ◌≤◌, length, take};
ghost use Rattle.listing.specs.Codes.{code_bytes, padded};

use encoder::{LONGEST, Row};

// At most 15 bytes, held by value and without a heap; the kit's vector of fixed capacity could not be copied. The bytes
// behind them are 0, so that a code is known whole by its bytes. Contracts read it by `code_bytes` and by no `impl Model`,
// since a struct around one is not copied when it is passed by value and used again.
#[derive(Clone, Copy)]
pub struct Code {
    row: Row,
    len: usize,
}

impl Code {
    // The first bytes of a row, all 15 where more are asked for.
    pub fn from_row(row: Row, len: usize) -> Code
        ensures value { code_bytes result ≡ take len row }
        ensures whole { result ≡ padded (take len row) }
    {
        let len = len.min(LONGEST);
        let mut code = Code {
            row: [0; LONGEST],
            len,
        };
        code.row[0..len].copy_from_slice(&row[0..len]);
        code
    }

    // `len` is at most 15 in every code, but no type says so: it is cut again, so that nothing is asked of callers.
    pub fn as_slice(&self) -> &[u8]
        ensures value { result.now ≡ code_bytes self.now }
        ensures fits { length result.now ≤ 15 }
    {
        &self.row[0..self.len.min(LONGEST)]
    }

    pub fn len(&self) -> usize
        ensures value { result ≡ length (code_bytes self.now) }
        ensures fits { result ≤ 15 }
    {
        self.as_slice().len()
    }
}
