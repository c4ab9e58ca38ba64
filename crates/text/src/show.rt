// How a listing shows addresses and bytes.
use std::fmt;

// Upper-case hexadecimal after `0x`.
#[derive(Clone, Copy)]
pub struct Address(pub u64);

// Each byte as two upper-case digits behind a space, so that no bytes leave the word before them bare.
#[derive(Clone, Copy)]
pub struct Bytes<'a>(pub &'a [u8]);

impl fmt::Display for Address {
    fn fmt<W: fmt::Write>(&self, f: &mut fmt::Formatter<W>) -> fmt::Result {
        let address = self.0;
        write!(f, "0x{address:X}")
    }
}

impl fmt::Display for Bytes<'_> {
    fn fmt<W: fmt::Write>(&self, f: &mut fmt::Formatter<W>) -> fmt::Result {
        for byte in self.0 {
            write!(f, " {byte:02X}")?;
        }
        Ok(())
    }
}
