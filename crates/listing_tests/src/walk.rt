// A listing, followed line by line, held to a table of answers.
use crate::follow::{Follow, holds};
use listing::Listing;
use std::alloc::Global;
use std::test::Fail;
use text::show::Address;

// What a listing answers to its lines, worked out from Intel's manual: the address with the bytes and their constants or
// why there are none, or where the listing then stands. A line with an answer is asked where the lines without one have
// brought the listing.
const WALK: &str = "
# Lines that move it and lines that don't.
 => at 0x0
# => at 0x0
bits 16 => at 0x0
at 007 => at 0x7
at 0xaBc => at 0xABC
 at 18446744073709551615 => at 0xFFFFFFFFFFFFFFFF
1 push 255 => 0x0 refused no size
1 plain 0xFFFFFFFF => 0x0 refused no size
1 jmp near 0x40 2 => 0x0 E9 FD FF FF FF constants 0,0,1,4,0,0
1 push => the line ends where a number is wanted
bits 0 => bitness 0 is none of 16, 32 and 64
bits 15 => bitness 15 is none of 16, 32 and 64
bits 17 => bitness 17 is none of 16, 32 and 64
bits 31 => bitness 31 is none of 16, 32 and 64
bits 33 => bitness 33 is none of 16, 32 and 64
bits 48 => bitness 48 is none of 16, 32 and 64
bits 63 => bitness 63 is none of 16, 32 and 64
bits 65 => bitness 65 is none of 16, 32 and 64
bits 128 => bitness 128 is none of 16, 32 and 64
bits 4294967295 => bitness 4294967295 is none of 16, 32 and 64
bits 0x100000020 => 4294967328 is above 4294967295

# An encoding moves the address on, round the end of the address space too, and a refusal leaves it.
at 0xFFFFFFFFFFFFFFFE
1 jmp short 64 0
1 nop => 0x0 90 constants 0,0,0,0,0,0
1 jmp short 64 0x1000
1 nop => 0x0 90 constants 0,0,0,0,0,0
1 ret
1 nop => 0x1 90 constants 0,0,0,0,0,0
";

impl Follow for Listing {
    fn told(&mut self, heap: Global, line: &str) -> Result<Result<String, String>, Fail> {
        Ok(match self.follow(line) {
            Ok(Some(answer)) => Ok(format!(in heap; " {answer}")?),
            Ok(None) => Ok(format!(in heap; " at {}", Address(self.progress.address))?),
            Err(problem) => Err(format!(in heap; " {problem}")?),
        })
    }
}

#[test]
fn walk_holds(rt: HostRuntime) -> Result<(), Fail> {
    holds(&rt, Listing::new(), WALK)
}
