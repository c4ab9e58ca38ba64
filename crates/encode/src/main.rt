// Encodes the instructions of a listing, each as its line states it.
#![tactic(auto)]

use listing::Listing;
use std::io;
use std::io::{BufRead, BufReader};
use std::process::ExitCode;

fn main(rt: HostRuntime) -> io::Result<ExitCode> {
    let mut listing = Listing::new();
    for (place, line) in BufReader::new(rt.alloc(), rt.stdin())?
        .lines(rt.alloc())
        .enumerate()
    {
        let line = line?;
        match listing.follow(line.as_str()) {
            Ok(Some(answer)) => rt.println(answer)?,
            Ok(None) => {}
            Err(problem) => {
                let number = place + 1;
                eprintln!(rt; "line {number}: {problem}")?;
                return Ok(ExitCode::FAILURE);
            }
        }
    }
    rt.println(listing.progress)?;
    Ok(ExitCode::SUCCESS)
}
