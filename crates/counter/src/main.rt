//! The counter program: a sheet on standard input, one report on standard output.

#![tactic(auto)]

mod judge;

use fault::LIMIT;
use judge::judge;
use std::io;
use std::io::Read;

fn main(rt: HostRuntime) -> io::Result<()> {
    let mut bytes = Vec::new(rt.alloc());
    rt.stdin().take(LIMIT + 1).read_to_end(&mut bytes)?;
    match judge(&bytes) {
        Ok(report) => println!(rt; "{report}"),
        Err(refusal) => println!(rt; "{refusal}"),
    }
}
