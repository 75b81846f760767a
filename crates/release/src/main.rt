// The console program: standard input, no more of it than the console reads, to standard output.
#![tactic(auto)]

use console::{LIMIT, serve};
use std::io;
use std::io::{Read, Write};

fn main(rt: HostRuntime) -> io::Result<()> {
    let mut input = Vec::new(rt.alloc());
    rt.stdin().take(LIMIT as u64).read_to_end(&mut input)?;
    let output = serve(rt.alloc(), &input)?;
    rt.stdout().write_all(output.as_bytes())
}
