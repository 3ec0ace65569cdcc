// Reads a network file from standard input, and prints its rings, or the refusal. What is printed is the report's: here stand
// one read and one write.
#![tactic(auto)]

use std::io;
use std::io::Write;

fn main(rt: HostRuntime) -> io::Result<()> {
    let mut file = [0u8; report::FILE];
    let (got, _ended) = input::read_full(&mut rt.stdin(), &mut file);
    let mut out = [0u8; report::TEXT];
    let bytes = report::respond(&file[..got], &mut out);
    rt.stdout().write_all(&out[..bytes])
}
