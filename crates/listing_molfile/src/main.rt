// Reads a molfile from standard input, and prints the rings of its network, or the refusal. What is printed is the report's: here stand
// one read and one write. Of a longer file the first bytes are read.
// Kept: a program beside `listing`, from which it differs in a length and a call: a function of both would be longer than either.
#![tactic(auto)]

use std::io;
use std::io::Write;

fn main(rt: HostRuntime) -> io::Result<()> {
    let mut file = [0u8; report::MOLFILE];
    let (got, _ended) = input::read_full(&mut rt.stdin(), &mut file);
    let mut out = [0u8; report::TEXT];
    let bytes = report::respond_molfile(&file[..got], &mut out);
    rt.stdout().write_all(&out[..bytes])
}
