// The bytes of a reader, in a lent buffer.
#![tactic(auto)]

ghost use Rattle.std.specs.Prelude.{◌≡◌, ◌⊎◌, ◌≤◌, length, take, OnOk};
ghost use Rattle.std.specs.Io.KnownBytes.{Consumes, IsAtEnd};

use std::io;
use std::io::{Error, ErrorKind, Read};

// Reads until the buffer is full or nothing more comes, and answers how many bytes came; or until a read fails, which it answers beside
// the bytes that came before. A read that a signal interrupts is made again.
// Kept: a pair, since bytes may have come before a read that fails; and a range without end, since only the reader says how often it is asked.
pub fn read_full<R: Read>(reader: &mut R, bytes: &mut [u8]) -> (usize, io::Result<()>)
    ensures within { result.0 ≤ length bytes.new }
    ensures consumed { Consumes (R.remaining reader.old) (R.remaining reader.new) (take result.0 bytes.new) }
    ensures whole { OnOk result.1 ((result.0 ≡ length bytes.new) ⊎ IsAtEnd (R.remaining reader.new)) }
{
    let mut got = 0;
    for _ in 0..u64::MAX {
        if got >= bytes.len() {
            return (got, Ok(()));
        }
        match reader.read(&mut bytes[got..]) {
            Ok(0) => return (got, Ok(())),
            Ok(more) => got += more,
            Err(error) => {
                if error.kind() != ErrorKind::Interrupted {
                    return (got, Err(error));
                }
            }
        }
    }
    (got, Err(Error::from(ErrorKind::Interrupted)))
}
