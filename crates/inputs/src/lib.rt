// Reads what the programs compare: a file, into a buffer that is lent.
#![tactic(auto)]

ghost use Rattle.std.specs.Prelude.{◌≡◌, IfOk, length};
ghost use Rattle.std.specs.Counts.{IsPrefixLen};

use std::io::Read;
use std::rt::Files;
use std::{fs, io};

// Reads until the buffer is full or the input ends, and returns how many bytes it put at the start of the buffer.
// Where a read fails, what the buffer holds is not said.
pub fn read_full(input: &mut impl Read, buf: &mut [u8]) -> io::Result<usize>
    ensures ok { IfOk result (λ n. IsPrefixLen n buf.new) }
    ensures kept { length buf.new ≡ length buf.old }
{
    let mut done: usize = 0;
    // No iterator: the next place hangs on how much was read.
    while done < buf.len() {
        let more = input.read(&mut buf[done..])?;
        if more == 0 {
            return Ok(done);
        }
        done += more;
    }
    Ok(done)
}

// The same of the file with that name.
pub fn read_file(rt: &impl Files, name: &str, buf: &mut [u8]) -> io::Result<usize>
    ensures ok { IfOk result (λ n. IsPrefixLen n buf.new) }
    ensures kept { length buf.new ≡ length buf.old }
{
    read_full(&mut fs::open(rt, name)?, buf)
}
