// Prints what a text on standard input says, read back: its listing. The listing is the library's; here it is only read and written.
#![tactic(auto)]

use std::io;
use std::io::{Error, ErrorKind, Stdout, Write};

// One byte more than a text may have, so that a longer one is seen to be longer.
const SPACE: usize = 65537;

// Writes the listing of a text. Where a write fails nothing more is written.
fn show(stdout: &mut Stdout, text: &[u8]) -> io::Result<()> {
    let mut out = [0; listing::ROOM];
    let n = listing::list_text(text, &mut out).unwrap();
    stdout.write_all(&out[..n])
}

// A read that fails prints no line of a listing: 01 has no number for it.
fn main(rt: HostRuntime) -> io::Result<()> {
    let mut text = [0; SPACE];
    let Ok(n) = inputs::read_full(&mut rt.stdin(), &mut text) else {
        return Err(Error::new(ErrorKind::Other, "standard input"));
    };
    show(&mut rt.stdout(), &text[..n])
}
