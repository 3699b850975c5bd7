// A reader that keeps the lent text and its place. Its methods are thin: the work is that of the functions on runs.
ghost use Rattle.std.specs.Prelude.{◌≡◌};
ghost use Rattle.reader.specs.Ahead.{RunReadIs};
ghost use Rattle.reader.specs.Held.{reader_at};

use crate::runs::{Run, read_run};
use ground::refusals::Refusal;

#[derive(Clone, Copy)]
pub struct Reader<'a> {
    pub text: &'a [u8],
    pub at: usize,
}

impl<'a> Reader<'a> {
    // A reader at the start of a text.
    pub fn begin(text: &'a [u8]) -> Reader<'a>
        ensures { result ≡ reader_at text.entry 0 }
    {
        Reader { text, at: 0 }
    }

    // The place where it stands.
    pub fn place(self) -> usize
        ensures { result ≡ self.entry.at }
    {
        self.at
    }

    // The run that stands there, with its bytes at the front of `bytes`.
    pub fn next_run<'b>(self, bytes: &'b mut [u8]) -> Result<Run, Refusal>
        ensures { RunReadIs self.entry.text.now self.entry.at bytes.old result bytes.new }
    {
        read_run(self.text, self.at, bytes)
    }

    // The reader at another place of the same text, as that after a run.
    pub fn moved(self, at: usize) -> Reader<'a>
        ensures { result ≡ reader_at self.entry.text at }
    {
        Reader {
            text: self.text,
            at,
        }
    }

    // The first run of a text, with its bytes at the front of `bytes`: a reader made, and asked once.
    pub fn first_run<'b>(text: &'a [u8], bytes: &'b mut [u8]) -> Result<Run, Refusal>
        ensures { RunReadIs text.entry.now 0 bytes.old result bytes.new }
    {
        Reader::begin(text).next_run(bytes)
    }
}
