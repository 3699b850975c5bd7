// Replays the fixed list of data/: what the Rust was seen to answer, and where it differs by a listed difference what document 01 says
// (harness/replay says how the list was made). Each file has a line for a piece of a case. Beside each stands a damaged one: a few cases that are right
// and, once for each digit of their answers, wrong in that digit. A comparison that does not look would count too few.
#![tactic(auto)]

mod builds;
mod evaluations;
mod labels;
mod lines;
mod starts;
mod state;
mod tables;
mod texts;

ghost use Rattle.std.specs.Prelude.{◌≡◌, length};

use state::{State, Tally};
use std::io;
use std::rt::Files;

fn say_differing(rt: &impl Print, n: u64, line: &[u8]) -> io::Result<()> {
    print!(rt; "line {n} differs: ")?;
    rt.write_all(line)?;
    println!(rt;)
}

// Reads the lines of a text, each by the file's own reading.
fn replay<F: FnMut(State, &[u8]) -> State>(
    rt: &impl Print,
    text: &[u8],
    mut read: F,
) -> io::Result<Tally>
    requires { F.IsAlwaysCallable read }
{
    let mut s = state::start();
    for whole in text.split_inclusive(|c| *c == b'\n') {
        let line = whole.strip_suffix(b"\n").unwrap_or(whole);
        let before = s.tally;
        s = read(s.entered(), line);
        if before.differing < s.tally.differing {
            say_differing(rt, s.line, line)?;
        }
    }
    Ok(s.tally)
}

// Room for the longest file of the list.
fn buffer() -> [u8; 600000]
    ensures { 600000 ≡ length result }
{
    [0; 600000]
}

fn say_tally(rt: &impl Print, name: &str, tally: Tally) -> io::Result<()> {
    println!(rt;
        "{name}: {} compared, {} of them by a listed difference, {} differ",
        tally.compared, tally.listed, tally.differing
    )
}

fn report<F: FnMut(State, &[u8]) -> State>(
    rt: &(impl Files + Print),
    name: &str,
    read: F,
) -> io::Result<()>
    requires { F.IsAlwaysCallable read }
{
    let mut text = buffer();
    let n = inputs::read_file(rt, name, &mut text)?;
    say_tally(rt, name, replay(rt, &text[..n], read)?)
}

// The two tables that a file's lines fill, and the text that is written of them.
fn report_texts(rt: &(impl Files + Print), name: &str) -> io::Result<()> {
    let mut objects = [0u16; 1030];
    let mut values = [0u16; 1030];
    let mut out = [0u8; 4096];
    report(rt, name, |s, line| {
        texts::read(s, line, &mut objects, &mut values, &mut out)
    })
}

fn report_segments(rt: &(impl Files + Print), name: &str) -> io::Result<()> {
    let mut starts = [0u16; 1030];
    report(rt, name, |s, line| starts::read(s, line, &mut starts))
}

fn report_evaluations(rt: &(impl Files + Print), name: &str) -> io::Result<()> {
    let mut nodes = [0u16; 1030];
    let mut labels = [0u16; 1030];
    report(rt, name, |s, line| {
        evaluations::read(s, line, &mut nodes, &mut labels)
    })
}

fn list(rt: &(impl Files + Print)) -> io::Result<()> {
    report(rt, "builds", builds::read)?;
    report_texts(rt, "texts")?;
    report(rt, "labels", labels::read)?;
    report_segments(rt, "segments")?;
    report_evaluations(rt, "evaluations")
}

// Of these every damage must be counted.
fn damaged(rt: &(impl Files + Print)) -> io::Result<()> {
    report(rt, "damaged/builds", builds::read)?;
    report_texts(rt, "damaged/texts")?;
    report(rt, "damaged/labels", labels::read)?;
    report_segments(rt, "damaged/segments")?;
    report_evaluations(rt, "damaged/evaluations")
}

fn main(rt: HostRuntime) -> io::Result<()> {
    list(&rt)?;
    damaged(&rt)
}
