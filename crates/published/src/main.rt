// Compares the library with published tables: the sheet's opcode map, postbyte table and push boxes, transcribed by hand, and a sample of capstone's
// reading. Each file of data/ has lines of one length, so that a line is found by counting (harness/tables.py says how they were made). Beside each stands a
// damaged one, whose lines are right and, once for each digit of an answer, wrong in that digit: a comparison that does not look would count too few.
#![tactic(auto)]

mod capstone;
mod codes;
mod indexed;
mod lines;
mod lists;
mod opcodes;
mod pushes;

ghost use Rattle.std.specs.Prelude.{◌≡◌, ◌<◌, ◌/◌, length};

use std::io;
use std::rt::Files;

// How many lines were compared, and how many of them differ.
#[derive(Clone, Copy)]
struct Tally {
    compared: usize,
    differing: usize,
}

// The lines of a text, each of one width, held to what the library answers. Each is counted as it is compared; what is left over at the end is no line.
fn compare<F: Fn(&[u8]) -> bool>(text: &[u8], width: usize, differs: F) -> Tally
    requires wide { 0 < width }
    requires callable { F.IsAlwaysCallable differs }
    ensures { result.compared ≡ length text.now / width }
{
    let mut tally = Tally {
        compared: 0,
        differing: 0,
    };
    for line in text.chunks_exact(width) {
        tally.compared += 1;
        if differs(line) {
            tally.differing += 1;
        }
    }
    tally
}

fn say_tally(rt: &impl Print, name: &str, tally: Tally) -> io::Result<()> {
    println!(rt;
        "{name}: {} compared, {} differ",
        tally.compared, tally.differing
    )
}

// Compares the whole of a file, of at most 65,536 bytes.
fn report<F: Fn(&[u8]) -> bool>(
    rt: &(impl Files + Print),
    name: &str,
    width: usize,
    differs: F,
) -> io::Result<()>
    requires wide { 0 < width }
    requires callable { F.IsAlwaysCallable differs }
{
    let mut text = [0; 65536];
    let n = inputs::read_file(rt, name, &mut text)?;
    say_tally(rt, name, compare(&text[..n], width, differs))
}

fn tables(rt: &(impl Files + Print)) -> io::Result<()> {
    report(rt, "opcodes", opcodes::LINE, opcodes::differs)?;
    report(rt, "codes", codes::LINE, codes::differs)?;
    report(
        rt,
        "postbytes",
        indexed::LINE,
        |line| indexed::differs(line, 0x12, 0x34),
    )?;
    report(
        rt,
        "negatives",
        indexed::LINE,
        |line| indexed::differs(line, 0xFE, 0xDC),
    )?;
    report(rt, "pushes", pushes::LINE, pushes::differs)?;
    report(rt, "lists", lists::LINE, lists::differs)?;
    report(rt, "capstone", capstone::LINE, capstone::differs)
}

// Of these every damage must be counted.
fn damaged(rt: &(impl Files + Print)) -> io::Result<()> {
    report(rt, "damaged/opcodes", opcodes::LINE, opcodes::differs)?;
    report(rt, "damaged/codes", codes::LINE, codes::differs)?;
    report(
        rt,
        "damaged/postbytes",
        indexed::LINE,
        |line| indexed::differs(line, 0x12, 0x34),
    )?;
    report(
        rt,
        "damaged/negatives",
        indexed::LINE,
        |line| indexed::differs(line, 0xFE, 0xDC),
    )?;
    report(rt, "damaged/pushes", pushes::LINE, pushes::differs)?;
    report(rt, "damaged/lists", lists::LINE, lists::differs)?;
    report(rt, "damaged/capstone", capstone::LINE, capstone::differs)
}

fn main(rt: HostRuntime) -> io::Result<()> {
    tables(&rt)?;
    damaged(&rt)
}
