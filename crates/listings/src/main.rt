// Prints the listings of the texts in data/, one file after the other: each refusal, and the forms that a text may have.
#![tactic(auto)]

use std::io;
use std::rt::Files;

// One byte more than a text may have, so that a longer one is seen to be longer.
const SPACE: usize = 65537;

// Writes the name of a file, and the listing of the text in it.
fn report(rt: &(impl Files + Print), name: &str) -> io::Result<()> {
    let mut text = [0; SPACE];
    let n = inputs::read_file(rt, name, &mut text)?;
    let mut out = [0; listing::ROOM];
    let m = listing::list_text(&text[..n], &mut out).unwrap();
    rt.print(name)?;
    rt.print(":\n")?;
    rt.write_all(&out[..m])
}

// What a text may look like.
fn forms(rt: &(impl Files + Print)) -> io::Result<()> {
    report(rt, "example")?;
    report(rt, "no_instruction")?;
    report(rt, "no_last_line_end")?;
    report(rt, "lower_case")?;
    report(rt, "cr_lf")?;
    report(rt, "mixed")
}

// Where runs begin and end, and every shape of an instruction.
fn runs(rt: &(impl Files + Print)) -> io::Result<()> {
    report(rt, "several_runs")?;
    report(rt, "follows_on")?;
    report(rt, "same_address_twice")?;
    report(rt, "last_address")?;
    report(rt, "around_the_end")?;
    report(rt, "shapes")?;
    report(rt, "old_cartridge")
}

// 14 and 15.
fn unreadable(rt: &(impl Files + Print)) -> io::Result<()> {
    report(rt, "undefined_code")?;
    report(rt, "second_prefix")?;
    report(rt, "undefined_postbyte")?;
    report(rt, "extended_indirect_on_y")?;
    report(rt, "unequal_registers")?;
    report(rt, "cut_short")?;
    report(rt, "cut_in_a_pc_offset")?;
    report(rt, "lone_prefix")
}

// 16, 18 and 9.
fn refused(rt: &(impl Files + Print)) -> io::Result<()> {
    report(rt, "nothing")?;
    report(rt, "wrong_check")?;
    report(rt, "no_end_record")?;
    report(rt, "after_the_end")?;
    report(rt, "blank_line")?;
    report(rt, "lone_return")?;
    report(rt, "broken_and_beyond")?;
    report(rt, "beyond")?;
    report(rt, "longest")?;
    report(rt, "too_long")
}

fn main(rt: HostRuntime) -> io::Result<()> {
    forms(&rt)?;
    runs(&rt)?;
    unreadable(&rt)?;
    refused(&rt)
}
