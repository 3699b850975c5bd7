// The exported library: every entry point for C and Rust, under the prefix jw_. A call returns its refusal, 0 for none. Above it the two that make
// passes return their number, and jw_why the field that the refusal is about. What else a call has to say goes into a lent slice of 16-bit cells
// (docs/ROWS.md). A refusal leaves everything lent as it was. The header is include/joltwagon.h.
#![tactic(auto)]

pub mod decoding;
pub mod evaluating;
pub mod explaining;
pub mod instructing;
mod kept;
pub mod lists;
pub mod placing;
pub mod settling;
mod sized;
pub mod texts;
