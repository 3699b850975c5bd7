// One instruction read, the next of a run, and how many a run has: each under a page, and 1 where its number is none.
ghost use Rattle.std.specs.Prelude.{◌≡◌, length};
ghost use Rattle.answers.specs.Said.{refusal_of, cells_after};
ghost use Rattle.joltwagon.specs.Decoding.{decoded_said, counted_said, decode_said, next_said, count_said};

use answers::{flag, hand, size};
use decoder::Decoded;
use ground::refusals::Refusal;
use values::pages::{Page, is_page};

fn hand_instruction(d: Decoded, answer: &mut [u16]) -> u8
    ensures value { result ≡ refusal_of (decoded_said (Ok d)) (length answer.old) }
    ensures answer_after { answer.new ≡ cells_after (decoded_said (Ok d)) answer.old }
{
    let meaning = d.meaning;
    let kind = meaning.kind;
    let parts = kind.in_parts();
    let cells = [
        d.length as u16,
        meaning.operation as u16,
        parts.kind as u16,
        flag(parts.indirect),
        parts.step as u16,
        parts.registers,
        parts.first as u16,
        parts.second as u16,
        parts.number,
    ];
    hand(0, &cells, answer)
}

fn hand_decoded(read: Result<Decoded, Refusal>, answer: &mut [u16]) -> u8
    ensures value { result ≡ refusal_of (decoded_said read) (length answer.old) }
    ensures answer_after { answer.new ≡ cells_after (decoded_said read) answer.old }
{
    match read {
        Ok(d) => hand_instruction(d, answer),
        Err(refusal) => refusal.number(),
    }
}

fn hand_count(counted: Result<usize, Refusal>, answer: &mut [u16]) -> u8
    ensures value { result ≡ refusal_of (counted_said counted) (length answer.old) }
    ensures answer_after { answer.new ≡ cells_after (counted_said counted) answer.old }
{
    match counted {
        Ok(count) => {
            let cells = size(count);
            hand(0, &cells, answer)
        }
        Err(refusal) => refusal.number(),
    }
}

// The instruction at the front of bytes that stand from an address on, read under a page.
#[unsafe(no_mangle)]
pub extern "C" fn jw_decode(bytes: &[u8], address: u16, page: u16, answer: &mut [u16]) -> u8
    ensures value { result ≡ refusal_of (decode_said bytes.now address page) (length answer.old) }
    ensures answer_after { answer.new ≡ cells_after (decode_said bytes.now address page) answer.old }
{
    if is_page(page) {
        let under = Page::numbered(page);
        return hand_decoded(decoder::decode(bytes, address, under), answer);
    }
    Refusal::Unknown as u8
}

// The instruction that begins at a place of a run, whose first byte stands at the address.
#[unsafe(no_mangle)]
pub extern "C" fn jw_next(
    bytes: &[u8],
    address: u16,
    page: u16,
    at: usize,
    answer: &mut [u16],
) -> u8
    ensures value { result ≡ refusal_of (next_said bytes.now address page at) (length answer.old) }
    ensures answer_after { answer.new ≡ cells_after (next_said bytes.now address page at) answer.old }
{
    if is_page(page) {
        let under = Page::numbered(page);
        return hand_decoded(decoder::next_of_run(bytes, address, under, at), answer);
    }
    Refusal::Unknown as u8
}

// How many instructions a run has, from its first byte to its last.
#[unsafe(no_mangle)]
pub extern "C" fn jw_count(bytes: &[u8], address: u16, page: u16, answer: &mut [u16]) -> u8
    ensures value { result ≡ refusal_of (count_said bytes.now address page) (length answer.old) }
    ensures answer_after { answer.new ≡ cells_after (count_said bytes.now address page) answer.old }
{
    if is_page(page) {
        let under = Page::numbered(page);
        return hand_count(decoder::count_run(bytes, address, under), answer);
    }
    Refusal::Unknown as u8
}
