// The round trip: a list laid and written as a text, and whether a text of anyone's making reads back to a list.
#![tactic(auto)]

mod comparing;
mod writing;

ghost use Rattle.std.specs.Prelude.{◌≡◌, length};
ghost use Rattle.roundtrip.specs.Comparing.{compare_of};
ghost use Rattle.roundtrip.specs.LaidText.{laid_text, laid_buffer};

use comparing::compare_list;
use ground::refusals::Refusal;
use values::pages::Page;
use writing::write_laid;

// How a text compares with a list: whether all is equal, and how many leading instructions agree.
#[derive(Clone, Copy)]
pub struct Compared {
    pub equal: bool,
    pub place: usize,
}

// Whether the text's one run starts at the address and decodes under the page to the lengths and meanings of the list, whatever pages its records have; where
// not, `place` is the first that differs. Refused as laying with room enough refuses the list, then as the reader refuses the text. A run has at
// most 65,536 bytes.
pub fn compare(list: &[u16], address: u16, page: Page, text: &[u8]) -> Result<Compared, Refusal>
    ensures { result ≡ compare_of list.now address page text.now }
{
    let mut theirs = [0u8; 65536];
    compare_list(list, address, page, text, &mut theirs)
}

// Lays the list and writes its text to the front of a buffer. Refused as laying refuses it, then 9 where the buffer is too short; the buffer is then as it
// was. At most 1,024 instructions of five bytes are laid.
pub fn lay_text(list: &[u16], address: u16, out: &mut [u8]) -> Result<usize, Refusal>
    ensures answer { result ≡ laid_text list.now address (length out.old) }
    ensures buffer { out.new ≡ laid_buffer list.now address out.old }
{
    let mut bytes = [0u8; 5120];
    let mut values = [0u16; 10240];
    write_laid(list, address, &mut bytes, &mut values, out)
}
