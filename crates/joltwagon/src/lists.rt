// A list of records, laid end to end.
ghost use Rattle.joltwagon.specs.Lists.{ListLaid};

use crate::sized::{hand_size, late_size};

// Lays the list into the front of a buffer. An answer's slice that is too short is found before anything is stored.
#[unsafe(no_mangle)]
pub extern "C" fn jw_lay(list: &[u16], address: u16, out: &mut [u8], answer: &mut [u16]) -> u8
    ensures { ListLaid list.now address out.old answer.old result out.new answer.new }
{
    if answer.len() < 4 {
        return late_size(laying::measure(list, address, out.len()));
    }
    hand_size(laying::lay(list, address, out), answer)
}
