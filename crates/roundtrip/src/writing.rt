// The text of a list that is laid.
ghost use Rattle.std.specs.Prelude.{◌≡◌, ◌≤◌, ◌*◌, length};
ghost use Rattle.ground.specs.Stores.{put};
ghost use Rattle.records.specs.Written.{written_of, buffer_of};
ghost use Rattle.records.specs.Objects.{byte_rows};
ghost use Rattle.roundtrip.specs.Demand.{object_for};
ghost use Rattle.roundtrip.specs.LaidText.{laid_text, laid_buffer};

use ground::buffers::store;
use ground::refusals::Refusal;
use laying::lay;
use records::write_text;

// Each byte as a value of 8 bits, in rows of two at the front of a table.
fn store_values(bytes: &[u8], values: &mut [u16])
    requires { length bytes.now ≤ 5120 }
    ensures { values.new ≡ put values.old 0 (byte_rows bytes.now) }
{
    for i in 0..bytes.len() {
        let value = bytes[i] as u16;
        store(values, 2 * i, value);
        store(values, 2 * i + 1, 8);
    }
}

// Writes one object with those bytes at that address; their values go to the scratch.
fn write_bytes(
    bytes: &[u8],
    address: u16,
    values: &mut [u16],
    out: &mut [u8],
) -> Result<usize, Refusal>
    requires { (length bytes.now ≤ 5120) × (2 * length bytes.now ≤ length values.old) }
    ensures value { result ≡ written_of (object_for address bytes.now) (byte_rows bytes.now) (length out.old) }
    ensures out_after { out.new ≡ buffer_of (object_for address bytes.now) (byte_rows bytes.now) out.old }
{
    let count = bytes.len();
    let end = 2 * count;
    store_values(bytes, values);
    let objects = [1, address, count as u16];
    write_text(&objects, &values[..end], out)
}

// The list is laid to one scratch, and its bytes go to the other as values.
pub(crate) fn write_laid(
    list: &[u16],
    address: u16,
    bytes: &mut [u8],
    values: &mut [u16],
    out: &mut [u8],
) -> Result<usize, Refusal>
    requires { (length bytes.old ≡ 5120) × (10240 ≤ length values.old) }
    ensures answer { result ≡ laid_text list.now address (length out.old) }
    ensures buffer { out.new ≡ laid_buffer list.now address out.old }
{
    let end = lay(list, address, bytes)?;
    write_bytes(&bytes[..end], address, values, out)
}
