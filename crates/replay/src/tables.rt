// The two tables that lines fill.
ghost use Rattle.std.specs.Prelude.{◌≤◌};
ghost use Rattle.std.specs.Counts.{IsPrefixLen};

use ground::buffers::store;

// Where the last row that a line stores may begin.
pub(crate) const ROOM: usize = 1024;

pub(crate) fn within(n: usize, most: usize) -> usize
    ensures { result ≤ most }
{
    n.min(most)
}

// How much of a table is in use, and no more than there is.
pub(crate) fn used(table: &[u16], n: usize) -> usize
    ensures { IsPrefixLen result table.now }
{
    within(n, table.len())
}

// Stores a row of three, and answers where the next one begins.
pub(crate) fn store_row(table: &mut [u16], at: usize, a: u16, b: u16, c: u16) -> usize {
    let from = within(at, ROOM);
    store(table, from, a);
    store(table, from + 1, b);
    store(table, from + 2, c);
    from + 3
}
