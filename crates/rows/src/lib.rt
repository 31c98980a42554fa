// Rows and pairs of the tables that every step of the judge works on (crates/tables): one of them read. No function has a `requires`: a row counts by its place
// among 288, a pair by its place among 32.
#![tactic(auto)]

ghost use Rattle.std.specs.Prelude.{◌≡◌, ◌%◌};
ghost use Rattle.tables.specs.Tables.{row_room, row_in, seen_in, wrote_in, pair_room, pair_in};

use format::{Pair, Row};
use sets::SLOTS;
use tables::{PAIR_CELLS, PAIRS, ROW_CELLS, ROWS};

pub fn row(q: &[u8; ROW_CELLS], j: usize) -> Row
    ensures { result ≡ row_in q.now (j % row_room) }
{
    let i = j % ROWS;
    Row {
        reader: q[i] % SLOTS as u8,
        address: q[ROWS + i],
        writer: q[2 * ROWS + i] % SLOTS as u8,
    }
}

pub fn seen(q: &[u8; ROW_CELLS], j: usize) -> u8
    ensures { result ≡ seen_in q.now (j % row_room) }
{
    q[3 * ROWS + j % ROWS]
}

pub fn wrote(q: &[u8; ROW_CELLS], j: usize) -> u8
    ensures { result ≡ wrote_in q.now (j % row_room) }
{
    q[4 * ROWS + j % ROWS]
}

pub fn pair(p: &[u8; PAIR_CELLS], j: usize) -> Pair
    ensures { result ≡ pair_in p.now (j % pair_room) }
{
    let i = j % PAIRS;
    Pair {
        first: p[i] % SLOTS as u8,
        second: p[PAIRS + i] % SLOTS as u8,
    }
}
