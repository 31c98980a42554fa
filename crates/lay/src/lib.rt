// The table of pairs, filled from what the reader hands over: counts, and a place in the sheet. The tables of accesses and of rows are filled by the
// reader (crates/sheet); what they then hold is said here (specs/Lay). No function has a `requires`.
#![tactic(auto)]

ghost use Rattle.std.specs.Prelude.{◌≡◌, min};
ghost use Rattle.tables.specs.Tables.{pair_room};
ghost use Rattle.lay.specs.Lay.{pair_put, pairs_put};

use entries::Counts;
use sets::least;
use tables::PAIRS;

// Pair j.
fn pair(s: &[u8], x: Counts, j: u16, p: &mut [u8])
    ensures { p.new ≡ pair_put s.now x j p.old }
{
    store::put_pair(p, j as usize, entries::pair_no(s, x, j));
}

// The sheet's pairs, as many as have a place.
pub fn pairs(s: &[u8], x: Counts, p: &mut [u8])
    ensures { p.new ≡ pairs_put s.now x (min x.pairs pair_room) p.old }
{
    let m = least(x.pairs as usize, PAIRS);
    for j in 0..m {
        pair(s, x, j as u16, p);
    }
}
