// How many sets can be built by placing events one at a time, from that of the inits on (02 §9). The tables are those of `orders`. The public function
// has no `requires`: what does not fit gets a stated answer, with nothing changed.
#![tactic(auto)]

ghost use Rattle.orders.specs.Tables.{tabled};
ghost use Rattle.orders.specs.Walk.{Gathered, Starting};
ghost use Rattle.reach.specs.Reachable.{Tallied};
ghost use Rattle.reach.specs.Counting.{Counting};

use gather::PAIRS;
use sets::SLOTS;

// Walks through all sets that can be built from that of the inits, until all are entered or more than the limit are found:
// how many they are, or none over the limit.
fn tally(
    k: usize,
    m: usize,
    before: &[u32; SLOTS],
    bars: &[u32; PAIRS],
    writers: &[u32; SLOTS],
    table: &mut [u8],
    path: &mut [u8],
    limit: usize,
) -> Option<usize>
    requires { Starting (tabled m before.now bars.now) k table.old path.old × Gathered m bars.now writers.now }
    ensures { Counting (tabled m before.now bars.now) k table.old limit result table.new }
{
    if limit == 0 {
        return None;
    }
    let mut s = sets::full(k);
    let mut depth: usize = 0;
    let mut from = k;
    let mut n: usize = 1;
    loop {
        match placing::next(k, m, before, bars, writers, table, s, from) {
            Some(e) => {
                if limit <= n {
                    return None;
                }
                s = placing::enter(k, s, e, table, path, depth);
                depth += 1;
                from = k;
                n += 1;
            }
            None => {
                if depth == 0 {
                    return Some(n);
                }
                depth -= 1;
                let x = path[depth] as usize;
                s = sets::without(s, x);
                from = x + 1;
            }
        }
    }
}

// The number of the sets that can be built from that of the inits, or none where it is over the limit. Where the numbers or the scratch do not fit,
// Some(0), which no count is, and nothing is changed.
pub fn count_sets(
    inits: usize,
    events: usize,
    before: &[u32; SLOTS],
    bars: &[u32; PAIRS],
    scratch: &mut [u8],
    limit: usize,
) -> Option<usize>
    ensures { Tallied inits events before.now bars.now scratch.old limit result scratch.new }
{
    if !orders::fits(inits, events, scratch.len()) {
        return Some(0);
    }
    let mut writers = [0u32; SLOTS];
    gather::gather(events, bars, &mut writers);
    let mut path = [0u8; SLOTS];
    let need = marks::needed(events - inits);
    marks::clear(scratch, need); // before the count
    let r = tally(
        inits, events, before, bars, &writers, scratch, &mut path, limit,
    );
    marks::clear(scratch, need); // after the count
    r
}
