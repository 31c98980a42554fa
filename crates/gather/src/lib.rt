// The writers that have bars with each event, over a table of bars, whatever it holds: bars[v * 32 + w] is the mask of the r with a bar (r, w, v). The
// public function has no `requires`.
#![tactic(auto)]

ghost use Rattle.std.specs.Prelude.{◌<◌, ◌≤◌, min};
ghost use Rattle.sets.specs.Mask.{slots};
ghost use Rattle.gather.specs.Writers.{Readers, Writers, Gathers};

use sets::{SLOTS, least};

// How many masks of bars there are: one for each v and w.
pub const PAIRS: usize = 1024;

// The readers that have bars with v. All slots are looked at, so that the machine takes several at once.
fn readers_of(bars: &[u32; PAIRS], v: usize) -> u32
    requires { v < slots }
    ensures { Readers slots bars.now v result }
{
    let mut c = 0;
    for readers in &bars[v * SLOTS..(v + 1) * SLOTS] {
        c |= readers;
    }
    c
}

// The writers that have bars with v among the first m events. Most events have no bars.
fn writers_of(m: usize, bars: &[u32; PAIRS], v: usize) -> u32
    requires { (m ≤ slots) × (v < m) }
    ensures { Writers m bars.now v result }
{
    if readers_of(bars, v) == 0 {
        return 0;
    }
    let mut c = 0;
    for (w, &readers) in bars[v * SLOTS..v * SLOTS + m].iter().enumerate() {
        if readers != 0 {
            c = sets::with(c, w);
        }
    }
    c
}

// The same for each of the first m events, once for a search; m counts up to the slots, and as far as there is room.
pub fn gather(m: usize, bars: &[u32; PAIRS], writers: &mut [u32])
    ensures { Gathers (min m slots) bars.now writers.old writers.new }
{
    let n = least(m, SLOTS);
    let room = least(n, writers.len());
    for (v, c) in writers[..room].iter_mut().enumerate() {
        *c = writers_of(n, bars, v);
    }
}
