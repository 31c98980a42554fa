// What an order is, and when all events can be placed one at a time: definitions and laws (specs/, proofs/), which the crates of the search cite, and the
// test of what a search takes. The public function has no `requires`.
#![tactic(auto)]

ghost use Rattle.sets.specs.Tells.{Tells};
ghost use Rattle.orders.specs.Answer.{Fits};

use sets::SLOTS;

// How many entries a list of bars has room for. Entry i has the bars (readers[i], writers[i], v), for each v of the set between[i].
pub const LIST: usize = 32;

// Whether a search takes these numbers of inits and events and that much scratch.
pub fn fits(inits: usize, events: usize, room: usize) -> bool
    ensures { Tells result (Fits inits events room) }
{
    if events < inits {
        return false;
    }
    if SLOTS < events {
        return false;
    }
    marks::needed(events - inits) <= room
}
