// The limits of a head and of the counts of events, and the orders in which rows and pairs rise: a test for each sentence of 01 about them. Reader and writer
// use them. Definitions: crates/content/specs/Content.antt, crates/format/specs/Execution.antt.
#![tactic(auto)]

ghost use Rattle.std.specs.Prelude.{◌≡◌};
ghost use Rattle.format.specs.Execution.{row_below, pair_below};
ghost use Rattle.content.specs.Content.{head_fits, room_in};

use content::within;
use format::{Head, MAX_AGENTS, MAX_EDITION, MAX_INITS, MAX_MEMORY, MAX_OTHERS, Pair, Row};

pub fn head_fits(h: Head) -> bool
    ensures { result ≡ head_fits h }
{
    within(1, MAX_EDITION, h.edition)
        & (within(1, MAX_AGENTS, h.agents) & within(1, MAX_MEMORY, h.size))
}

// Is there room for an event of the agent behind so many inits and so many others?
pub fn room_for(inits: u8, others: u8, agent: u8) -> bool
    ensures { result ≡ room_in inits others agent }
{
    match agent {
        0 => inits < MAX_INITS,
        _ => others < MAX_OTHERS,
    }
}

// Reader and address as one number, so that it is one comparison.
pub fn row_below(q: Row, r: Row) -> bool
    ensures { result ≡ row_below q r }
{
    let before = q.reader as u16 * 256 + q.address as u16;
    before < r.reader as u16 * 256 + r.address as u16
}

pub fn pair_below(q: Pair, p: Pair) -> bool
    ensures { result ≡ pair_below q p }
{
    q < p
}
