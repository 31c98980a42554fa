// What is tested after all fields, of agents: whether the head promises one that has no event (14).
#![tactic(auto)]

ghost use Rattle.std.specs.Prelude.{◌≡◌, replicate};
ghost use Rattle.parse.specs.Parse.{missing};
ghost use Rattle.entries.specs.Entries.{events_in, execution};
ghost use Rattle.agents.specs.steps.Present.{Present, agent_numbers};

use entries::Counts;

// How many agent_numbers an agent can have: those of a byte.
const AGENT_NUMBERS: usize = 256;

// 1 at the number of each agent that has an event; a place for each number, all of them 0 at the start.
fn present(s: &[u8], x: Counts, at: &[u16], seen: &mut [u8])
    requires { seen.old ≡ replicate agent_numbers 0 }
    ensures { Present (events_in s.now x at.now) seen.new }
{
    let n = entries::count(x, at);
    for e in 0..n {
        let a = entries::agent_at(s, at[e as usize]);
        seen[a as usize] = 1;
    }
}

// Does the head promise an agent that has no event?
pub fn missing(s: &[u8], x: Counts, at: &[u16]) -> bool
    ensures { result ≡ missing (execution s.now x at.now) }
{
    let mut seen = [0u8; AGENT_NUMBERS];
    present(s, x, at, &mut seen);
    let agents = x.head.agents;
    for i in 0..agents {
        let there = seen[i as usize + 1] == 1;
        if !there {
            return true;
        }
    }
    false
}
