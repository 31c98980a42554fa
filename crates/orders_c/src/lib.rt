// The search under the C calling convention, for tests and benchmarks only: what C and Rust call stands in crates/plimdrong. No function has a
// `requires`; tables are arrays, so that their lengths are fixed.
#![tactic(auto)]

ghost use Rattle.orders.specs.Answer.{Told, Answered};
ghost use Rattle.orders_c.specs.Exported.{Exported};

#[unsafe(no_mangle)]
pub extern "C" fn orders_first(
    inits: usize,
    events: usize,
    before: &[u32; 32],
    bars: &[u32; 1024],
    scratch: &mut [u8],
    order: &mut [u8],
) -> bool
    ensures { Answered inits events before.now bars.now scratch.old order.old result scratch.new order.new }
{
    first_order::first(inits, events, before, bars, scratch, order)
}

#[unsafe(no_mangle)]
pub extern "C" fn orders_possible(
    inits: usize,
    events: usize,
    before: &[u32; 32],
    bars: &[u32; 1024],
    scratch: &mut [u8],
) -> bool
    ensures { Told inits events before.now bars.now scratch.old result scratch.new }
{
    first_order::possible(inits, events, before, bars, scratch)
}

// The number of the reachable sets; all bits where it is over the limit.
#[unsafe(no_mangle)]
pub extern "C" fn orders_count_sets(
    inits: usize,
    events: usize,
    before: &[u32; 32],
    bars: &[u32; 1024],
    scratch: &mut [u8],
    limit: usize,
) -> usize
    ensures { Exported inits events before.now bars.now scratch.old limit result scratch.new }
{
    let answer = reach::count_sets(inits, events, before, bars, scratch, limit);
    answer.unwrap_or(usize::MAX)
}
