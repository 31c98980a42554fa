// Rule 25 over the tables, by masks: a read whose access takes its bytes from two writers, all three tear-free with equal ranges.
#![tactic(auto)]

ghost use Rattle.std.specs.Prelude.{◌≡◌, ◌%◌, min, if◌then◌else◌};
ghost use Rattle.sets.specs.Mask.{slots, insert};
ghost use Rattle.sets.specs.Tells.{Tells};
ghost use Rattle.cells.specs.First.{first_some};
ghost use Rattle.tables.specs.Tables.{slot_in};
ghost use Rattle.torn.specs.Torn.{untorn_in, source_gains, two_in, two_sources_in, pairs, named_in};
ghost use Rattle.torn.specs.steps.Noticed.{Marks};
ghost use Rattle.torn.specs.steps.Doubled.{Twice, Doubled};

use answer::{Breach, Names};
use format::Row;
use sets::{SLOTS, least};
use tables::{ACCESSES, COLUMNS};

// Are both ends of the row tear-free, with equal ranges? k is the slot of the reader's access.
fn untorn(t: &[u8; COLUMNS], k: usize, r: Row) -> bool
    requires { k ≡ slot_in t.now (r.reader % slots) r.address }
    ensures { result ≡ untorn_in t.now r }
{
    let a = tables::shape(t, k);
    let b = tables::shape(t, tables::slot_at(t, r.writer as usize, r.address));
    access::tear_free(a) & (access::tear_free(b) & ranges::equal(a, b))
}

// 1 where a test passed, else 0.
fn one(test: bool) -> u32
    ensures { result ≡ (if test then 1 else 0) }
{
    if test { 1 } else { 0 }
}

// The set m, with e where a test passed: what `cells::take` answers, by a shift. Of a choice the compiler makes a jump where the test takes long.
pub fn join(m: u32, e: usize, test: bool) -> u32
    ensures { result ≡ (if test then insert m (e % slots) else m) }
{
    m | one(test) << (e % SLOTS)
}

// The mask of the reader's access gains the writer, where the row is untorn. Without a jump.
pub fn note_row(t: &[u8; COLUMNS], r: Row, masks: &mut [u32; ACCESSES])
    ensures { masks.new ≡ source_gains t.now r masks.old }
{
    let k = tables::slot_at(t, r.reader as usize, r.address);
    masks[k] = join(masks[k], r.writer as usize, untorn(t, k, r));
}

// The two lowest members of a set, as one number, where it has two: so the less of two numbers stands for the first of two pairs.
fn two(m: u32) -> Option<usize>
    ensures { result ≡ first_some (two_in m) pairs }
{
    let w = sets::lowest(m);
    let v = sets::lowest(sets::without(m, w));
    if v < SLOTS {
        return Some(w * SLOTS + v);
    }
    None
}

// The lowest two sources that one of event e's accesses has.
fn pair(s: &[u32; ACCESSES], e: usize) -> Option<usize>
    ensures { result ≡ first_some (two_sources_in s.now (e % slots)) pairs }
{
    let k = 2 * (e % SLOTS);
    let Some(p) = two(s[k]) else {
        return two(s[k + 1]);
    };
    let Some(q) = two(s[k + 1]) else {
        return Some(p);
    };
    Some(least(p, q))
}

// The set without its least member, which is not empty where it has two.
pub fn others(m: u32) -> u32
    ensures { Marks result (Twice m) }
{
    m & m.wrapping_sub(1)
}

// Has some mask two members? All are looked at, so that the machine takes several at once.
fn doubled(s: &[u32; ACCESSES]) -> bool
    ensures { Tells result (Doubled s.now) }
{
    let mut c = 0;
    for m in s {
        c |= others(*m);
    }
    c != 0
}

// 25 at the first event that has two, with the lowest. Mostly no mask has two members.
pub fn named(s: &[u32; ACCESSES], n: usize) -> Result<(), Breach>
    ensures { result ≡ named_in s.now (min n slots) }
{
    if !doubled(s) {
        return Ok(());
    }
    for e in 0..least(n, SLOTS) {
        if let Some(p) = pair(s, e) {
            let names = Names::Torn(e as u8, (p / SLOTS) as u8, (p % SLOTS) as u8);
            return Err(Breach { number: 25, names });
        }
    }
    Ok(())
}
