// What bars force before any way is gone: for each event a mask of what it waits for, however all are placed; and whether some event waits for itself.
//
// Tables: before[b] is the mask of the events that have to come before b; bars[v * 32 + w] is the mask of the r with a bar (r, w, v). A short list
// of bars may stand for such a table. The first k of the m events are the inits.
// No public function has a `requires`: where numbers do not fit, false, and nothing is changed.
#![tactic(auto)]

ghost use Rattle.std.specs.Prelude.{◌≡◌, ℕ, ◌<◌, ◌≤◌, true, length, replicate};
ghost use Rattle.sets.specs.Mask.{slots, Has};
ghost use Rattle.orders.specs.Tables.{tabled};
ghost use Rattle.orders.specs.Listed.{list_room, listed_bars};
ghost use Rattle.force.specs.Forced.{Forced, Pressed, Forces};
ghost use Rattle.force.specs.steps.Press.{Led, Waited, Cyclic, Named, Presses, AtOne, AtEach};

use gather::PAIRS;
use orders::LIST;
use sets::SLOTS;

// ---- the table of what each event waits for

// Zeroes, whatever the table held.
fn clear(f: &mut [u32])
    requires { length f.old ≡ slots }
    ensures { f.new ≡ replicate slots 0 }
{
    f.fill(0);
}

// At first each event waits for what has to come before it, an init for nothing.
fn lead(k: usize, m: usize, before: &[u32; SLOTS], f: &mut [u32])
    requires { (k ≤ m) × (m ≤ slots) × (f.old ≡ replicate slots 0) }
    ensures { Led k m before.now f.new }
{
    f[k..m].copy_from_slice(&before[k..m]);
}

// Whether some event waits for itself.
fn cyclic(k: usize, m: usize, f: &[u32]) -> bool
    requires { (m ≤ slots) × (slots ≤ length f.now) }
    ensures { Cyclic k m f.now result }
{
    // The event is the place of its mask: an iterator over the masks would have to count the events again.
    for v in k..m {
        if sets::has(f[v], v) {
            return true;
        }
    }
    false
}

// A number that mostly grows where one of the first m masks does; where it does not, the bars are pressed once less.
fn weight(m: usize, f: &[u32]) -> u32
    requires { m ≤ length f.now }
{
    f[..m].iter().fold(0, |n: u32, x| n.wrapping_add(*x))
}

// ---- by the table of bars

// Whether some member of the set m waits for v.
fn waited(m: u32, v: usize, f: &[u32]) -> bool
    requires { (v < slots) × (slots ≤ length f.now) }
    ensures { Waited m v f.now result }
{
    for r in sets::members(m) {
        if sets::has(f[r], v) {
            return true;
        }
    }
    false
}

// The bars (R, w, v), all R. Where w is placed before v, each R has to be; where v has to be placed before one of them, it has to be before w.
fn press(
    k: usize,
    m: usize,
    before: &[u32; SLOTS],
    bars: &[u32; PAIRS],
    v: usize,
    w: usize,
    f: &mut [u32],
)
    requires { Forced (tabled m before.now bars.now) k before.now f.old × (k ≤ v) × (v < m) × (w < m) × (m ≤ slots) }
    ensures { Forced (tabled m before.now bars.now) k before.now f.new }
{
    let readers = bars[v * SLOTS + w];
    if (w < k) | sets::has(f[v], w) {
        f[v] = f[v] | readers;
        return;
    }
    if w == v {
        return;
    }
    if waited(readers, v, f) {
        f[w] = sets::with(f[w], v);
    }
}

// The bars of v, for each of its writers.
fn press_event(
    k: usize,
    m: usize,
    before: &[u32; SLOTS],
    bars: &[u32; PAIRS],
    writers: u32,
    v: usize,
    f: &mut [u32],
)
    requires { Forced (tabled m before.now bars.now) k before.now f.old × (k ≤ v) × (v < m) × (m ≤ slots) × ((w : ℕ) → Has writers w → w < m) }
    ensures { Forced (tabled m before.now bars.now) k before.now f.new }
{
    for w in sets::members(writers) {
        press(k, m, before, bars, v, w, f);
    }
}

// All bars once, and then what waits for one that waits.
fn press_all(
    k: usize,
    m: usize,
    before: &[u32; SLOTS],
    bars: &[u32; PAIRS],
    writers: &[u32; SLOTS],
    f: &mut [u32],
)
    requires { Forced (tabled m before.now bars.now) k before.now f.old × (k ≤ m) × (m ≤ slots) × Named m writers.now }
    ensures { Forced (tabled m before.now bars.now) k before.now f.new }
{
    for v in k..m {
        press_event(k, m, before, bars, writers[v], v, f);
    }
    closing::close(f, m);
}

// How often the bars are pressed at most. Mostly two or three times are enough.
const ROUNDS: usize = 8;

// The bars again and again, until nothing is new: whether some event then waits for itself, so that no way is left.
fn press_on(
    k: usize,
    m: usize,
    before: &[u32; SLOTS],
    bars: &[u32; PAIRS],
    writers: &[u32; SLOTS],
    f: &mut [u32],
) -> bool
    requires { Forced (tabled m before.now bars.now) k before.now f.old × (k ≤ m) × (m ≤ slots) × Named m writers.now }
    ensures { Pressed (tabled m before.now bars.now) k before.now result f.new }
{
    let mut had = weight(m, f);
    for _ in 0..ROUNDS {
        press_all(k, m, before, bars, writers, f);
        if cyclic(k, m, f) {
            return true;
        }
        let has = weight(m, f);
        if has == had {
            return false;
        }
        had = has;
    }
    false
}

// Whether the writers of the first m events are among them.
fn named(m: usize, writers: &[u32; SLOTS]) -> bool
    requires { m ≤ slots }
    ensures { result ≡ true → Named m writers.now }
{
    let mut c: u32 = 0;
    for w in &writers[..m] {
        c |= w;
    }
    sets::subset(c, sets::full(m))
}

// With so few events that are no inits all ways are soon gone.
const FEW: usize = 5;

// What bars force, into f, whatever it held: whether some event then waits for itself, so that no way is left. Only the bars with the `writers` of an event
// are looked at; others are left out, and nothing wrong is told.
pub fn by_table(
    k: usize,
    m: usize,
    before: &[u32; SLOTS],
    bars: &[u32; PAIRS],
    writers: &[u32; SLOTS],
    f: &mut [u32; SLOTS],
) -> bool
    ensures { Forces ((k ≤ m) × (m ≤ slots)) (tabled m before.now bars.now) k before.now f.old result f.new }
{
    if (m < k) | (SLOTS < m) {
        return false;
    }
    clear(f);
    lead(k, m, before, f);
    if m - k <= FEW {
        return false;
    }
    if !named(m, writers) {
        return false;
    }
    press_on(k, m, before, bars, writers, f)
}

// ---- the same by a list of bars

// The bar (reader, writer, v). Where the writer is placed before v, the reader has to be; where v has to be placed before the reader, it has to be
// before the writer. Where both are so v waits for itself, and is told so at once.
fn press_bar(k: usize, m: usize, reader: usize, writer: usize, v: usize, f: &mut [u32])
    requires { (k ≤ v) × (v < m) × (writer < m) × (m ≤ slots) × (reader < slots) × (length f.old ≡ slots) }
    ensures { Presses k m (AtOne reader writer v) f.old f.new }
{
    let after = (writer < k) | sets::has(f[v], writer);
    let ahead = sets::has(f[reader], v);
    if after {
        f[v] = cells::take(sets::with(f[v], reader), v, ahead);
        return;
    }
    if writer == v {
        return;
    }
    if ahead {
        f[writer] = sets::with(f[writer], v);
    }
}

// The bars (reader, writer, v) of an entry, for each v of its set.
fn press_entry(k: usize, m: usize, between: u32, reader: usize, writer: usize, f: &mut [u32])
    requires { (m ≤ slots) × (reader < slots) × (length f.old ≡ slots) }
    ensures { Presses k m (AtEach m reader writer between) f.old f.new }
{
    if m <= writer {
        return;
    }
    for v in sets::members(sets::rest(0, k, m) & between) {
        press_bar(k, m, reader, writer, v, f);
    }
}

// All entries once.
fn press_list(
    k: usize,
    m: usize,
    before: &[u32; SLOTS],
    between: &[u32; LIST],
    readers: &[u8; LIST],
    writers: &[u8; LIST],
    n: usize,
    f: &mut [u32],
)
    requires { Forced (tabled m before.now (listed_bars between.now readers.now writers.now n)) k before.now f.old × (k ≤ m) × (m ≤ slots) × (n ≤ list_room) }
    ensures { Forced (tabled m before.now (listed_bars between.now readers.now writers.now n)) k before.now f.new }
{
    // Three arrays, side by side in the public function too: an iterator over all three is no plainer.
    for i in 0..n {
        let reader = readers[i] as usize % SLOTS;
        let writer = writers[i] as usize % SLOTS;
        press_entry(k, m, between[i], reader, writer, f);
    }
}

// As `press_on`, but for the order of its steps: mostly an event waits for itself before anything is closed, so the closing stands between two tests here.
fn press_list_on(
    k: usize,
    m: usize,
    before: &[u32; SLOTS],
    between: &[u32; LIST],
    readers: &[u8; LIST],
    writers: &[u8; LIST],
    n: usize,
    f: &mut [u32],
) -> bool
    requires { Forced (tabled m before.now (listed_bars between.now readers.now writers.now n)) k before.now f.old × (k ≤ m) × (m ≤ slots) × (n ≤ list_room) }
    ensures { Pressed (tabled m before.now (listed_bars between.now readers.now writers.now n)) k before.now result f.new }
{
    let mut had = weight(m, f);
    for _ in 0..ROUNDS {
        press_list(k, m, before, between, readers, writers, n, f);
        if cyclic(k, m, f) {
            return true;
        }
        closing::close(f, m);
        if cyclic(k, m, f) {
            return true;
        }
        let has = weight(m, f);
        if has == had {
            return false;
        }
        had = has;
    }
    false
}

// As `by_table`, by the first n entries of a list of bars, and for few events too.
pub fn by_list(
    k: usize,
    m: usize,
    before: &[u32; SLOTS],
    between: &[u32; LIST],
    readers: &[u8; LIST],
    writers: &[u8; LIST],
    n: usize,
    f: &mut [u32; SLOTS],
) -> bool
    ensures { Forces ((k ≤ m) × (m ≤ slots) × (n ≤ list_room)) (tabled m before.now (listed_bars between.now readers.now writers.now n)) k before.now f.old result f.new }
{
    if (m < k) | (SLOTS < m) | (LIST < n) {
        return false;
    }
    clear(f);
    lead(k, m, before, f);
    press_list_on(k, m, before, between, readers, writers, n, f)
}
