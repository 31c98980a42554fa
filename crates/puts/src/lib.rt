// Words and decimal numbers, put as bytes into a lent buffer. No function has a `requires`: what has no place is not written.
#![tactic(auto)]

ghost use Rattle.std.specs.Prelude.{◌≡◌, [], ◌∷◌, ◌+◌, leb, length};
ghost use Rattle.puts.specs.Decimal.{decimal};
ghost use Rattle.puts.specs.Numbers.{numbered, events_text};
ghost use Rattle.puts.specs.Put.{Puts};

// Each `put_` function writes at `at` and answers the place after what it wrote. What has no place in the buffer is not written.
fn put(out: &mut [u8], at: usize, b: u8) -> usize
    ensures { Puts (b ∷ []) at result out.old out.new }
{
    if at < out.len() {
        out[at] = b;
        return at + 1;
    }
    at
}

// The bytes themselves.
pub fn put_bytes(out: &mut [u8], at: usize, bytes: &[u8]) -> usize
    ensures { Puts bytes.now at result out.old out.new }
{
    let mut next = at;
    for b in bytes {
        next = put(out, next, *b);
    }
    next
}

fn put_decimal(out: &mut [u8], at: usize, n: u32) -> usize
    ensures { Puts (decimal n) at result out.old out.new }
{
    if n < 10 {
        return put(out, at, b'0' + n as u8);
    }
    let next = put_decimal(out, at, n / 10);
    put(out, next, b'0' + (n % 10) as u8)
}

// A space and a number.
pub fn put_spaced(out: &mut [u8], at: usize, n: u32) -> usize
    ensures { Puts (numbered n) at result out.old out.new }
{
    let next = put(out, at, b' ');
    put_decimal(out, next, n)
}

// Each event, with a space before it.
pub fn put_events(out: &mut [u8], at: usize, events: &[u8]) -> usize
    ensures { Puts (events_text events.now) at result out.old out.new }
{
    let mut next = at;
    for e in events {
        next = put_spaced(out, next, u32::from(*e));
    }
    next
}

// How many digits a byte has.
fn width(x: u8) -> usize
    ensures { result ≡ length (decimal x) }
{
    if x < 10 {
        return 1;
    }
    if x < 100 {
        return 2;
    }
    3
}

// Whether the events' text, from `at` on, ends at `limit` at the latest. A sum over all events could wrap, so it stops there.
pub fn fits(events: &[u8], at: usize, limit: usize) -> bool
    ensures { result ≡ leb (at + length (events_text events.now)) limit }
{
    if limit < at {
        return false;
    }
    let mut end = at;
    for e in events {
        let w = width(*e) + 1;
        if limit - end < w {
            return false;
        }
        end += w;
    }
    true
}
