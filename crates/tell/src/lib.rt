// A sheet judged and told as a line, into lent buffers.
#![tactic(auto)]

ghost use Rattle.std.specs.Prelude.{◌≡◌, ◌≤◌, length, take};
ghost use Rattle.tell.specs.JudgedLine.{placed, JudgedLine};

// The buffers that are enough for every sheet (`Enough`, specs/Demands.antt). One byte more than the longest sheet, so that a longer one is seen.
pub const SHEET_BYTES: usize = format::MAX_BYTES + 1;

// A bit for each set of the most events that are not inits.
pub const SCRATCH_BYTES: usize = (1 << format::MAX_OTHERS as usize) / 8;

// A byte for each event.
pub const ORDER_BYTES: usize = format::MAX_INITS as usize + format::MAX_OTHERS as usize;

// The longest line: 34 bytes, and four for each event.
pub const LINE_BYTES: usize = 34 + 4 * ORDER_BYTES;

// What a place of the order buffer holds before the call: no event has that number.
pub const UNUSED: u8 = 255;

// How many events stand in an order buffer that was lent full of `UNUSED`.
fn count(order: &[u8]) -> usize
    ensures within { result ≤ length order.now }
    ensures counted { take result order.now ≡ placed order.now }
{
    for n in 0..order.len() {
        if order[n] == UNUSED {
            return n;
        }
    }
    order.len()
}

// Judges the sheet and writes the line of its answer; returns the line's length, 0 where it does not fit. The order buffer is lent full of `UNUSED`.
pub fn tell(sheet: &[u8], scratch: &mut [u8], order: &mut [u8], out: &mut [u8]) -> usize
    ensures { JudgedLine sheet.now scratch.old order.old out.old result scratch.new order.new out.new }
{
    let answer = judge::judge(sheet, scratch, order);
    let n = count(order);
    report::line(answer, &order[..n], out)
}
