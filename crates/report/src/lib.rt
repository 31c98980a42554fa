// The report line of an answer: its head (crate `line_head`), the order and a newline, as bytes into a lent buffer.
#![tactic(auto)]

ghost use Rattle.std.specs.Prelude.{◌≡◌, ◌≤◌, length};
ghost use Rattle.report.specs.Line.{told};
ghost use Rattle.report.specs.Lined.{Lined};

use answer::Answer;

// The events that the line of x tells.
fn told_of(x: Answer, order: &[u8]) -> &[u8]
    ensures { result.now ≡ told x order.now }
{
    match x {
        Answer::Refused(_, _) => &order[..0],
        Answer::Broken(_, _) => &order[..0],
        Answer::Consistent(_) => order,
    }
}

// The head is made apart, in `text`, so that `out` is written only where the whole line fits.
fn line_by(x: Answer, order: &[u8], text: &mut [u8], out: &mut [u8]) -> usize
    requires { 64 ≤ length text.old }
    ensures { Lined x order.now out.old result out.new }
{
    let n = line_head::put_head(text, x);
    let events = told_of(x, order);
    let room = puts::fits(events, n + 1, out.len());
    if !room {
        return 0;
    }
    let a = puts::put_bytes(out, 0, &text[..n]);
    let b = puts::put_events(out, a, events);
    puts::put_bytes(out, b, b"\n")
}

// Writes the report line of x to the start of `out`, and answers its length. `order` is the event numbers that a consistent answer
// tells; other answers leave it unread. Where the line does not fit, nothing is written and the answer is 0:
// no line is empty, and a call that cannot fail stays one.
pub fn line(x: Answer, order: &[u8], out: &mut [u8]) -> usize
    ensures { Lined x order.now out.old result out.new }
{
    let mut text = [0u8; 64];
    line_by(x, order, &mut text, out)
}
