// The writer of sheets: a table of event descriptions, rows and pairs, lent as bytes, becomes a sheet in a lent buffer. The sheet is composed in bytes
// of the writer's own, and the reader says what is wrong with it: no test of the reader's is made a second time.
#![tactic(auto)]

ghost use Rattle.std.specs.Prelude.{◌≡◌, cond, suc, ◌+◌, ◌≤◌, eqb, length};
ghost use Rattle.format.specs.Limits.{max_bytes};
ghost use Rattle.encode.specs.Encode.{encode};
ghost use Rattle.encode.specs.Lent.{lent};
ghost use Rattle.encode.specs.Index.{same_from, index_of};
ghost use Rattle.writer.specs.Written.{Wrote};
ghost use Rattle.writer.specs.Word.{written_word};

use format::field::FIELD_BYTES;
use format::{MAX_BYTES, field};
use sheet::reader;

// Why no sheet was written: the refusal's number, and the index in the list at fault.
#[derive(Clone, Copy)]
pub struct Unwritten {
    pub number: u8,
    pub index: u32,
}

// A byte more than the longest sheet: a sheet that fills it is too long.
const ROOM: usize = 4097;

fn one_if_same(a: u8, b: u8) -> u32
    ensures { result ≡ cond (eqb a b) 1 0 }
{
    (a == b) as u32
}

// The fields before place p that have the tag of the field at p. No `for`: a field's length says where the next one stands.
fn same_before(s: &[u8], p: u32) -> u32
    requires { p ≤ max_bytes }
    ensures { result ≡ same_from s.now (suc p) 0 p }
{
    let tag = field::byte(s, p as usize);
    let mut i: u32 = 0;
    let mut q: u32 = 0;
    while q < p {
        i += one_if_same(field::byte(s, q as usize), tag);
        q += FIELD_BYTES as u32 + field::length_at(s, q) as u32;
    }
    i
}

// The index of a refusal, by its number and place.
fn index_of(s: &[u8], n: u8, p: u32) -> u32
    requires { p ≤ max_bytes }
    ensures { result ≡ index_of s.now n p }
{
    let none = (n == 1) | ((n == 5) | ((n == 10) | (n == 14)));
    if none {
        return 0;
    }
    same_before(s, p)
}

// What the reader says of the sheet, and the sheet in front of the buffer where it is whole and fits.
fn tell(s: &[u8], out: &mut [u8]) -> Result<u32, Unwritten>
    requires { length s.now ≤ max_bytes }
    ensures { Wrote s.now out.old result out.new }
{
    match reader::read(s) {
        Ok(_) => {
            if out.len() < s.len() {
                return Err(Unwritten {
                    number: 15,
                    index: 0,
                });
            }
            let end = puts::put_bytes(out, 0, s);
            Ok(end as u32)
        }
        Err(r) => {
            let n = r.fault.number();
            Err(Unwritten {
                number: n,
                index: index_of(s, n, r.place),
            })
        }
    }
}

fn write_by(
    sheet: &mut [u8],
    head: &[u8],
    events: &[u8],
    bytes: &[u8],
    rows: &[u8],
    pairs: &[u8],
    out: &mut [u8],
) -> Result<u32, Unwritten>
    requires { length sheet.old ≡ max_bytes + 1 }
    ensures { Wrote (encode (lent head.now events.now bytes.now rows.now pairs.now)) out.old result out.new }
{
    let n = compose::compose(sheet, head, events, bytes, rows, pairs);
    if MAX_BYTES < n {
        return Err(Unwritten {
            number: 1,
            index: 0,
        });
    }
    tell(&sheet[..n], out)
}

// Writes the sheet of a table into `out`, and answers its length: the table's head, its events of eight bytes with their data bytes, its rows of three and its pairs of two.
pub fn write(
    head: &[u8],
    events: &[u8],
    bytes: &[u8],
    rows: &[u8],
    pairs: &[u8],
    out: &mut [u8],
) -> Result<u32, Unwritten>
    ensures { Wrote (encode (lent head.now events.now bytes.now rows.now pairs.now)) out.old result out.new }
{
    let mut sheet = [0u8; ROOM];
    write_by(&mut sheet, head, events, bytes, rows, pairs, out)
}

// The number that a suite's harness gets: kind 1 with the number and the index, kind 5 with the length of the sheet.
pub fn pack(w: Result<u32, Unwritten>) -> u64
    ensures { result ≡ written_word w }
{
    match w {
        Ok(n) => answer::word(5, 0, n),
        Err(e) => answer::word(1, e.number, e.index),
    }
}
