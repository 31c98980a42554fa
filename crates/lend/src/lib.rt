// The other way of the writer: a sheet's table into lent buffers, for suites that mend old sheets.
#![tactic(auto)]

ghost use Rattle.std.specs.Prelude.{◌≡◌, ◌*◌};
ghost use Rattle.format.specs.Layout.{head_bytes, row_bytes, pair_bytes};
ghost use Rattle.encode.specs.Lent.{description_bytes};
ghost use Rattle.sheet.specs.Handed.{HandedWhole};
ghost use Rattle.encode.specs.Lend.{five};
ghost use Rattle.lend.specs.Lending.{short_by, Lending};
ghost use Rattle.lend.specs.Word.{lent_word};

use entries::Counts;
use sheet::reader;
use sizes::PAIR_BYTES;

// Why no table was lent: the refusal's number and the place; for 15 the number of the first buffer that is too short: 0 head, 1 events, 2 data, 3 rows, 4 pairs.
#[derive(Clone, Copy)]
pub struct Unlent {
    pub number: u8,
    pub place: u32,
}

// How many events, data bytes, rows and pairs were lent.
#[derive(Clone, Copy)]
pub struct Amounts {
    pub events: u8,
    pub bytes: u16,
    pub rows: u16,
    pub pairs: u16,
}

// The bytes of an event's description, its data apart.
const EVENT: usize = 8;

// The number that is no buffer's.
const NO_BUFFER: u8 = 5;

// The first buffer that is too short for a table of these counts and so many bytes of data; NO_BUFFER where each has room.
fn short_of(
    x: Counts,
    sum: u32,
    head: usize,
    events: usize,
    bytes: usize,
    rows: usize,
    pairs: usize,
) -> u8
    ensures { result ≡ short_by (head_bytes x.head.edition) (x.events * description_bytes) sum (x.rows * row_bytes x.head.edition) (x.pairs * pair_bytes) head events bytes rows pairs }
{
    let edition = x.head.edition;
    if head < sizes::head_bytes(edition) as usize {
        return 0;
    }
    if events < x.events as usize * EVENT {
        return 1;
    }
    if bytes < sum as usize {
        return 2;
    }
    if rows < x.rows as usize * sizes::row_bytes(edition) as usize {
        return 3;
    }
    if pairs < x.pairs as usize * PAIR_BYTES as usize {
        return 4;
    }
    NO_BUFFER
}

// Of a sheet that was read whole.
fn lend_whole(
    s: &[u8],
    x: Counts,
    at: &[u16],
    head: &mut [u8],
    events: &mut [u8],
    bytes: &mut [u8],
    rows: &mut [u8],
    pairs: &mut [u8],
) -> Result<Amounts, Unlent>
    requires { HandedWhole s.now x at.now }
    ensures { Lending s.now (five head.old events.old bytes.old rows.old pairs.old) result (five head.new events.new bytes.new rows.new pairs.new) }
{
    let sum = slices::data_count(s, x, at);
    let k = short_of(
        x,
        sum,
        head.len(),
        events.len(),
        bytes.len(),
        rows.len(),
        pairs.len(),
    );
    if k < NO_BUFFER {
        return Err(Unlent {
            number: 15,
            place: k as u32,
        });
    }
    slices::put_head(head, x.head);
    slices::put_events(events, s, x, at);
    slices::put_data(bytes, s, x, at);
    slices::put_rows(rows, s, x);
    slices::put_pairs(pairs, s, x);
    Ok(Amounts {
        events: x.events,
        bytes: sum as u16,
        rows: x.rows,
        pairs: x.pairs,
    })
}

// The table of a sheet, each part from the first byte of its buffer on. What is refused changes nothing.
pub fn lend(
    sheet: &[u8],
    head: &mut [u8],
    events: &mut [u8],
    bytes: &mut [u8],
    rows: &mut [u8],
    pairs: &mut [u8],
) -> Result<Amounts, Unlent>
    ensures { Lending sheet.now (five head.old events.old bytes.old rows.old pairs.old) result (five head.new events.new bytes.new rows.new pairs.new) }
{
    match reader::read(sheet) {
        Ok(w) => lend_whole(sheet, w.counts, &w.at, head, events, bytes, rows, pairs),
        Err(r) => Err(Unlent {
            number: r.fault.number(),
            place: r.place,
        }),
    }
}

// The number that the suite's harness gets.
pub fn pack(r: Result<Amounts, Unlent>) -> u64
    ensures { result ≡ lent_word r }
{
    match r {
        Ok(n) => {
            14 * (1 << 40)
                + n.events as u64 * (1 << 32)
                + (n.pairs as u64 * (1 << 24) + n.rows as u64 * (1 << 12) + n.bytes as u64)
        }
        Err(e) => answer::word(1, e.number, e.place),
    }
}
