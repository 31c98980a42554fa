// What C and Rust call: every entry `plimdrong_..` stands here, so that one archive (libplimdrong.a) is linked and one header
// (include/plimdrong.h) declares them; requests of 02 add theirs here. Each byte slice passes as a pointer and then a length, and the answer is
// a 64-bit word: kind * 2^40 + number * 2^32 + 32 bits. Whoever takes a word apart masks the kind to eight bits: bits 48 and up will carry a
// region. Names and words stay once they have landed (docs/DECISIONS.md, Exports).
#![tactic(auto)]

ghost use Rattle.plimdrong.specs.JudgedWord.{JudgedWord};
ghost use Rattle.encode.specs.Lend.{five};
ghost use Rattle.plimdrong.specs.WrittenWord.{WrittenWord};
ghost use Rattle.plimdrong.specs.TableWord.{TableWord};
ghost use Rattle.plimdrong.specs.CheckedWord.{CheckedWord};
ghost use Rattle.plimdrong.specs.WhyWord.{WhyWord};

#[unsafe(no_mangle)]
pub extern "C" fn plimdrong_judge(sheet: &[u8], scratch: &mut [u8], order: &mut [u8]) -> u64
    ensures { JudgedWord sheet.now scratch.old order.old result scratch.new order.new }
{
    answer::pack(judge::judge(sheet, scratch, order))
}

// Writes the sheet of a lent table into `out` (02 §2).
#[unsafe(no_mangle)]
pub extern "C" fn plimdrong_write(
    head: &[u8],
    events: &[u8],
    bytes: &[u8],
    rows: &[u8],
    pairs: &[u8],
    out: &mut [u8],
) -> u64
    ensures { WrittenWord (five head.now events.now bytes.now rows.now pairs.now) out.old result out.new }
{
    writer::pack(writer::write(head, events, bytes, rows, pairs, out))
}

// The table of a sheet, into lent buffers: the other way.
#[unsafe(no_mangle)]
pub extern "C" fn plimdrong_table(
    sheet: &[u8],
    head: &mut [u8],
    events: &mut [u8],
    bytes: &mut [u8],
    rows: &mut [u8],
    pairs: &mut [u8],
) -> u64
    ensures { TableWord sheet.now (five head.old events.old bytes.old rows.old pairs.old) result (five head.new events.new bytes.new rows.new pairs.new) }
{
    lend::pack(lend::lend(sheet, head, events, bytes, rows, pairs))
}

// Holds a list of event numbers, such as the order of an engine's own log, against a sheet (02 §5).
#[unsafe(no_mangle)]
pub extern "C" fn plimdrong_check(sheet: &[u8], list: &[u8]) -> u64
    ensures { CheckedWord sheet.now list.now result }
{
    log_check::pack(log_check::check(sheet, list))
}

// Why no order exists: the bars without any one of which some order does, into `bars` (02 §8).
#[unsafe(no_mangle)]
pub extern "C" fn plimdrong_why(sheet: &[u8], scratch: &mut [u8], bars: &mut [u8]) -> u64
    ensures { WhyWord sheet.now scratch.old bars.old result scratch.new bars.new }
{
    why::pack(why::explain(sheet, scratch, bars))
}
