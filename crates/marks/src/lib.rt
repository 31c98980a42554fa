// The table of entered sets in lent bytes: a bit for each set. No public function has a `requires`.
#![tactic(auto)]

ghost use Rattle.std.specs.Prelude.{◌≡◌, min};
ghost use Rattle.sets.specs.Mask.{slots};
ghost use Rattle.marks.specs.Table.{is_marked, marking, bytes_for, cleared};

use sets::{SLOTS, least};

// The bytes that the sets of n events take; n counts up to the slots.
pub fn needed(n: usize) -> usize
    ensures { result ≡ bytes_for (min n slots) }
{
    if n < 3 {
        return 1;
    }
    if n < SLOTS {
        return 1usize << (n - 3);
    }
    536870912
}

// Whether the table marks a set; not one beyond its end.
pub fn marked(table: &[u8], set: usize) -> bool
    ensures { result ≡ is_marked table.now set }
{
    let i = set / 8;
    if i < table.len() {
        return table[i] >> (set % 8) & 1 == 1;
    }
    false
}

// Marks a set; one beyond the table's end changes nothing.
pub fn mark(table: &mut [u8], set: usize)
    ensures { table.new ≡ marking table.old set }
{
    let i = set / 8;
    if i < table.len() {
        table[i] = table[i] | 1 << (set % 8);
    }
}

// Zeroes the first len bytes, or all where there are fewer.
pub fn clear(table: &mut [u8], len: usize)
    ensures { table.new ≡ cleared len table.old }
{
    let n = least(len, table.len());
    table[..n].fill(0);
}
