// Tables of masks, of any length. No function has a `requires`: what lies beyond the end is not written.
#![tactic(auto)]

ghost use Rattle.std.specs.Prelude.{◌≡◌, cond, ◌%◌, set};
ghost use Rattle.sets.specs.Mask.{slots, insert};
ghost use Rattle.cells.specs.Cells.{gaining, spread};

use sets::SLOTS;

// Writes a mask.
pub fn place(masks: &mut [u32], i: usize, m: u32)
    ensures { masks.new ≡ set masks.old i m }
{
    if i < masks.len() {
        masks[i] = m;
    }
}

// The set m, with e where a test passed.
pub fn take(m: u32, e: usize, test: bool) -> u32
    ensures { result ≡ cond test (insert m (e % slots)) m }
{
    if test { sets::with(m, e) } else { m }
}

// The mask at i gains e.
pub fn gain(masks: &mut [u32], i: usize, e: usize)
    ensures { masks.new ≡ gaining masks.old i (e % slots) }
{
    if i < masks.len() {
        masks[i] = sets::with(masks[i], e);
    }
}

// The masks at v * 32 + w gain e, for each v of the set m. Only the members are looked at.
pub fn spread(masks: &mut [u32], m: u32, w: usize, e: usize)
    ensures { masks.new ≡ spread masks.old m (w % slots) (e % slots) }
{
    for v in sets::members(m) {
        gain(masks, v * SLOTS + w % SLOTS, e);
    }
}
