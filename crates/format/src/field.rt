// Fields: tag, length, value.
ghost use Rattle.std.specs.Prelude.{◌≡◌, ◌+◌, get_or};
ghost use Rattle.format.specs.Field.{length_at, value_at, rest_at};

// The bytes before a field's value: its tag and its length.
pub const FIELD_BYTES: usize = 3;

// The byte at a place, 0 past the end.
pub fn byte(s: &[u8], at: usize) -> u8
    ensures { result ≡ get_or s.now at 0 }
{
    if at < s.len() { s[at] } else { 0 }
}

// The length that the field at a place says. A place fits 32 bits, so that no sum wraps.
pub fn length_at(s: &[u8], at: u32) -> u16
    ensures { result ≡ length_at s.now at }
{
    byte(s, at as usize + 1) as u16 * 256 + byte(s, at as usize + 2) as u16
}

// The value of the field at a place, as a part of the sheet: what there is of it.
pub fn value_at(s: &[u8], at: u32) -> &[u8]
    ensures { result.now ≡ value_at s.now at }
{
    let len = length_at(s, at) as usize;
    let start = at as usize + FIELD_BYTES;
    if start <= s.len() {
        if len <= s.len() - start {
            &s[start..start + len]
        } else {
            &s[start..]
        }
    } else {
        &s[..0]
    }
}

// The sheet from the value of the field at a place on.
pub fn rest_at(s: &[u8], at: u32) -> &[u8]
    ensures { result.now ≡ rest_at s.now at }
{
    let from = at as usize + FIELD_BYTES;
    if from <= s.len() { &s[from..] } else { &s[..0] }
}
