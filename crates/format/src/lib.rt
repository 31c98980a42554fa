// The format of sheets: what stands in a field, and what an access is.
#![tactic(auto)]

pub mod field;

// The limits of a sheet (specs/Limits.antt), named once for the code too.
pub const MAX_EDITION: u8 = 2;

pub const MAX_BYTES: usize = 4096;

pub const MAX_AGENTS: u8 = 8;

pub const MAX_MEMORY: u8 = 64;

pub const MAX_INITS: u8 = 4;

pub const MAX_OTHERS: u8 = 18;

pub const MAX_PAIRS: u16 = 32;

// The shape of an access: all of it but its bytes. tear: 0 may tear, 1 tear-free. Kind, mode and tear stay the sheet's bytes, and no enums: what a sheet says is
// read whatever it is and tested after (crate `content`), and the tests go by single bits of it, without a jump.
#[derive(Clone, Copy)]
pub struct Shape {
    pub kind: u8,
    pub mode: u8,
    pub start: u8,
    pub width: u8,
    pub tear: u8,
}

#[derive(Clone, Copy)]
pub struct Head {
    pub edition: u8,
    pub agents: u8,
    pub size: u8,
}

#[derive(Clone, Copy)]
pub struct Row {
    pub reader: u8,
    pub address: u8,
    pub writer: u8,
}

#[derive(Clone, Copy, PartialEq, Eq, PartialOrd, Ord)]
pub struct Pair {
    pub first: u8,
    pub second: u8,
}
