// The rules of a record for the hospital host stand in specs/. Here is what import and export both name of a compound's first field.
#![tactic(auto)]

// Its tag.
pub const HEAD: u8 = 23;

// How many bytes of data it has, aa and bbb.
pub const HEAD_DATA: usize = 5;
