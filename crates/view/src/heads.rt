// How many words stand before the list of a row. Contracts have the numbers themselves.
pub const TYPE_HEAD: usize = 5;

pub const VARIANT_HEAD: usize = 3;

pub const TERM_HEAD: usize = 8;

pub const BINDING_HEAD: usize = 6;

pub const BLOCK_HEAD: usize = 7;
