// The tables of the environment by their numbers. The tables of the generated terms follow, three for each, so a table is a number.
pub const OPTIONS: usize = 0;

pub const FILES: usize = 1;

pub const SYMS: usize = 2;

pub const POSS: usize = 3;

pub const TYPES: usize = 4;

pub const VARIANTS: usize = 5;

pub const TERMS: usize = 6;

pub const GENERATED: usize = 7;
