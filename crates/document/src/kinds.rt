// The kinds of elements and of their rows. specs/Kinds has the same numbers for the definitions. No enum: word 0 of a row that the caller
// lends has the number.

pub const NODE: u32 = 1;

pub const INTERFACE: u32 = 2;

pub const METHOD: u32 = 3;

pub const PROPERTY: u32 = 4;

pub const SIGNAL: u32 = 5;

pub const ANNOTATION: u32 = 6;

pub const ARG: u32 = 7;

pub const SIMPLE_TYPE: u32 = 8;

pub const ENUM: u32 = 9;

pub const ENUMVALUE: u32 = 10;

pub const STRUCT: u32 = 11;

pub const MEMBER: u32 = 12;

pub const MAPPING: u32 = 13;

pub const DOCSTRING: u32 = 14; // no row is of this kind
