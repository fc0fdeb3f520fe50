// The schema kinds, in the order of documents 01 and 02: the byte that a column's record begins with. Precision and
// scale follow NUMERIC and DECIMAL, a byte each; n follows CHAR, CHARACTER, VARCHAR, BIT and VARCHAR_CHARS, two bytes;
// nothing the others.
// Stays numbers: any byte may stand in a schema, and code matches it where it stands. A pattern has no cast, so an enum
// would stand beside these numbers, with one table from it and one to it.
pub const SMALL_INT: u8 = 1;

pub const INT: u8 = 2;

pub const BIG_INT: u8 = 3;

pub const REAL: u8 = 4;

pub const DOUBLE_PRECISION: u8 = 5;

pub const NUMERIC: u8 = 6;

pub const DECIMAL: u8 = 7;

pub const BOOL: u8 = 8;

pub const CHAR: u8 = 9;

pub const CHARACTER: u8 = 10;

pub const VARCHAR: u8 = 11;

pub const DATE: u8 = 12;

pub const TIME: u8 = 13;

pub const BIT: u8 = 14;

pub const TIMESTAMP: u8 = 15;

pub const VARCHAR_CHARS: u8 = 16;
