// The value kinds, in the order of document 01: the byte that a value's record begins with. How many bytes follow says
// value_list::body_length.
// Stays numbers: any byte may stand in a list, and code matches it where it stands. A pattern has no cast, so an enum
// would stand beside these numbers, with one table from it and one to it.
pub const NULL: u8 = 0;

pub const SMALL_INT: u8 = 1;

pub const INT: u8 = 2;

pub const BIG_INT: u8 = 3;

pub const REAL: u8 = 4;

pub const DOUBLE_PRECISION: u8 = 5;

pub const NUMERIC: u8 = 6;

pub const BOOL: u8 = 7;

pub const CHAR: u8 = 8;

pub const VARCHAR: u8 = 9;

pub const DATE: u8 = 10;

pub const TIME: u8 = 11;

pub const BIT: u8 = 12;

pub const TIMESTAMP: u8 = 13;

// A Char, a Varchar and a Bit with four bytes for each number of the range, which long rows read into.
pub const LONG_CHAR: u8 = 17;

pub const LONG_VARCHAR: u8 = 18;

pub const LONG_BIT: u8 = 19;
