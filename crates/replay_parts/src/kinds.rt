// The kinds of recorded calls.

// A record's first byte is NOTE or its kind's number, with PLANTED added where the answer was changed on purpose.
pub const NOTE: u8 = 0;

pub const PLANTED: u8 = 128;

#[derive(Clone, Copy, Debug, PartialEq, Eq)]
pub enum Kind {
    Text,
    NullFlag,
    Layout,
    Stored,
    Slot,
    Read,
    Built,
    Fresh,
    Set,
    SetNull,
}

// How many kinds there are.
pub const KINDS: usize = 10;

// A number of no kind.
#[derive(Clone, Copy, Debug, PartialEq, Eq)]
pub struct UnknownKind;

impl TryFrom<u8> for Kind {
    type Error = UnknownKind;

    fn try_from(number: u8) -> Result<Kind, UnknownKind> {
        Ok(match number {
            1 => Kind::Text,
            2 => Kind::NullFlag,
            3 => Kind::Layout,
            4 => Kind::Stored,
            5 => Kind::Slot,
            6 => Kind::Read,
            7 => Kind::Built,
            8 => Kind::Fresh,
            9 => Kind::Set,
            10 => Kind::SetNull,
            _ => return Err(UnknownKind),
        })
    }
}
