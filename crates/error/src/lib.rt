// error.rs: why a call refused. Document 01's table has a number for each case, and the place that goes with it;
// 16 and 17 are document 02's.
#![tactic(auto)]

ghost use Rattle.std.specs.Prelude.{◌≡◌};
ghost use Rattle.error.specs.Refusal.{number_of, place_of};

#[derive(Clone, Copy, Debug, PartialEq, Eq)]
pub enum Refusal {
    // A schema record of unknown kind, or cut off: its first byte.
    BadRecord(usize),
    // A limit of schemas: the first byte of the record that breaks it, or the schema's length.
    BadSchema(usize),
    RowTooShort,
    RowTooLong,
    WrongColumnCount,
    WrongVarlenCount,
    // A Varchar's range leaves the row, or starts past its end: the column.
    BadRange(usize),
    // Stored bytes that are no value of the column's type: the column.
    NoValue(usize),
    NoSuchColumn,
    // The value list: the first byte of the bad record, the list's length, or 0.
    BadValueList(usize),
    // A value of another kind than the column's: the column.
    WrongKind(usize),
    // A value that the column's type does not hold: the column.
    Unsuitable(usize),
    RowLimit,
    NoRoom,
    NotSound,
    // A list of rows that is cut off or over its limits.
    BadList,
    // A text that is not printed: the column.
    Unprintable(usize),
}

// What a call hands back: its result, as the bytes that it wrote or a flag, or why it refused.
pub type Result<T> = std::result::Result<T, Refusal>;

impl Refusal {
    pub fn number(self) -> u32
        ensures { result ≡ number_of self }
    {
        match self {
            Refusal::BadRecord(_) => 1,
            Refusal::BadSchema(_) => 2,
            Refusal::RowTooShort => 3,
            Refusal::RowTooLong => 4,
            Refusal::WrongColumnCount => 5,
            Refusal::WrongVarlenCount => 6,
            Refusal::BadRange(_) => 7,
            Refusal::NoValue(_) => 8,
            Refusal::NoSuchColumn => 9,
            Refusal::BadValueList(_) => 10,
            Refusal::WrongKind(_) => 11,
            Refusal::Unsuitable(_) => 12,
            Refusal::RowLimit => 13,
            Refusal::NoRoom => 14,
            Refusal::NotSound => 15,
            Refusal::BadList => 16,
            Refusal::Unprintable(_) => 17,
        }
    }

    pub fn place(self) -> usize
        ensures { result ≡ place_of self }
    {
        match self {
            Refusal::BadRecord(at) | Refusal::BadSchema(at) | Refusal::BadValueList(at) => at,
            Refusal::BadRange(column)
            | Refusal::NoValue(column)
            | Refusal::WrongKind(column)
            | Refusal::Unsuitable(column)
            | Refusal::Unprintable(column) => column,
            _ => 0,
        }
    }
}
