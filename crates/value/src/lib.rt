// value.rs: the values of columns. A text or a bit string is a range of bytes in an area that is lent beside the value.
#![tactic(auto)]

pub mod value_kinds;

ghost use Rattle.std.specs.Prelude.{◌≡◌};
ghost use Rattle.datatype.specs.Schema.{column_kind};
ghost use Rattle.value.specs.Kinds.{kind_of, value_kind, matches, plain_kind, is_long_kind, is_value_kind};
ghost use Rattle.value.specs.Ranges.{range_of};
ghost use Rattle.value.specs.InnerKinds.{held_kind};

use datatype::{DataType, schema_kinds};

// An unscaled number of 128 bits in two halves, and its scale.
#[derive(Clone, Copy)]
pub struct NumericValue {
    pub high: i64,
    pub low: u64,
    pub scale: u8,
}

#[derive(Clone, Copy)]
pub struct TextRange {
    pub start: usize,
    pub length: usize,
}

// Real and DoublePrecision are their bits: a NaN's pattern is no float.
#[derive(Clone, Copy)]
pub enum DataValue {
    Null,
    SmallInt(i16),
    Int(i32),
    BigInt(i64),
    Real(u32),
    DoublePrecision(u64),
    Numeric(NumericValue),
    Bool(u8),
    Char(TextRange),
    Varchar(TextRange),
    Date(i32),
    Time(i64),
    Bit(TextRange),
    Timestamp(i64),
}

impl DataValue {
    // The kind that its record begins with.
    pub fn kind(self) -> u8
        ensures { result ≡ kind_of self }
    {
        match self {
            DataValue::Null => value_kinds::NULL,
            DataValue::SmallInt(_) => value_kinds::SMALL_INT,
            DataValue::Int(_) => value_kinds::INT,
            DataValue::BigInt(_) => value_kinds::BIG_INT,
            DataValue::Real(_) => value_kinds::REAL,
            DataValue::DoublePrecision(_) => value_kinds::DOUBLE_PRECISION,
            DataValue::Numeric(_) => value_kinds::NUMERIC,
            DataValue::Bool(_) => value_kinds::BOOL,
            DataValue::Char(_) => value_kinds::CHAR,
            DataValue::Varchar(_) => value_kinds::VARCHAR,
            DataValue::Date(_) => value_kinds::DATE,
            DataValue::Time(_) => value_kinds::TIME,
            DataValue::Bit(_) => value_kinds::BIT,
            DataValue::Timestamp(_) => value_kinds::TIMESTAMP,
        }
    }

    // The bytes of a text or a bit string in the area beside it; none for other values.
    pub fn range(self) -> TextRange
        ensures { result ≡ range_of self }
    {
        match self {
            DataValue::Char(r) | DataValue::Varchar(r) | DataValue::Bit(r) => r,
            _ => TextRange {
                start: 0,
                length: 0,
            },
        }
    }
}

// The kind of the values that a column of type ty holds.
pub fn value_kind(ty: DataType) -> u8
    ensures { result ≡ value_kind ty }
{
    match ty {
        DataType::SmallInt => value_kinds::SMALL_INT,
        DataType::Int => value_kinds::INT,
        DataType::BigInt => value_kinds::BIG_INT,
        DataType::Real => value_kinds::REAL,
        DataType::DoublePrecision => value_kinds::DOUBLE_PRECISION,
        DataType::Numeric { .. } | DataType::Decimal { .. } => value_kinds::NUMERIC,
        DataType::Bool => value_kinds::BOOL,
        DataType::Char(_) | DataType::Character(_) => value_kinds::CHAR,
        DataType::Varchar { .. } => value_kinds::VARCHAR,
        DataType::Date => value_kinds::DATE,
        DataType::Time => value_kinds::TIME,
        DataType::Bit(_) => value_kinds::BIT,
        DataType::Timestamp => value_kinds::TIMESTAMP,
    }
}

// The same by the kind of the column's record; that of null for no kind.
pub fn held_kind(kind: u8) -> u8
    ensures { result ≡ held_kind (column_kind kind) }
{
    match kind {
        schema_kinds::SMALL_INT => value_kinds::SMALL_INT,
        schema_kinds::INT => value_kinds::INT,
        schema_kinds::BIG_INT => value_kinds::BIG_INT,
        schema_kinds::REAL => value_kinds::REAL,
        schema_kinds::DOUBLE_PRECISION => value_kinds::DOUBLE_PRECISION,
        schema_kinds::NUMERIC | schema_kinds::DECIMAL => value_kinds::NUMERIC,
        schema_kinds::BOOL => value_kinds::BOOL,
        schema_kinds::CHAR | schema_kinds::CHARACTER => value_kinds::CHAR,
        schema_kinds::VARCHAR | schema_kinds::VARCHAR_CHARS => value_kinds::VARCHAR,
        schema_kinds::DATE => value_kinds::DATE,
        schema_kinds::TIME => value_kinds::TIME,
        schema_kinds::BIT => value_kinds::BIT,
        schema_kinds::TIMESTAMP => value_kinds::TIMESTAMP,
        _ => value_kinds::NULL,
    }
}

// Whether a byte is a kind of value record.
pub fn is_value_kind(kind: u8) -> bool
    ensures { result ≡ is_value_kind kind }
{
    kind <= value_kinds::TIMESTAMP
        || value_kinds::LONG_CHAR <= kind && kind <= value_kinds::LONG_BIT
}

// Whether its body is a range with four bytes for each number.
pub fn is_long_kind(kind: u8) -> bool
    ensures { result ≡ is_long_kind kind }
{
    value_kinds::LONG_CHAR <= kind
}

// The kind of its values.
pub fn plain_kind(kind: u8) -> u8
    ensures { result ≡ plain_kind kind }
{
    match kind {
        value_kinds::LONG_CHAR => value_kinds::CHAR,
        value_kinds::LONG_VARCHAR => value_kinds::VARCHAR,
        value_kinds::LONG_BIT => value_kinds::BIT,
        _ => kind,
    }
}

// Null has no type's kind.
pub fn data_value_matches_type(ty: DataType, value: DataValue) -> bool
    ensures { result ≡ matches ty value }
{
    value.kind() == value_kind(ty)
}
