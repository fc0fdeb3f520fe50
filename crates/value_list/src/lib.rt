// The bytes of value lists: a record read, and the check of a whole list. record_encode writes them.
#![tactic(auto)]

ghost use Rattle.std.specs.Prelude.{◌≡◌, ◌+◌, ◌*◌, ◌<◌, ◌≤◌, length};
ghost use Rattle.row_format.specs.Places.{offset_width};
ghost use Rattle.value_list.specs.Records.{body_length, numeric_at, range_at, value_at, record_at, NarrowRange};
ghost use Rattle.value_list.specs.Lists.{checked};
ghost use Rattle.value_list.specs.InnerSizes.{body_in, size_at, some_size};
ghost use Rattle.value_list.specs.InnerLists.{answer};

use error::Refusal;
use value::{DataValue, NumericValue, TextRange, value_kinds};

// The bytes after the byte of kind.
pub fn body_length(kind: u8) -> usize
    ensures { (result ≡ body_length kind) × (result ≤ 17) }
{
    match kind {
        value_kinds::BOOL => 1,
        value_kinds::SMALL_INT => 2,
        value_kinds::INT | value_kinds::REAL | value_kinds::DATE => 4,
        value_kinds::CHAR | value_kinds::VARCHAR | value_kinds::BIT => 4,
        value_kinds::BIG_INT
        | value_kinds::DOUBLE_PRECISION
        | value_kinds::TIME
        | value_kinds::TIMESTAMP => 8,
        value_kinds::LONG_CHAR | value_kinds::LONG_VARCHAR | value_kinds::LONG_BIT => 8,
        value_kinds::NUMERIC => 17,
        _ => 0,
    }
}

// The bytes of the record at a place; None where its kind is unknown or it is cut off.
fn record_size(list: &[u8], at: usize) -> Option<usize>
    requires { at < length list.now }
    ensures { result ≡ some_size (size_at list.now at) }
{
    let kind = list[at];
    if !value::is_value_kind(kind) {
        return None;
    }
    let body = body_length(kind);
    let left = list.len() - at - 1;
    // Stays: the usual sizes have branches of their own. A branch is foreseen, so that a walk need not wait for each
    // record's kind.
    if body == 4 {
        if left < 4 { None } else { Some(5) }
    } else if body == 8 {
        if left < 8 { None } else { Some(9) }
    } else if left < body {
        None
    } else {
        Some(1 + body)
    }
}

// A number: its halves, and its scale.
pub fn numeric_at(list: &[u8], at: usize) -> NumericValue
    requires { at + 17 ≤ length list.now }
    ensures { result ≡ numeric_at list.now at }
{
    NumericValue {
        high: endian::read_i64(list, at + 8),
        low: endian::read_u64(list, at),
        scale: list[at + 16],
    }
}

// A range, its numbers of four bytes or of two.
pub fn range_at(list: &[u8], is_long: bool, at: usize) -> TextRange
    requires { at + 2 * offset_width is_long ≤ length list.now }
    ensures { (result ≡ range_at (offset_width is_long) list.now at) × NarrowRange 4 result }
{
    if is_long {
        TextRange {
            start: endian::read_u32(list, at) as usize,
            length: endian::read_u32(list, at + 4) as usize,
        }
    } else {
        TextRange {
            start: endian::read_u16(list, at) as usize,
            length: endian::read_u16(list, at + 2) as usize,
        }
    }
}

// The value whose body stands at a place, of one of document 01's kinds, ranges with numbers of four bytes or of two.
fn value_at(list: &[u8], is_long: bool, at: usize, kind: u8) -> DataValue
    requires { at + body_in is_long kind ≤ length list.now }
    ensures { result ≡ value_at (offset_width is_long) kind list.now at }
{
    match kind {
        value_kinds::SMALL_INT => DataValue::SmallInt(endian::read_i16(list, at)),
        value_kinds::INT => DataValue::Int(endian::read_i32(list, at)),
        value_kinds::BIG_INT => DataValue::BigInt(endian::read_i64(list, at)),
        value_kinds::REAL => DataValue::Real(endian::read_u32(list, at)),
        value_kinds::DOUBLE_PRECISION => DataValue::DoublePrecision(endian::read_u64(list, at)),
        value_kinds::NUMERIC => DataValue::Numeric(numeric_at(list, at)),
        value_kinds::BOOL => DataValue::Bool(list[at]),
        value_kinds::CHAR => DataValue::Char(range_at(list, is_long, at)),
        value_kinds::VARCHAR => DataValue::Varchar(range_at(list, is_long, at)),
        value_kinds::DATE => DataValue::Date(endian::read_i32(list, at)),
        value_kinds::TIME => DataValue::Time(endian::read_i64(list, at)),
        value_kinds::BIT => DataValue::Bit(range_at(list, is_long, at)),
        value_kinds::TIMESTAMP => DataValue::Timestamp(endian::read_i64(list, at)),
        _ => DataValue::Null,
    }
}

// A value, and the place after its record.
pub fn value_record_at(list: &[u8], at: usize) -> error::Result<(DataValue, usize)>
    requires { at < length list.now }
    ensures { result ≡ record_at list.now at }
{
    let Some(size) = record_size(list, at) else {
        return Err(Refusal::BadValueList(at));
    };
    let kind = list[at];
    let is_long = value::is_long_kind(kind);
    Ok((
        value_at(list, is_long, at + 1, value::plain_kind(kind)),
        at + size,
    ))
}

// Whether a list has one record a column, beside a text area of `area` bytes, for rows of a sort. The bodies are not
// looked at.
pub fn check_values(list: &[u8], is_long: bool, columns: usize, area: usize) -> error::Result<()>
    ensures { result ≡ answer (checked is_long columns area list.now) }
{
    let mut at = 0;
    let mut count = 0;
    // Stays: no range has the places, since each record says where the next begins.
    while at < list.len() {
        let Some(size) = record_size(list, at) else {
            return Err(Refusal::BadValueList(at));
        };
        at += size;
        count += 1;
    }
    if count != columns {
        Err(Refusal::BadValueList(list.len()))
    } else if row_layout::row_limit(is_long) < area {
        Err(Refusal::BadValueList(0))
    } else {
        Ok(())
    }
}
