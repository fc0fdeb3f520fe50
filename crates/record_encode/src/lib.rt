// The records of value lists, written.
#![tactic(auto)]

ghost use Rattle.std.specs.Prelude.{◌≡◌, ◌+◌, ◌≤◌, [], ◌∷◌, length};
ghost use Rattle.std.proofs.lemmas.List.Edits.{sets};
ghost use Rattle.row_format.specs.Places.{offset_width};
ghost use Rattle.value.specs.Kinds.{long_kind};
ghost use Rattle.value_list.specs.Records.{numeric_bytes, range_record, record_of, NarrowRange};
ghost use Rattle.value_list.specs.InnerRecords.{Narrow};

use value::{DataValue, NumericValue, TextRange, value_kinds};

// Bytes at a place, and the place after them.
fn put<const N: usize>(out: &mut [u8], at: usize, bytes: [u8; N]) -> usize
    requires { at + N ≤ length out.old }
    ensures { (result ≡ at + N) × (out.new ≡ sets out.old at bytes.entry) }
{
    endian::copy(out, at, &bytes);
    at + N
}

// A record by its kind and the bytes of its body, and the place after it.
pub fn write_record<const N: usize>(out: &mut [u8], at: usize, kind: u8, body: [u8; N]) -> usize
    requires { at + 1 + N ≤ length out.old }
    ensures { (result ≡ at + 1 + N) × (out.new ≡ sets out.old at (kind ∷ body.entry)) }
{
    let at = put(out, at, [kind]);
    put(out, at, body)
}

pub fn write_null(out: &mut [u8], at: usize) -> usize
    requires { at + 1 ≤ length out.old }
    ensures { (result ≡ at + 1) × (out.new ≡ sets out.old at (0 ∷ [])) }
{
    put(out, at, [value_kinds::NULL])
}

fn write_numeric(out: &mut [u8], at: usize, n: NumericValue) -> usize
    requires { at + 18 ≤ length out.old }
    ensures { (result ≡ at + 18) × (out.new ≡ sets out.old at (6 ∷ numeric_bytes n)) }
{
    let at = write_record(out, at, value_kinds::NUMERIC, n.low.to_le_bytes());
    let at = put(out, at, n.high.to_le_bytes());
    put(out, at, [n.scale])
}

// The kind of a range for long rows, of a kind of range for short ones.
fn long_kind(kind: u8) -> u8
    ensures { result ≡ long_kind kind }
{
    match kind {
        value_kinds::CHAR => value_kinds::LONG_CHAR,
        value_kinds::VARCHAR => value_kinds::LONG_VARCHAR,
        _ => value_kinds::LONG_BIT,
    }
}

// A range of a kind for short rows, as a record for rows of a sort.
pub fn write_range(out: &mut [u8], at: usize, is_long: bool, kind: u8, r: TextRange) -> usize
    requires { (at + length (range_record is_long kind r) ≤ length out.old)
        × NarrowRange (offset_width is_long) r }
    ensures { (result ≡ at + length (range_record is_long kind r))
        × (out.new ≡ sets out.old at (range_record is_long kind r)) }
{
    if is_long {
        let at = write_record(out, at, long_kind(kind), (r.start as u32).to_le_bytes());
        put(out, at, (r.length as u32).to_le_bytes())
    } else {
        let at = write_record(out, at, kind, (r.start as u16).to_le_bytes());
        put(out, at, (r.length as u16).to_le_bytes())
    }
}

// A value's record for rows of a sort, and the place after it.
pub fn write_value_record(out: &mut [u8], at: usize, is_long: bool, v: DataValue) -> usize
    requires { (at + length (record_of is_long v) ≤ length out.old) × Narrow is_long v }
    ensures { (result ≡ at + length (record_of is_long v))
        × (out.new ≡ sets out.old at (record_of is_long v)) }
{
    match v {
        DataValue::Null => write_null(out, at),
        DataValue::SmallInt(x) => write_record(out, at, value_kinds::SMALL_INT, x.to_le_bytes()),
        DataValue::Int(x) => write_record(out, at, value_kinds::INT, x.to_le_bytes()),
        DataValue::BigInt(x) => write_record(out, at, value_kinds::BIG_INT, x.to_le_bytes()),
        DataValue::Real(x) => write_record(out, at, value_kinds::REAL, x.to_le_bytes()),
        DataValue::DoublePrecision(x) => write_record(
            out,
            at,
            value_kinds::DOUBLE_PRECISION,
            x.to_le_bytes(),
        ),
        DataValue::Numeric(n) => write_numeric(out, at, n),
        DataValue::Bool(b) => write_record(out, at, value_kinds::BOOL, [b]),
        DataValue::Char(r) => write_range(out, at, is_long, value_kinds::CHAR, r),
        DataValue::Varchar(r) => write_range(out, at, is_long, value_kinds::VARCHAR, r),
        DataValue::Date(x) => write_record(out, at, value_kinds::DATE, x.to_le_bytes()),
        DataValue::Time(x) => write_record(out, at, value_kinds::TIME, x.to_le_bytes()),
        DataValue::Bit(r) => write_range(out, at, is_long, value_kinds::BIT, r),
        DataValue::Timestamp(x) => write_record(out, at, value_kinds::TIMESTAMP, x.to_le_bytes()),
    }
}
