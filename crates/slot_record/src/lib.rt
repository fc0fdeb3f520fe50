// A column's bytes written as a value record, by kinds and without a value in between. `from_bytes` and then
// `write_value_record` do the same, but pass the value through memory. Each answers with the place after the record,
// and the code points of its text.
#![tactic(auto)]

ghost use Rattle.std.specs.Prelude.{◌≡◌, Bool, ℕ, ◌+◌, ◌-◌, ◌≤◌, ◌∷◌, length, take, drop};
ghost use Rattle.std.proofs.lemmas.List.Edits.{sets};
ghost use Rattle.row_format.specs.Places.{row_limit};
ghost use Rattle.datatype.specs.declared.DataType.TheVariants.{Bool as BoolType, Date as DateType, Time as TimeType, Timestamp as TimestampType, Char as CharType, Varchar as VarcharType};
ghost use Rattle.datatype.specs.Schema.{column_kind};
ghost use Rattle.datatype.specs.InnerSteps.{plain_size, plain_type};
ghost use Rattle.stored_form.specs.Read.{read_slot};
ghost use Rattle.text.specs.Check.{points};
ghost use Rattle.slot_record.specs.InnerRecord.{recorded, text_recorded};

use datatype::schema_kinds;
use error::Refusal;
use value::{TextRange, value_kinds};

// The record of a number, whose bytes are the body.
fn number_record<const N: usize>(kind: u8, bytes: &[u8], out: &mut [u8], at: usize) -> usize
    requires { (length bytes.now ≡ N) × (at + 1 + N ≤ length out.old) }
    ensures { (result ≡ at + (1 + N)) × (out.new ≡ sets out.old at (kind ∷ bytes.now)) }
{
    record_encode::write_record::<N>(out, at, kind, *bytes.as_array().unwrap())
}

fn bool_record(bytes: &[u8], out: &mut [u8], at: usize) -> error::Result<(usize, u32)>
    requires { (length bytes.now ≡ 1) × (at + 18 ≤ length out.old) }
    ensures { (k : Bool) → (result, out.new)
        ≡ recorded k out.old at 0 0 (read_slot BoolType 0 bytes.now) }
{
    let byte = u8::from(bytes[0] != 0);
    Ok((
        record_encode::write_record(out, at, value_kinds::BOOL, [byte]),
        0,
    ))
}

// Stays: beside `timestamp_record`: each has its own width and test, and one function would take both as arguments.
fn date_record(i: usize, bytes: &[u8], out: &mut [u8], at: usize) -> error::Result<(usize, u32)>
    requires { (length bytes.now ≡ 4) × (at + 18 ≤ length out.old) }
    ensures { (k : Bool) → (result, out.new)
        ≡ recorded k out.old at i 0 (read_slot DateType 0 bytes.now) }
{
    if temporal::is_date(endian::read_i32(bytes, 0)) {
        Ok((number_record::<4>(value_kinds::DATE, bytes, out, at), 0))
    } else {
        Err(Refusal::NoValue(i))
    }
}

fn time_record(i: usize, bytes: &[u8], out: &mut [u8], at: usize) -> error::Result<(usize, u32)>
    requires { (length bytes.now ≡ 8) × (at + 18 ≤ length out.old) }
    ensures { (k : Bool) → (result, out.new)
        ≡ recorded k out.old at i 0 (read_slot TimeType 0 bytes.now) }
{
    match temporal::time_of(endian::read_i64(bytes, 0)) {
        Some(micros) => Ok((
            record_encode::write_record(out, at, value_kinds::TIME, micros.to_le_bytes()),
            0,
        )),
        None => Err(Refusal::NoValue(i)),
    }
}

fn timestamp_record(
    i: usize,
    bytes: &[u8],
    out: &mut [u8],
    at: usize,
) -> error::Result<(usize, u32)>
    requires { (length bytes.now ≡ 8) × (at + 18 ≤ length out.old) }
    ensures { (k : Bool) → (result, out.new)
        ≡ recorded k out.old at i 0 (read_slot TimestampType 0 bytes.now) }
{
    if temporal::is_timestamp(endian::read_i64(bytes, 0)) {
        Ok((
            number_record::<8>(value_kinds::TIMESTAMP, bytes, out, at),
            0,
        ))
    } else {
        Err(Refusal::NoValue(i))
    }
}

// A column of a kind without a body, wherever its bytes stand. The numbers have one kind as types and as values.
pub fn plain_record(
    kind: u8,
    i: usize,
    bytes: &[u8],
    out: &mut [u8],
    at: usize,
) -> error::Result<(usize, u32)>
    requires { (plain_size (column_kind kind) ≡ 0 → ⊥)
        × ((length bytes.now ≡ plain_size (column_kind kind)) × (at + 18 ≤ length out.old)) }
    ensures { (k : Bool) (start : ℕ) → (result, out.new)
        ≡ recorded k out.old at i 0
        (read_slot (plain_type (column_kind kind)) start bytes.now) }
{
    match kind {
        schema_kinds::SMALL_INT => Ok((
            number_record::<2>(value_kinds::SMALL_INT, bytes, out, at),
            0,
        )),
        schema_kinds::INT => Ok((number_record::<4>(value_kinds::INT, bytes, out, at), 0)),
        schema_kinds::BIG_INT => Ok((number_record::<8>(value_kinds::BIG_INT, bytes, out, at), 0)),
        schema_kinds::REAL => Ok((number_record::<4>(value_kinds::REAL, bytes, out, at), 0)),
        schema_kinds::DOUBLE_PRECISION => Ok((
            number_record::<8>(value_kinds::DOUBLE_PRECISION, bytes, out, at),
            0,
        )),
        schema_kinds::BOOL => bool_record(bytes, out, at),
        schema_kinds::DATE => date_record(i, bytes, out, at),
        schema_kinds::TIME => time_record(i, bytes, out, at),
        _ => timestamp_record(i, bytes, out, at),
    }
}

// The bytes of a row of a sort from `start` up to `end`.
#[derive(Clone, Copy)]
pub struct RowPart<'r> {
    pub row: &'r [u8],
    pub is_long: bool,
    pub start: usize,
    pub end: usize,
}

// The text of a part of a row, of at most n bytes or code points, as a value of this kind.
fn text_record(
    kind: u8,
    by_points: bool,
    n: usize,
    i: usize,
    part: RowPart,
    out: &mut [u8],
    at: usize,
) -> error::Result<(usize, u32)>
    requires { (part.start ≤ part.end)
        × ((part.end ≤ length part.row.now)
        × ((length part.row.now ≤ row_limit part.is_long) × (at + 18 ≤ length out.old))) }
    ensures { (result, out.new)
        ≡ text_recorded part.entry.is_long by_points n out.old at i kind part.entry.start
        (take (part.entry.end - part.entry.start) (drop part.entry.start part.entry.row.now)) }
{
    let RowPart {
        row,
        is_long,
        start,
        end,
    } = part;
    match text_limit::check_within(&row[start..end], by_points, n) {
        None => Err(Refusal::NoValue(i)),
        Some(points) => {
            let length = end - start;
            let range = TextRange { start, length };
            Ok((
                record_encode::write_range(out, at, is_long, kind, range),
                points as u32,
            ))
        }
    }
}

// The bytes of a Char or Character.
// Stays: beside `varchar_record`: the contracts name two types, and both are one call of `text_record`.
pub fn char_record(
    i: usize,
    part: RowPart,
    out: &mut [u8],
    at: usize,
) -> error::Result<(usize, u32)>
    requires { (part.start ≤ part.end)
        × ((part.end ≤ length part.row.now)
        × ((length part.row.now ≤ row_limit part.is_long) × (at + 18 ≤ length out.old))) }
    ensures { (result, out.new)
        ≡ recorded part.entry.is_long out.old at i
        (points (take (part.entry.end - part.entry.start) (drop part.entry.start part.entry.row.now)))
        (read_slot (CharType 0) part.entry.start
        (take (part.entry.end - part.entry.start) (drop part.entry.start part.entry.row.now))) }
{
    text_record(
        value_kinds::CHAR,
        false,
        part.end - part.start,
        i,
        part,
        out,
        at,
    )
}

// The same of a Varchar, whose n counts bytes or code points.
pub fn varchar_record(
    by_points: bool,
    n: usize,
    i: usize,
    part: RowPart,
    out: &mut [u8],
    at: usize,
) -> error::Result<(usize, u32)>
    requires { (part.start ≤ part.end)
        × ((part.end ≤ length part.row.now)
        × ((length part.row.now ≤ row_limit part.is_long) × (at + 18 ≤ length out.old))) }
    ensures { (result, out.new)
        ≡ recorded part.entry.is_long out.old at i
        (points (take (part.entry.end - part.entry.start) (drop part.entry.start part.entry.row.now)))
        (read_slot (VarcharType by_points n) part.entry.start
        (take (part.entry.end - part.entry.start) (drop part.entry.start part.entry.row.now))) }
{
    text_record(value_kinds::VARCHAR, by_points, n, i, part, out, at)
}
