// value.rs, `from_bytes`: what a column's bytes read as. They stand at `start` of a row, which is the value's text
// area.
#![tactic(auto)]

ghost use Rattle.std.specs.Prelude.{◌≡◌, true, false, cond, ◌+◌, ◌/◌, ◌^◌, ◌<◌, ◌≤◌, eqb, length, get_or, Some};
ghost use Rattle.std.specs.Int.{w32, w64};
ghost use Rattle.std.proofs.Common.{to_z};
ghost use Rattle.laws.specs.Bytes.{from_le};
ghost use Rattle.text.specs.Rfc3629.{is_text};
ghost use Rattle.text_limit.specs.Limit.{fits_text};
ghost use Rattle.temporal.specs.Ranges.{is_date, is_timestamp};
ghost use Rattle.temporal.specs.Time.{time_of};
ghost use Rattle.numeric.specs.Packed.{decode_bcd};
ghost use Rattle.datatype.specs.Types.{size_of, is_varlen, precision_of};
ghost use Rattle.value.specs.declared.DataValue.TheVariants.{Bool as BoolValue, Char as CharValue, Varchar as VarcharValue, Date as DateValue, Timestamp as TimestampValue, Numeric as NumericNumber};
ghost use Rattle.stored_form.specs.Number.{numeric_of};
ghost use Rattle.stored_form.specs.Read.{value_if, twos_complement, decoded, timed, whole, read_slot};

use datatype::DataType;
use value::{DataValue, NumericValue, TextRange};

// The halves of a number, in two's complement.
fn numeric_from(negative: bool, magnitude: u128, scale: u8) -> NumericValue
    requires { magnitude < 2 ^ 127 }
    ensures { result ≡ numeric_of negative magnitude scale }
{
    let bits = if negative {
        magnitude.wrapping_neg()
    } else {
        magnitude
    };
    let upper = (bits / 0x1_0000_0000_0000_0000) as u64;
    let low = (bits % 0x1_0000_0000_0000_0000) as u64;
    NumericValue {
        high: upper.cast_signed(),
        low,
        scale,
    }
}

// 17 bytes that are no digits: 16 of two's complement, and a scale.
fn from_twos_complement(bytes: &[u8]) -> Option<DataValue>
    ensures { result
        ≡ value_if (eqb (length bytes.now) 17) (NumericNumber (twos_complement bytes.now)) }
{
    if bytes.len() == 17 {
        let low = endian::read_u64(bytes, 0);
        let high = endian::read_i64(bytes, 8);
        let scale = bytes[16];
        return Some(DataValue::Numeric(NumericValue { high, low, scale }));
    }
    None
}

fn read_numeric(bytes: &[u8], p: usize, scale: u8) -> Option<DataValue>
    requires { (p ≤ 38) × (length bytes.now ≡ (p + 2) / 2) }
    ensures { result ≡ decoded scale bytes.now (decode_bcd p bytes.now) }
{
    match numeric::decode_numeric_bcd(bytes, p) {
        Some((negative, magnitude)) => {
            Some(DataValue::Numeric(numeric_from(negative, magnitude, scale)))
        }
        None => from_twos_complement(bytes),
    }
}

fn read_bool(bytes: &[u8]) -> Option<DataValue>
    requires { length bytes.now ≡ 1 }
    ensures { result ≡ Some (BoolValue (cond (eqb (get_or bytes.now 0 0) 0) 0 1)) }
{
    if bytes[0] == 0 {
        return Some(DataValue::Bool(0));
    }
    Some(DataValue::Bool(1))
}

fn read_char(bytes: &[u8], start: usize) -> Option<DataValue>
    ensures { result ≡ value_if (is_text bytes.now) (CharValue (whole start bytes.now)) }
{
    if text::is_valid(bytes) {
        let length = bytes.len();
        return Some(DataValue::Char(TextRange { start, length }));
    }
    None
}

fn read_varchar(bytes: &[u8], start: usize, by_points: bool, n: usize) -> Option<DataValue>
    ensures { result
        ≡ value_if (fits_text by_points n bytes.now) (VarcharValue (whole start bytes.now)) }
{
    if text_limit::is_within(bytes, by_points, n) {
        let length = bytes.len();
        return Some(DataValue::Varchar(TextRange { start, length }));
    }
    None
}

fn read_date(bytes: &[u8]) -> Option<DataValue>
    requires { length bytes.now ≡ 4 }
    ensures { result
        ≡ value_if (is_date (to_z w32 (from_le bytes.now)))
        (DateValue (to_z w32 (from_le bytes.now))) }
{
    let days = endian::read_i32(bytes, 0);
    if temporal::is_date(days) {
        return Some(DataValue::Date(days));
    }
    None
}

fn read_time(bytes: &[u8]) -> Option<DataValue>
    requires { length bytes.now ≡ 8 }
    ensures { result ≡ timed (time_of (to_z w64 (from_le bytes.now))) }
{
    let micros = temporal::time_of(endian::read_i64(bytes, 0))?;
    Some(DataValue::Time(micros))
}

fn read_timestamp(bytes: &[u8]) -> Option<DataValue>
    requires { length bytes.now ≡ 8 }
    ensures { result
        ≡ value_if (is_timestamp (to_z w64 (from_le bytes.now)))
        (TimestampValue (to_z w64 (from_le bytes.now))) }
{
    let micros = endian::read_i64(bytes, 0);
    if temporal::is_timestamp(micros) {
        return Some(DataValue::Timestamp(micros));
    }
    None
}

// What a column's bytes read as; none for bytes that are no value of its type.
pub fn from_bytes(ty: DataType, bytes: &[u8], start: usize) -> Option<DataValue>
    requires { (precision_of ty ≤ 38) × (is_varlen ty ≡ false → length bytes.now ≡ size_of ty) }
    ensures { result ≡ read_slot ty start bytes.now }
{
    let length = bytes.len();
    match ty {
        DataType::SmallInt => Some(DataValue::SmallInt(endian::read_i16(bytes, 0))),
        DataType::Int => Some(DataValue::Int(endian::read_i32(bytes, 0))),
        DataType::BigInt => Some(DataValue::BigInt(endian::read_i64(bytes, 0))),
        DataType::Real => Some(DataValue::Real(endian::read_u32(bytes, 0))),
        DataType::DoublePrecision => {
            Some(DataValue::DoublePrecision(endian::read_u64(bytes, 0)))
        }
        DataType::Numeric { precision, scale } => read_numeric(bytes, precision as usize, scale),
        DataType::Decimal { precision, scale } => read_numeric(bytes, precision as usize, scale),
        DataType::Bool => read_bool(bytes),
        DataType::Char(_) => read_char(bytes, start),
        DataType::Character(_) => read_char(bytes, start),
        DataType::Varchar { by_points, n } => read_varchar(bytes, start, by_points, n as usize),
        DataType::Date => read_date(bytes),
        DataType::Time => read_time(bytes),
        DataType::Bit(_) => Some(DataValue::Bit(TextRange { start, length })),
        DataType::Timestamp => read_timestamp(bytes),
    }
}
