// value.rs, `to_bytes_for_type`: whether a type holds a value, and the value's stored form at a place of a buffer.
#![tactic(auto)]

ghost use Rattle.std.specs.Prelude.{◌≡◌, true, [], ◌∷◌, ◌++◌, ◌+◌, ◌-◌, ◌^◌, ◌/◌, ◌<◌, ◌≤◌, leb, length, replicate};
ghost use Rattle.std.proofs.lemmas.List.Edits.{sets};
ghost use Rattle.bit_utils.specs.Bits.{bytes_for, pack_bits, unpack_bits};
ghost use Rattle.numeric.specs.Packed.{encode_bcd};
ghost use Rattle.datatype.specs.declared.DataType.TheVariants.{Numeric as NumericType};
ghost use Rattle.datatype.specs.Types.{precision_of};
ghost use Rattle.value.specs.Ranges.{text_of};
ghost use Rattle.stored_form.specs.Number.{is_negative, magnitude as sizeOfNumber};
ghost use Rattle.stored_form.specs.Write.{fits_digits, suits as suitsType, accepted, stored_form};

use datatype::DataType;
use value::{DataValue, NumericValue};

// The magnitude of a number in two halves.
fn magnitude(high: i64, low: u64) -> u128
    ensures { result ≡ sizeOfNumber high low }
{
    (high as i128 * 0x1_0000_0000_0000_0000 + low as i128).unsigned_abs()
}

// Whether a Numeric(p, s) holds a number.
pub fn fits_number(n: NumericValue, p: usize, s: u8) -> bool
    requires { p ≤ 38 }
    ensures { result ≡ fits_digits (NumericType p s) n.scale (sizeOfNumber n.high n.low) }
{
    n.scale == s && numeric::has_digits(magnitude(n.high, n.low), p)
}

fn fits_digits(ty: DataType, n: NumericValue) -> bool
    requires { precision_of ty ≤ 38 }
    ensures { result ≡ fits_digits ty n.scale (sizeOfNumber n.high n.low) }
{
    fits_number(n, ty.precision() as usize, ty.scale())
}

// Whether the type holds a value whose text is at hand.
fn suits_text(ty: DataType, value: DataValue, text: &[u8]) -> bool
    requires { precision_of ty ≤ 38 }
    ensures { result ≡ suitsType ty value text.now }
{
    let n = ty.declared_length() as usize;
    match value {
        DataValue::Null => false,
        DataValue::SmallInt(_) => true,
        DataValue::Int(_) => true,
        DataValue::BigInt(_) => true,
        DataValue::Real(_) => true,
        DataValue::DoublePrecision(_) => true,
        DataValue::Numeric(x) => fits_digits(ty, x),
        DataValue::Bool(b) => b <= 1,
        DataValue::Char(_) => text_limit::is_within(text, false, n),
        DataValue::Varchar(_) => text_limit::is_within(text, ty.counts_points(), n),
        DataValue::Date(days) => temporal::is_date(days),
        DataValue::Time(micros) => temporal::is_time(micros),
        DataValue::Bit(_) => text.len() == bit_utils::byte_count(n),
        DataValue::Timestamp(micros) => temporal::is_timestamp(micros),
    }
}

fn in_area(start: usize, size: usize, area: usize) -> bool
    ensures { result ≡ leb (start + size) area }
{
    if area < start {
        return false;
    }
    size <= area - start
}

// Whether the type holds the value, whose text is in the area.
pub fn suits(ty: DataType, value: DataValue, area: &[u8]) -> bool
    requires { precision_of ty ≤ 38 }
    ensures { result ≡ accepted ty value area.now }
{
    let range = value.range();
    let start = range.start;
    let length = range.length;
    if in_area(start, length, area.len()) {
        return suits_text(ty, value, &area[start..start + length]);
    }
    false
}

fn write_byte(out: &mut [u8], at: usize, b: u8)
    requires { at + 1 ≤ length out.old }
    ensures { out.new ≡ sets out.old at (b ∷ []) }
{
    out[at] = b;
}

// The packed form of a number of at most p digits.
// Stays: two halves, for a NumericValue goes through memory here (tried: building numbers of five digits 7 percent
// slower).
pub fn write_number(out: &mut [u8], at: usize, high: i64, low: u64, p: usize)
    requires { (p ≤ 38) × ((sizeOfNumber high low < 10 ^ p) × (at + (p + 2) / 2 ≤ length out.old)) }
    ensures { out.new
        ≡ sets out.old at (encode_bcd p (is_negative high) (sizeOfNumber high low)) }
{
    numeric::encode_numeric_bcd(out, at, magnitude(high, low), high < 0, p);
}

// The text, then blanks up to n bytes.
pub fn write_char(out: &mut [u8], at: usize, text: &[u8], n: usize)
    requires { (length text.now ≤ n) × (at + n ≤ length out.old) }
    ensures { out.new
        ≡ sets out.old at (text.now ++ replicate (n - length text.now) 0x20) }
{
    let size = text.len();
    endian::copy(out, at, text);
    endian::fill(out, at + size, n - size, 0x20);
}

// n bits, and zeros in the rest of the last byte.
pub fn write_bits(out: &mut [u8], at: usize, bits: &[u8], n: usize)
    requires { (length bits.now ≡ bytes_for n) × (at + bytes_for n ≤ length out.old) }
    ensures { out.new ≡ sets out.old at (pack_bits n (unpack_bits n bits.now)) }
{
    endian::copy(out, at, bits);
    bit_utils::clear_spare_bits(out, at, n);
}

// The stored form of a value whose text is at hand.
fn write_value(out: &mut [u8], at: usize, ty: DataType, value: DataValue, text: &[u8])
    requires { (precision_of ty ≤ 38)
        × ((suitsType ty value text.now ≡ true)
        × (at + length (stored_form ty value text.now) ≤ length out.old)) }
    ensures { out.new ≡ sets out.old at (stored_form ty value text.now) }
{
    let n = ty.declared_length() as usize;
    let p = ty.precision() as usize;
    match value {
        DataValue::Null => {}
        DataValue::SmallInt(x) => endian::write_i16(out, at, x),
        DataValue::Int(x) => endian::write_i32(out, at, x),
        DataValue::BigInt(x) => endian::write_i64(out, at, x),
        DataValue::Real(x) => endian::write_u32(out, at, x),
        DataValue::DoublePrecision(x) => endian::write_u64(out, at, x),
        DataValue::Numeric(x) => write_number(out, at, x.high, x.low, p),
        DataValue::Bool(b) => write_byte(out, at, b),
        DataValue::Char(_) => write_char(out, at, text, n),
        DataValue::Varchar(_) => endian::copy(out, at, text),
        DataValue::Date(x) => endian::write_i32(out, at, x),
        DataValue::Time(x) => endian::write_i64(out, at, x),
        DataValue::Bit(_) => write_bits(out, at, text, n),
        DataValue::Timestamp(x) => endian::write_i64(out, at, x),
    }
}

// The stored form of a value that the type holds, written at `at`.
pub fn to_bytes_for_type(out: &mut [u8], at: usize, ty: DataType, value: DataValue, area: &[u8])
    requires { (precision_of ty ≤ 38)
        × ((accepted ty value area.now ≡ true)
        × (at + length (stored_form ty value (text_of area.now value)) ≤ length out.old)) }
    ensures { out.new
        ≡ sets out.old at (stored_form ty value (text_of area.now value)) }
{
    let range = value.range();
    let start = range.start;
    let end = start + range.length;
    write_value(out, at, ty, value, &area[start..end]);
}
