// "Same content", which 01 adds to the Rust: whether two values of one type are the same.
#![tactic(auto)]

ghost use Rattle.std.specs.Prelude.{◌≡◌, true, length};
ghost use Rattle.bit_utils.specs.Bits.{bytes_for};
ghost use Rattle.datatype.specs.Types.{length_of};
ghost use Rattle.value.specs.Kinds.{kind_of};
ghost use Rattle.value.specs.Ranges.{text_of};
ghost use Rattle.value_same.specs.Same.{same_content};
ghost use Rattle.value_same.specs.InnerFields.{content_of, same_by_fields, stands_in};

use datatype::DataType;
use value::DataValue;

// A value's number by its bits, a Numeric's in two halves.
#[derive(Clone, Copy, PartialEq, Eq)]
pub struct Content {
    pub word: u64,
    pub upper: u64,
    pub scale: u8,
}

// The content of a value whose number has one word.
fn of_word(word: u64) -> Content
    ensures { (result.word ≡ word) × ((result.upper ≡ 0) × (result.scale ≡ 0)) }
{
    Content {
        word,
        upper: 0,
        scale: 0,
    }
}

fn content_of(v: DataValue) -> Content
    ensures { result ≡ content_of v }
{
    match v {
        DataValue::SmallInt(x) => of_word(x.cast_unsigned() as u64),
        DataValue::Int(x) => of_word(x.cast_unsigned() as u64),
        DataValue::BigInt(x) => of_word(x.cast_unsigned()),
        DataValue::Real(x) => of_word(x as u64),
        DataValue::DoublePrecision(x) => of_word(x),
        DataValue::Numeric(x) => Content {
            word: x.low,
            upper: x.high.cast_unsigned(),
            scale: x.scale,
        },
        DataValue::Bool(b) => of_word(b as u64),
        DataValue::Date(x) => of_word(x.cast_unsigned() as u64),
        DataValue::Time(x) => of_word(x.cast_unsigned()),
        DataValue::Timestamp(x) => of_word(x.cast_unsigned()),
        DataValue::Null | DataValue::Char(_) | DataValue::Varchar(_) | DataValue::Bit(_) => of_word(
            0,
        ),
    }
}

// Whether two values whose texts or packed bits are at hand are the same.
fn same_value(ty: DataType, a: DataValue, x: &[u8], b: DataValue, y: &[u8]) -> bool
    requires { (kind_of a ≡ 12 → length x.now ≡ bytes_for (length_of ty))
        × (kind_of b ≡ 12 → length y.now ≡ bytes_for (length_of ty)) }
    ensures { result ≡ same_by_fields (length_of ty) a x.now b y.now }
{
    match (a, b) {
        (DataValue::Real(p), DataValue::Real(q)) => float::same_value(p, q),
        (DataValue::DoublePrecision(p), DataValue::DoublePrecision(q)) => float::same_value(p, q),
        (DataValue::Bit(_), DataValue::Bit(_)) => bit_utils::same_bits(
            x,
            y,
            ty.declared_length() as usize,
        ),
        _ => a.kind() == b.kind() && endian::same_bytes(x, y) && content_of(a) == content_of(b),
    }
}

// Whether two values read from columns of type ty are the same, each with its row.
pub fn same_content(ty: DataType, a: DataValue, row_a: &[u8], b: DataValue, row_b: &[u8]) -> bool
    requires { (stands_in (length_of ty) a row_a.now ≡ true) × (stands_in (length_of ty) b row_b.now ≡ true) }
    ensures { result ≡ same_content (length_of ty) a (text_of row_a.now a)
        b (text_of row_b.now b) }
{
    let left = a.range();
    let right = b.range();
    let x = left.start;
    let y = right.start;
    same_value(
        ty,
        a,
        &row_a[x..x + left.length],
        b,
        &row_b[y..y + right.length],
    )
}
