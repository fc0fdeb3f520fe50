// null_bitmap.rs: a column's bit in lent bytes, low bit first, set for null. Where the Rust asserts, the answer is 9.
#![tactic(auto)]

ghost use Rattle.std.specs.Prelude.{◌≡◌, ◌+◌, ◌/◌, ◌<◌, eqb, length, drop};
ghost use Rattle.laws.specs.Bits.{bit_value, put_bit, bit_at};
ghost use Rattle.row_format.specs.Places.{bitmap_start};
ghost use Rattle.null_bitmap.specs.Bitmap.{null_flag};
ghost use Rattle.null_bitmap.specs.InnerBitmap.{flag_in, flag_put};

use error::Refusal;
use row_layout::RowLayout;

// The byte b with bit k set or cleared.
fn put_bit(b: u8, k: usize, set: bool) -> u8
    requires { k < 8 }
    ensures { result ≡ put_bit (bit_value set) k b }
{
    let bit = 1 << k;
    if set { b | bit } else { b & !bit }
}

pub fn bit_is_set(bits: &[u8], i: usize) -> bool
    requires { i / 8 < length bits.now }
    ensures { result ≡ eqb (bit_at i bits.now) 1 }
{
    (bits[i / 8] >> (i % 8)) % 2 == 1
}

// The same of the bitmap of a row.
pub fn column_bit_is_set(row: &[u8], i: usize) -> bool
    requires { bitmap_start + i / 8 < length row.now }
    ensures { result ≡ eqb (bit_at i (drop bitmap_start row.now)) 1 }
{
    let bitmap = RowLayout::bitmap_offset();
    bit_is_set(&row[bitmap..], i)
}

// Whether column i of n is null.
pub fn is_null(bits: &[u8], n: usize, i: usize) -> error::Result<bool>
    ensures { result ≡ flag_in n i bits.now }
{
    if n <= i {
        return Err(Refusal::NoSuchColumn);
    }
    if bits.len() <= i / 8 {
        return Err(Refusal::NoSuchColumn);
    }
    Ok(bit_is_set(bits, i))
}

// Column i of n marked null, or not null.
pub fn put_null(bits: &mut [u8], n: usize, i: usize, null: bool) -> error::Result<()>
    ensures { (result, bits.new) ≡ flag_put (bit_value null) n i bits.old }
{
    if n <= i {
        return Err(Refusal::NoSuchColumn);
    }
    if bits.len() <= i / 8 {
        return Err(Refusal::NoSuchColumn);
    }
    bits[i / 8] = put_bit(bits[i / 8], i % 8, null);
    Ok(())
}

pub fn set_null(bits: &mut [u8], n: usize, i: usize) -> error::Result<()>
    ensures { (result, bits.new) ≡ flag_put 1 n i bits.old }
{
    put_null(bits, n, i, true)
}

pub fn clear_null(bits: &mut [u8], n: usize, i: usize) -> error::Result<()>
    ensures { (result, bits.new) ≡ flag_put 0 n i bits.old }
{
    put_null(bits, n, i, false)
}

// Whether a column of a row is null, by the row's own mark, header and bitmap.
pub fn is_column_null_in_row(row: &[u8], column: usize) -> error::Result<bool>
    ensures { result ≡ null_flag row.now column }
{
    let is_long = row_layout::is_long(row);
    if row_layout::row_limit(is_long) < row.len() {
        return Err(Refusal::RowTooLong);
    }
    let bitmap = RowLayout::bitmap_offset();
    if row.len() < bitmap {
        return Err(Refusal::RowTooShort);
    }
    let n = endian::read_u16(row, 0) as usize;
    if n <= column {
        return Err(Refusal::NoSuchColumn);
    }
    if row.len() < bitmap + (n + 7) / 8 {
        return Err(Refusal::RowTooShort);
    }
    Ok(column_bit_is_set(row, column))
}
