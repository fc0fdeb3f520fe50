// row.rs, `set_value` and `set_null`: the stores of an edit, in a lent buffer whose first bytes are the row.
#![tactic(auto)]

ghost use Rattle.std.specs.Prelude.{◌≡◌, true, false, [], ◌+◌, ◌*◌, ◌-◌, ◌^◌, ◌≤◌, ◌<◌, length, take, drop};
ghost use Rattle.std.proofs.Math.Option.{none, some};
ghost use Rattle.std.proofs.lemmas.List.Edits.{sets};
ghost use Rattle.laws.specs.Bytes.{to_le, entry_at, splice};
ghost use Rattle.laws.specs.Bits.{bit_value};
ghost use Rattle.row_format.specs.Places.{table_start, offset_width};
ghost use Rattle.row_format.specs.Edit.{offset_table, span, moved_by, range_edit, slot_edit};
ghost use Rattle.datatype.specs.Types.{size_of, is_varlen};
ghost use Rattle.value.specs.Ranges.{range_of};
ghost use Rattle.row_patch.specs.InnerHeld.{held, Holds};
ghost use Rattle.row_patch.specs.InnerOffsets.{moved_from, table_edit, CanMove, HigherMove};
ghost use Rattle.row_patch.specs.InnerStores.{form_of, bit_put, column_set, row_set, Suited, change, Replaceable, RangeReady, Editable};

use datatype::DataType;
use row_layout::{OffsetTable, RowLayout};
use value::DataValue;

// ---- the offset table

// An offset of 0 says null and stays.
fn move_offset(row: &mut [u8], table: OffsetTable, rank: usize, end: usize, new_end: usize)
    requires { (table.start + (rank + 1) * offset_width table.is_long ≤ length row.old)
        × CanMove (offset_width table.is_long) end new_end
        (entry_at (offset_width table.is_long) table.start rank row.old) }
    ensures { row.new
        ≡ sets row.old (table.start + rank * offset_width table.is_long)
        (to_le (offset_width table.is_long)
        (moved_by end new_end (entry_at (offset_width table.is_long) table.start rank row.old))) }
{
    let o = table.offset_at(row, rank);
    if o != 0 {
        table.put_offset(row, rank, o + new_end - end);
    }
}

// The offsets of higher rank.
fn move_offsets(row: &mut [u8], table: OffsetTable, rank: usize, end: usize, new_end: usize)
    requires { HigherMove (offset_width table.is_long) table.start table.entries rank end new_end row.old }
    ensures { row.new
        ≡ moved_from (offset_width table.is_long) table.start table.entries (rank + 1) end new_end
        row.old }
{
    for k in rank + 1..table.entries {
        move_offset(row, table, k, end, new_end);
    }
}

// The table, where the range of a rank ended at `end` and ends at `new_end` now, and has the offset `own`.
fn edit_table(
    row: &mut [u8],
    table: OffsetTable,
    rank: usize,
    own: usize,
    end: usize,
    new_end: usize,
)
    requires { HigherMove (offset_width table.is_long) table.start table.entries rank end new_end row.old
        × (own < 256 ^ offset_width table.is_long) }
    ensures { row.new
        ≡ table_edit (offset_table (offset_width table.is_long) table.start table.entries) rank own
        end new_end row.old }
{
    move_offsets(row, table, rank, end, new_end);
    table.put_offset(row, rank, own);
}

// ---- bytes of the row replaced

// The tail of the row, which starts at `end`, starts `size` bytes behind `start` afterwards.
fn move_tail(buf: &mut [u8], n: usize, start: usize, end: usize, size: usize)
    requires { Replaceable (change n start end size) buf.old }
    ensures { buf.new
        ≡ sets buf.old (start + size) (take (n - end) (drop end buf.old)) }
{
    endian::move_within(&mut buf[start..], end - start, size, n - end);
}

// The bytes from `start` up to `end` make way for a stored form of `size` bytes.
fn replace(
    buf: &mut [u8],
    n: usize,
    start: usize,
    end: usize,
    size: usize,
    ty: DataType,
    value: DataValue,
    area: &[u8],
)
    requires { Replaceable (change n start end size) buf.old
        × (Suited ty value area.now × (length (form_of ty value area.now) ≡ size)) }
    ensures { buf.new
        ≡ held buf.old
        (splice start end (form_of ty value area.now) (take n buf.old)) }
{
    move_tail(buf, n, start, end, size);
    value_encode::to_bytes_for_type(&mut buf[start..], 0, ty, value, area);
}

fn remove(buf: &mut [u8], n: usize, start: usize, end: usize)
    requires { Replaceable (change n start end 0) buf.old }
    ensures { buf.new ≡ held buf.old (splice start end [] (take n buf.old)) }
{
    move_tail(buf, n, start, end, 0);
}

// ---- a column

// The range of a Varchar, from `start` to `end`, gets the value's text. The answer is the row's new length.
fn store_varlen(
    buf: &mut [u8],
    n: usize,
    table: OffsetTable,
    rank: usize,
    start: usize,
    end: usize,
    ty: DataType,
    value: DataValue,
    area: &[u8],
) -> usize
    requires { RangeReady table.is_long table.start table.entries rank
        (change n start end (range_of value).length) buf.old
        × (Suited ty value area.now × (is_varlen ty ≡ true)) }
    ensures { Holds buf.old
        (range_edit (offset_table (offset_width table.is_long) table.start table.entries) rank
        (some (form_of ty value area.now)) (span start end) (take n buf.old))
        buf.new result }
{
    let range = value.range();
    let size = range.length;
    replace(buf, n, start, end, size, ty, value, area);
    let m = start + size + (n - end);
    edit_table(&mut buf[..m], table, rank, start, end, start + size);
    m
}

// The range is removed, and the offset of a null is 0.
// Stays: a null has no value, text or size; with an Option store_varlen would ask for each of them.
fn null_varlen(
    buf: &mut [u8],
    n: usize,
    table: OffsetTable,
    rank: usize,
    start: usize,
    end: usize,
) -> usize
    requires { RangeReady table.is_long table.start table.entries rank (change n start end 0) buf.old }
    ensures { Holds buf.old
        (range_edit (offset_table (offset_width table.is_long) table.start table.entries) rank none
        (span start end) (take n buf.old)) buf.new result }
{
    remove(buf, n, start, end);
    let m = start + (n - end);
    edit_table(&mut buf[..m], table, rank, 0, end, start);
    m
}

// A fixed column's slot, at `at`, gets the value's stored form.
fn store_fixed(buf: &mut [u8], n: usize, at: usize, ty: DataType, value: DataValue, area: &[u8])
    requires { Suited ty value area.now
        × ((is_varlen ty ≡ false) × ((at + size_of ty ≤ n) × (n ≤ length buf.old))) }
    ensures { Holds buf.old
        (slot_edit at (size_of ty) (some (form_of ty value area.now)) (take n buf.old))
        buf.new n }
{
    value_encode::to_bytes_for_type(buf, at, ty, value, area);
}

// The column's bit, in a row with a bitmap of so many columns.
fn put_bit(row: &mut [u8], columns: usize, column: usize, null: bool)
    requires { (column < columns) × (table_start columns ≤ length row.old) }
    ensures { row.new ≡ bit_put (bit_value null) column row.old }
{
    let bitmap = RowLayout::bitmap_offset();
    null_bitmap::put_null(&mut row[bitmap..], columns, column, null).unwrap();
}

// ---- a column and its bit

// The column of type ty that comes after those of `before` gets the value. Start and end are those of a Varchar's
// range.
fn store_column(
    buf: &mut [u8],
    n: usize,
    layout: RowLayout,
    packed: bool,
    before: RowLayout,
    ty: DataType,
    start: usize,
    end: usize,
    value: DataValue,
    area: &[u8],
) -> usize
    requires { Editable layout packed before ty (change n start end (range_of value).length) buf.old
        × Suited ty value area.now }
    ensures { Holds buf.old
        (column_set layout packed before ty (span start end) (some (form_of ty value area.now))
        (take n buf.old)) buf.new result }
{
    if ty.is_variable_length() {
        return store_varlen(
            buf,
            n,
            layout.offset_table(),
            before.num_varlen_cols,
            start,
            end,
            ty,
            value,
            area,
        );
    }
    let at = layout.fixed_data_start() + before.slot_start(packed, ty.alignment());
    store_fixed(buf, n, at, ty, value, area);
    n
}

// A null leaves the slot of a fixed column as it is.
// Stays: as null_varlen beside store_varlen.
fn store_null(
    buf: &mut [u8],
    n: usize,
    layout: RowLayout,
    packed: bool,
    before: RowLayout,
    ty: DataType,
    start: usize,
    end: usize,
) -> usize
    requires { Editable layout packed before ty (change n start end 0) buf.old }
    ensures { Holds buf.old
        (column_set layout packed before ty (span start end) none (take n buf.old)) buf.new
        result }
{
    if ty.is_variable_length() {
        let rank = before.num_varlen_cols;
        return null_varlen(buf, n, layout.offset_table(), rank, start, end);
    }
    n
}

// The row of n bytes gets the value in this column. The answer is its new length.
pub fn write_value(
    buf: &mut [u8],
    n: usize,
    layout: RowLayout,
    packed: bool,
    before: RowLayout,
    ty: DataType,
    start: usize,
    end: usize,
    value: DataValue,
    area: &[u8],
) -> usize
    requires { Editable layout packed before ty (change n start end (range_of value).length) buf.old
        × Suited ty value area.now }
    ensures { Holds buf.old
        (row_set layout packed before ty (span start end) (some (form_of ty value area.now))
        (take n buf.old)) buf.new result }
{
    let m = store_column(buf, n, layout, packed, before, ty, start, end, value, area);
    put_bit(&mut buf[..m], layout.num_columns, before.num_columns, false);
    m
}

// Stays: as null_varlen beside store_varlen.
pub fn write_null(
    buf: &mut [u8],
    n: usize,
    layout: RowLayout,
    packed: bool,
    before: RowLayout,
    ty: DataType,
    start: usize,
    end: usize,
) -> usize
    requires { Editable layout packed before ty (change n start end 0) buf.old }
    ensures { Holds buf.old
        (row_set layout packed before ty (span start end) none (take n buf.old)) buf.new result }
{
    let m = store_null(buf, n, layout, packed, before, ty, start, end);
    put_bit(&mut buf[..m], layout.num_columns, before.num_columns, true);
    m
}
