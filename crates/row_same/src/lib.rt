// Whether two rows of one schema have the same content. The first row is checked to its end, since its refusals come
// before any of the second. Then both are compared column by column up to the first difference, and what is left of
// the second row is checked. Columns that hold the same bytes have the same content, whatever their type; only others
// are compared by their values. Each row has a layout of its own sort: `layout` is row a's, `other` row b's.
#![tactic(auto)]

ghost use Rattle.std.specs.Prelude.{◌≡◌, true, ◌<◌};
ghost use Rattle.laws.specs.Bytes.{same_bytes};
ghost use Rattle.row_layout.specs.InnerRange.{Inside};
ghost use Rattle.datatype.specs.Types.{length_of};
ghost use Rattle.datatype.specs.Schema.{column_record_at};
ghost use Rattle.datatype.specs.InnerSteps.{type_in};
ghost use Rattle.datatype.specs.Check.{types_in};
ghost use Rattle.datatype.specs.InnerCheck.{Accepted};
ghost use Rattle.row_column.specs.InnerWalk.{Framed, Reachable};
ghost use Rattle.row_sound.specs.InnerSlots.{Recorded};
ghost use Rattle.value_same.specs.InnerFields.{stands_in};
ghost use Rattle.row_same.specs.Rows.{same_call};
ghost use Rattle.row_same.specs.InnerWalk.{compared_with, compared_at, walked_all, walked_row, limited_row, both_read};
ghost use Rattle.row_same.specs.InnerWalk.{AllRead, Stands};
ghost use Rattle.row_same.specs.InnerStored.{alike_ranges, range_in, fixed_part, stored_alike, Ranked, Beside};

use datatype::DataType;
use row_layout::{RowLayout, VarlenRange};
use value::DataValue;

// Whether two ranges of their rows are of the same bytes.
fn alike_ranges(a: &[u8], first: VarlenRange, b: &[u8], second: VarlenRange) -> bool
    requires { Inside a.now first × Inside b.now second }
    ensures { result ≡ alike_ranges a.now first b.now second }
{
    match (first, second) {
        (VarlenRange::Bytes(start, end), VarlenRange::Bytes(from, to)) => {
            endian::same_bytes(&a[start..end], &b[from..to])
        }
        _ => false,
    }
}

// Whether the Varchars of a rank stand in ranges of the same bytes, in rows of which one is long.
fn long_ranges(rank: usize, layout: RowLayout, a: &[u8], other: RowLayout, b: &[u8]) -> bool
    requires { Ranked rank layout a.now × Ranked rank other b.now }
    ensures { result ≡ alike_ranges a.now (range_in rank layout a.now)
        b.now (range_in rank other b.now) }
{
    let first = layout.offset_table().varlen_range(a, rank);
    let second = other.offset_table().varlen_range(b, rank);
    alike_ranges(a, first, b, second)
}

// The same in rows of any sort: that both are short is asked once, and not again at each offset.
fn same_ranges(rank: usize, layout: RowLayout, a: &[u8], other: RowLayout, b: &[u8]) -> bool
    requires { Ranked rank layout a.now × Ranked rank other b.now }
    ensures { result ≡ alike_ranges a.now (range_in rank layout a.now)
        b.now (range_in rank other b.now) }
{
    if layout.is_long | other.is_long {
        return long_ranges(rank, layout, a, other, b);
    }
    let first = layout.of_sort(false).offset_table().varlen_range(a, rank);
    let second = other.of_sort(false).offset_table().varlen_range(b, rank);
    alike_ranges(a, first, b, second)
}

// Whether the fixed bytes of a column are the same, those that pad its start included: `before` is the layout of the
// columns before it, `after` with it.
fn same_slots(
    before: RowLayout,
    after: RowLayout,
    layout: RowLayout,
    p: bool,
    a: &[u8],
    other: RowLayout,
    q: bool,
    b: &[u8],
) -> bool
    requires { (Beside before after layout p a.now × Beside before after other q b.now)
        × (before.num_varlen_cols < after.num_varlen_cols → ⊥) }
    ensures { result ≡ same_bytes (fixed_part before after layout p a.now)
        (fixed_part before after other q b.now) }
{
    let base = layout.fixed_data_start();
    let start = base + before.fixed_size(p);
    let end = base + after.fixed_size(p);
    let second = other.fixed_data_start();
    let from = second + before.fixed_size(q);
    let to = second + after.fixed_size(q);
    endian::same_bytes(&a[start..end], &b[from..to])
}

// Whether a column is null in both rows, or not null and of the same bytes.
fn same_stored(
    before: RowLayout,
    after: RowLayout,
    layout: RowLayout,
    p: bool,
    a: &[u8],
    other: RowLayout,
    q: bool,
    b: &[u8],
) -> bool
    requires { Beside before after layout p a.now × Beside before after other q b.now }
    ensures { result ≡ stored_alike before after layout p a.now other q b.now }
{
    let i = before.num_columns;
    if null_bitmap::column_bit_is_set(a, i) {
        return null_bitmap::column_bit_is_set(b, i);
    }
    if null_bitmap::column_bit_is_set(b, i) {
        return false;
    }
    let rank = before.num_varlen_cols;
    if rank < after.num_varlen_cols {
        same_ranges(rank, layout, a, other, b)
    } else {
        same_slots(before, after, layout, p, a, other, q, b)
    }
}

// The column whose record stands at a place of the schema, by its values.
fn compare_column(
    schema: &[u8],
    at: usize,
    before: RowLayout,
    layout: RowLayout,
    p: bool,
    a: &[u8],
    other: RowLayout,
    q: bool,
    b: &[u8],
) -> error::Result<bool>
    requires { Recorded schema.now at
        × (Reachable layout p before (type_in (column_record_at schema.now at)) a.now
        × Reachable other q before (type_in (column_record_at schema.now at)) b.now) }
    ensures { result ≡ compared_at (type_in (column_record_at schema.now at)) before
        layout p a.now other q b.now }
{
    let (ty, _) = datatype::record_at(schema, at)?;
    let v = row_column::read_column(layout, p, before, ty, a)?;
    let w = row_column::read_column(other, q, before, ty, b)?;
    Ok(value_same::same_content(ty, v, a, w, b))
}

// All columns. The schema was checked, so that no record of it is refused here, and every column of row a reads.
// p and q: whether a and b are packed.
fn compare_columns(
    schema: &[u8],
    layout: RowLayout,
    p: bool,
    a: &[u8],
    other: RowLayout,
    q: bool,
    b: &[u8],
) -> error::Result<bool>
    requires { Framed schema.now layout p a.now × (Framed schema.now other q b.now
        × AllRead (walked_all (types_in schema.now) layout a.now p)) }
    ensures { result ≡ both_read (types_in schema.now)
        a.now (walked_all (types_in schema.now) layout a.now p)
        b.now (walked_all (types_in schema.now) other b.now q) }
{
    let mut before = RowLayout::new();
    let mut at = 0;
    // Stays: each record says where the next starts, which no range or iterator of std does.
    while at < schema.len() {
        let step = datatype::next_column(schema, at, before);
        let after = step.before;
        let next = step.at;
        if !same_stored(before, after, layout, p, a, other, q, b) {
            let same = compare_column(schema, at, before, layout, p, a, other, q, b)?;
            if !same {
                return row_reads::check_columns(schema, other, q, b, after, next, false);
            }
        }
        before = after;
        at = next;
    }
    Ok(true)
}

// The schema was checked for the sort of a; only the limit of a sort is left for that of b.
fn compare_rows(
    schema: &[u8],
    layout: RowLayout,
    a: &[u8],
    other: RowLayout,
    b: &[u8],
) -> error::Result<bool>
    requires { Accepted schema.now layout × Accepted schema.now other }
    ensures { result ≡ both_read (types_in schema.now)
        a.now (walked_row (types_in schema.now) layout a.now)
        b.now (limited_row schema.now other b.now) }
{
    let p = row_column::check_frame(layout, a)?;
    row_reads::check_columns(schema, layout, p, a, RowLayout::new(), 0, true)?;
    datatype::finish(other, schema.len())?;
    let q = row_column::check_frame(other, b)?;
    compare_columns(schema, layout, p, a, other, q, b)
}

// Whether two rows have the same content, each of the sort that its own mark tells.
pub fn same_content(schema: &[u8], a: &[u8], b: &[u8]) -> error::Result<bool>
    ensures { result ≡ same_call schema.now a.now b.now }
{
    let is_long = row_layout::is_long(a);
    let layout = datatype::check_schema(schema, is_long)?;
    let other = layout.of_sort(row_layout::is_long(b));
    compare_rows(schema, layout.of_sort(is_long), a, other, b)
}
