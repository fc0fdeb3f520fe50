// row.rs, `set_value` and `set_null`, on the row in the first bytes of a lent buffer. The row's own mark tells its
// sort. All tests come before the first store.
#![tactic(auto)]

ghost use Rattle.std.specs.Prelude.{◌≡◌, true, false, ◌≤◌, ◌<◌, length, Ok};
ghost use Rattle.std.proofs.Math.Option.{none, some};
ghost use Rattle.row_layout.specs.InnerLayout.{Bounded};
ghost use Rattle.row_format.specs.Places.{offset_width, fixed_start};
ghost use Rattle.datatype.specs.Types.{is_varlen};
ghost use Rattle.datatype.specs.Check.{type_at, types_in};
ghost use Rattle.datatype.specs.InnerCheck.{Accepted};
ghost use Rattle.value_list.specs.Lists.{checked};
ghost use Rattle.value_list.specs.InnerLists.{answer};
ghost use Rattle.record_slot.specs.Stored.{stored_in};
ghost use Rattle.row_build.specs.Build.{row_placed};
ghost use Rattle.error.specs.Answer.{unchanged};
ghost use Rattle.row_column.specs.Frame.{on_frame};
ghost use Rattle.row_column.specs.InnerWalk.{Found};
ghost use Rattle.row_patch.specs.InnerStores.{form_of, Suited};
ghost use Rattle.row_edit.specs.Edit.{opening, written, edited, row_stored, given, set_call, set_null_call};
ghost use Rattle.row_edit.specs.InnerOpened.{Opened, RangeAt};

use error::Refusal;
use row_column::Column;
use row_layout::RowLayout;
use std::ops::Range;
use value::DataValue;

// The range of a Varchar. That of a null is empty and stands where its text would.
fn range_at(layout: RowLayout, before: RowLayout, row: &[u8]) -> Range<usize>
    requires { Bounded layout
        × ((before.num_varlen_cols < layout.num_varlen_cols)
        × (fixed_start (offset_width layout.is_long) layout.num_columns layout.num_varlen_cols
        ≤ length row.now)) }
    ensures { RangeAt layout before row.now result.start result.end }
{
    let table = layout.offset_table();
    let rank = before.num_varlen_cols;
    let end = table.range_end(row, rank);
    let start = table.offset_at(row, rank);
    if start != 0 { start..end } else { end..end }
}

// A value for a fixed column takes no more room.
fn set_fixed(
    schema: &[u8],
    layout: RowLayout,
    packed: bool,
    buf: &mut [u8],
    n: usize,
    column: usize,
    found: Column,
    value: DataValue,
    area: &[u8],
) -> error::Result<usize>
    requires { Opened schema.now layout packed buf.old n column
        × (Found schema.now column found
        × ((is_varlen found.ty ≡ false) × Suited found.ty value area.now)) }
    ensures { (result, buf.new)
        ≡ row_placed layout.is_long buf.old
        (edited (offset_width layout.is_long) (types_in schema.now) packed buf.old n column
        (some (form_of found.ty value area.now))) }
{
    let ty = found.ty;
    let before = found.before;
    Ok(row_patch::write_value(buf, n, layout, packed, before, ty, 0, 0, value, area))
}

// A text moves what comes behind it: the row's new length is tested first.
fn set_varlen(
    schema: &[u8],
    layout: RowLayout,
    packed: bool,
    buf: &mut [u8],
    n: usize,
    column: usize,
    found: Column,
    value: DataValue,
    area: &[u8],
) -> error::Result<usize>
    requires { Opened schema.now layout packed buf.old n column
        × (Found schema.now column found
        × ((is_varlen found.ty ≡ true) × Suited found.ty value area.now)) }
    ensures { (result, buf.new)
        ≡ row_placed layout.is_long buf.old
        (edited (offset_width layout.is_long) (types_in schema.now) packed buf.old n column
        (some (form_of found.ty value area.now))) }
{
    let ty = found.ty;
    let before = found.before;
    let range = range_at(layout, before, &buf[..n]);
    let start = range.start;
    let end = range.end;
    let kept = start + (n - end);
    let text = value.range();
    if row_layout::row_limit(layout.is_long) - kept < text.length {
        return Err(Refusal::RowLimit);
    }
    if buf.len() < kept + text.length {
        return Err(Refusal::NoRoom);
    }
    Ok(row_patch::write_value(buf, n, layout, packed, before, ty, start, end, value, area))
}

// A value that the column may hold.
fn set_suited(
    schema: &[u8],
    layout: RowLayout,
    packed: bool,
    buf: &mut [u8],
    n: usize,
    column: usize,
    found: Column,
    value: DataValue,
    area: &[u8],
) -> error::Result<usize>
    requires { Opened schema.now layout packed buf.old n column
        × (Found schema.now column found × Suited found.ty value area.now) }
    ensures { (result, buf.new)
        ≡ row_placed layout.is_long buf.old
        (edited (offset_width layout.is_long) (types_in schema.now) packed buf.old n column
        (some (form_of found.ty value area.now))) }
{
    let ty = found.ty;
    if ty.is_variable_length() {
        set_varlen(schema, layout, packed, buf, n, column, found, value, area)
    } else {
        set_fixed(schema, layout, packed, buf, n, column, found, value, area)
    }
}

// The kind is judged before the value.
fn set_column(
    schema: &[u8],
    layout: RowLayout,
    packed: bool,
    buf: &mut [u8],
    n: usize,
    column: usize,
    value: DataValue,
    area: &[u8],
) -> error::Result<usize>
    requires { Opened schema.now layout packed buf.old n column }
    ensures { (result, buf.new)
        ≡ written layout.is_long (types_in schema.now) packed buf.old n column
        (stored_in column (type_at (types_in schema.now) column) value area.now) }
{
    let found = row_column::column_at(schema, column);
    let ty = found.ty;
    if !value::data_value_matches_type(ty, value) {
        return Err(Refusal::WrongKind(column));
    }
    if !value_encode::suits(ty, value, area) {
        return Err(Refusal::Unsuitable(column));
    }
    set_suited(schema, layout, packed, buf, n, column, found, value, area)
}

// The list is checked, and has one record then.
fn set_list(
    schema: &[u8],
    layout: RowLayout,
    packed: bool,
    buf: &mut [u8],
    n: usize,
    column: usize,
    values: &[u8],
    area: &[u8],
) -> error::Result<usize>
    requires { Opened schema.now layout packed buf.old n column }
    ensures { (result, buf.new)
        ≡ written layout.is_long (types_in schema.now) packed buf.old n column
        (given layout.is_long (type_at (types_in schema.now) column) column values.now
        area.now) }
{
    value_list::check_values(values, layout.is_long, 1, area.len())?;
    let (v, _) = value_list::value_record_at(values, 0)?;
    set_column(schema, layout, packed, buf, n, column, v, area)
}

fn null_column(
    schema: &[u8],
    layout: RowLayout,
    packed: bool,
    buf: &mut [u8],
    n: usize,
    column: usize,
) -> error::Result<usize>
    requires { Opened schema.now layout packed buf.old n column }
    ensures { (result, buf.new)
        ≡ row_stored buf.old
        (edited (offset_width layout.is_long) (types_in schema.now) packed buf.old n column
        none) }
{
    let found = row_column::column_at(schema, column);
    let ty = found.ty;
    let before = found.before;
    if ty.is_variable_length() {
        let range = range_at(layout, before, &buf[..n]);
        return Ok(row_patch::write_null(
            buf,
            n,
            layout,
            packed,
            before,
            ty,
            range.start,
            range.end,
        ));
    }
    Ok(row_patch::write_null(buf, n, layout, packed, before, ty, 0, 0))
}

// What both calls ask of the row, behind the schema's check: whether it is packed.
fn open_row(
    schema: &[u8],
    layout: RowLayout,
    buf: &[u8],
    n: usize,
    column: usize,
) -> error::Result<bool>
    requires { Accepted schema.now layout }
    ensures { result ≡ opening layout.is_long (types_in schema.now) buf.now n column }
{
    if buf.len() < n {
        return Err(Refusal::NoRoom);
    }
    match row_sound::check_sound(schema, layout, &buf[..n]) {
        None => Err(Refusal::NotSound),
        Some(packed) => {
            if layout.num_columns <= column {
                return Err(Refusal::NoSuchColumn);
            }
            Ok(packed)
        }
    }
}

// Behind the schema's check, for a caller that keeps its layout. It is handed on built anew (`of_sort`).
pub fn set_checked(
    schema: &[u8],
    layout: RowLayout,
    buf: &mut [u8],
    n: usize,
    column: usize,
    values: &[u8],
    area: &[u8],
) -> error::Result<usize>
    requires { Accepted schema.now layout }
    ensures { (result, buf.new)
        ≡ on_frame (opening layout.is_long (types_in schema.now) buf.old n column)
        (unchanged buf.old)
        (λ p. written layout.is_long (types_in schema.now) p buf.old n column
        (given layout.is_long (type_at (types_in schema.now) column) column values.now
        area.now)) }
{
    let packed = open_row(schema, layout.of_sort(layout.is_long), buf, n, column)?;
    set_list(schema, layout, packed, buf, n, column, values, area)
}

pub fn null_checked(
    schema: &[u8],
    layout: RowLayout,
    buf: &mut [u8],
    n: usize,
    column: usize,
) -> error::Result<usize>
    requires { Accepted schema.now layout }
    ensures { (result, buf.new)
        ≡ on_frame (opening layout.is_long (types_in schema.now) buf.old n column)
        (unchanged buf.old)
        (λ p. row_stored buf.old
        (edited (offset_width layout.is_long) (types_in schema.now) p buf.old n column
        none)) }
{
    let packed = open_row(schema, layout.of_sort(layout.is_long), buf, n, column)?;
    null_column(schema, layout, packed, buf, n, column)
}

// Column `column` of the row in the first `row_length` bytes set to the one value of the list. The answer has the
// row's new length.
pub fn set_value(
    schema: &[u8],
    buf: &mut [u8],
    row_length: usize,
    column: usize,
    values: &[u8],
    text: &[u8],
) -> error::Result<usize>
    ensures { (result, buf.new)
        ≡ set_call schema.now buf.old row_length column
        values.now text.now }
{
    let is_long = row_layout::sort_in(buf, row_length);
    let layout = datatype::check_schema(schema, is_long)?;
    set_checked(schema, layout, buf, row_length, column, values, text)
}

// The column set to null. The slot of a fixed column stays as it is.
pub fn set_null(
    schema: &[u8],
    buf: &mut [u8],
    row_length: usize,
    column: usize,
) -> error::Result<usize>
    ensures { (result, buf.new)
        ≡ set_null_call schema.now buf.old row_length column }
{
    let is_long = row_layout::sort_in(buf, row_length);
    let layout = datatype::check_schema(schema, is_long)?;
    null_checked(schema, layout, buf, row_length, column)
}
