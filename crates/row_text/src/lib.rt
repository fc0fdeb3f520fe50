// The text of one column, handed out as a part of the row, and the call that says why there is none.
#![tactic(auto)]

ghost use Rattle.std.specs.Prelude.{◌≡◌, ◌<◌, length};
ghost use Rattle.datatype.specs.Check.{types_in};
ghost use Rattle.datatype.specs.InnerCheck.{Accepted};
ghost use Rattle.row_column.specs.InnerWalk.{Found, InRow};
ghost use Rattle.value.specs.Kinds.{holds_text};
ghost use Rattle.row_text.specs.Text.{text_read, text_in_row, text_of_column, text_call, text_part, PartIn};

use datatype::DataType;
use error::Refusal;
use row_layout::RowLayout;
use value::{DataValue, TextRange, value_kinds};

fn holds_text(ty: DataType) -> bool
    ensures { result ≡ holds_text ty }
{
    let kind = value::value_kind(ty);
    if kind == value_kinds::CHAR {
        return true;
    }
    kind == value_kinds::VARCHAR
}

fn text_read(column: error::Result<DataValue>, row: &[u8]) -> error::Result<TextRange>
    requires { InRow (length row.now) column }
    ensures { (result ≡ text_read column) × PartIn (length row.now) result }
{
    let v = column?;
    Ok(v.range())
}

fn text_in_row(
    schema: &[u8],
    layout: RowLayout,
    row: &[u8],
    column: usize,
    found: row_column::Column,
) -> error::Result<TextRange>
    requires { Accepted schema.now layout
        × ((column < length (types_in schema.now)) × Found schema.now column found) }
    ensures { (result ≡ text_in_row layout.is_long (types_in schema.now) row.now column)
        × PartIn (length row.now) result }
{
    let packed = row_column::check_frame(layout, row)?;
    let ty = found.ty;
    let read = row_column::read_column(layout, packed, found.before, ty, row);
    text_read(read, row)
}

fn text_of_column(
    schema: &[u8],
    layout: RowLayout,
    row: &[u8],
    column: usize,
) -> error::Result<TextRange>
    requires { Accepted schema.now layout }
    ensures { (result
        ≡ text_of_column layout.is_long (types_in schema.now) row.now column)
        × PartIn (length row.now) result }
{
    if layout.num_columns <= column {
        return Err(Refusal::NoSuchColumn);
    }
    let found = row_column::column_at(schema, column);
    let ty = found.ty;
    if holds_text(ty) {
        return text_in_row(schema, layout, row, column, found);
    }
    Err(Refusal::WrongKind(column))
}

// Where the text of a column stands in the row, for a null an empty range at 0, or why there is none. The row's own
// mark tells its sort.
pub fn column_text(schema: &[u8], row: &[u8], column: usize) -> error::Result<TextRange>
    ensures { (result ≡ text_call schema.now row.now column)
        × PartIn (length row.now) result }
{
    let is_long = row_layout::is_long(row);
    let layout = datatype::check_schema(schema, is_long)?;
    text_of_column(schema, layout.of_sort(is_long), row, column)
}

// The text of a column: empty for a null or a refusal, which `column_text` tells apart.
pub fn text<'s, 'r>(schema: &'s [u8], row: &'r [u8], column: usize) -> &'r [u8]
    ensures { result.now
        ≡ text_part row.now
        (text_call schema.now row.now column) }
{
    match column_text(schema, row, column) {
        Err(_) => &row[0..0],
        Ok(part) => {
            let start = part.start;
            let end = start + part.length;
            &row[start..end]
        }
    }
}
