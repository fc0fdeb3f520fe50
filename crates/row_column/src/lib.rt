// row.rs, `decode_into`, for one column: the tests of a row's header, where a column stands, and what it reads as.
#![tactic(auto)]

ghost use Rattle.std.specs.Prelude.{◌≡◌, true, false, ◌+◌, ◌*◌, ◌-◌, ◌≤◌, ◌<◌, length, Ok};
ghost use Rattle.row_format.specs.Places.{offset_width};
ghost use Rattle.row_layout.specs.Range.{varlen_range};
ghost use Rattle.row_layout.specs.InnerLayout.{Bounded};
ghost use Rattle.row_layout.specs.InnerRange.{HasEntry};
ghost use Rattle.datatype.specs.Types.{size_of, is_varlen, precision_of};
ghost use Rattle.row_column.specs.InnerWalk.{walked_frame, walked_column, Found, Reachable, InRow};
ghost use Rattle.row_column.specs.Column.{read_bytes, varlen_value};
ghost use Rattle.datatype.specs.Schema.{column_records};
ghost use Rattle.datatype.specs.Check.{types_in};

use datatype::DataType;
use error::Refusal;
use row_layout::{OffsetTable, RowLayout, VarlenRange};
use value::DataValue;

// Whether a row is packed whose header suits the schema.
pub fn check_frame(layout: RowLayout, row: &[u8]) -> error::Result<bool>
    requires { Bounded layout }
    ensures { result ≡ walked_frame layout row.now }
{
    if row_layout::row_limit(layout.is_long) < row.len() {
        return Err(Refusal::RowTooLong);
    }
    if row.len() < 4 {
        return Err(Refusal::RowTooShort);
    }
    let columns = endian::read_u16(row, 0) as usize;
    let field = endian::read_u16(row, 2);
    if columns != layout.num_columns {
        return Err(Refusal::WrongColumnCount);
    }
    if row_layout::varlen_count(field, layout.is_long) != layout.num_varlen_cols {
        return Err(Refusal::WrongVarlenCount);
    }
    let packed = RowLayout::PACKED_LAYOUT_FLAG <= field;
    if row.len() < layout.min_row_size(packed) {
        return Err(Refusal::RowTooShort);
    }
    Ok(packed)
}

// A column of a schema: its type, and the layout of those before it.
#[derive(Clone, Copy)]
pub struct Column {
    pub before: RowLayout,
    pub ty: DataType,
}

// The schema was checked and has this column.
pub fn column_at(schema: &[u8], column: usize) -> Column
    requires { (column_records 256 schema.now 0 ≡ Ok (types_in schema.now))
        × (column < length (types_in schema.now)) }
    ensures { Found schema.now column result }
{
    let mut before = RowLayout::new();
    let mut at = 0;
    // Stays: each record says where the next starts, which no range or iterator of std does.
    while before.num_columns < column {
        let step = datatype::next_column(schema, at, before);
        before = step.before;
        at = step.at;
    }
    let (ty, _) = datatype::record_at(schema, at).unwrap();
    Column { before, ty }
}

// The bytes from `start` up to `end`, of column i.
fn read_bytes(
    ty: DataType,
    i: usize,
    row: &[u8],
    start: usize,
    end: usize,
) -> error::Result<DataValue>
    requires { (precision_of ty ≤ 38)
        × ((start ≤ end) × ((end ≤ length row.now) × (is_varlen ty ≡ false → end - start ≡ size_of ty))) }
    ensures { (result ≡ read_bytes ty i row.now start end) × InRow (length row.now) result }
{
    match value_decode::from_bytes(ty, &row[start..end], start) {
        Some(v) => Ok(v),
        None => Err(Refusal::NoValue(i)),
    }
}

fn read_varlen(
    ty: DataType,
    i: usize,
    row: &[u8],
    table: OffsetTable,
    rank: usize,
) -> error::Result<DataValue>
    requires { (precision_of ty ≤ 38)
        × ((is_varlen ty ≡ true) × HasEntry table rank row.now) }
    ensures { (result
        ≡ varlen_value ty i row.now
        (varlen_range (offset_width table.is_long) table.start table.entries rank row.now))
        × InRow (length row.now) result }
{
    match table.varlen_range(row, rank) {
        VarlenRange::Null => Ok(DataValue::Null),
        VarlenRange::Bytes(start, end) => read_bytes(ty, i, row, start, end),
        VarlenRange::Outside => Err(Refusal::BadRange(i)),
    }
}

// The column of type ty that comes after those of `before`, in a row with this layout.
pub fn read_column(
    layout: RowLayout,
    packed: bool,
    before: RowLayout,
    ty: DataType,
    row: &[u8],
) -> error::Result<DataValue>
    requires { Reachable layout packed before ty row.now }
    ensures { (result ≡ walked_column layout packed before ty row.now)
        × InRow (length row.now) result }
{
    let i = before.num_columns;
    if null_bitmap::column_bit_is_set(row, i) {
        return Ok(DataValue::Null);
    }
    if ty.is_variable_length() {
        return read_varlen(ty, i, row, layout.offset_table(), before.num_varlen_cols);
    }
    let start = layout.fixed_data_start() + before.slot_start(packed, ty.alignment());
    read_bytes(ty, i, row, start, start + ty.fixed_size())
}
