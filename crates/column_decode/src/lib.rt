// row.rs, `RowDecoder::decode`: one column of a row, its value written as a record of a value list.
#![tactic(auto)]

ghost use Rattle.std.specs.Prelude.{◌≡◌, false, ◌+◌, ◌*◌, ◌<◌, ◌≤◌, eqb, length, drop};
ghost use Rattle.laws.specs.Bits.{bit_at};
ghost use Rattle.row_format.specs.Places.{offset_width, row_limit, bitmap_start};
ghost use Rattle.row_layout.specs.Range.{varlen_range};
ghost use Rattle.row_layout.specs.InnerRange.{HasEntry};
ghost use Rattle.datatype.specs.declared.DataType.TheVariants.{Char as CharType, Varchar as VarcharType};
ghost use Rattle.datatype.specs.Check.{type_at, types_in};
ghost use Rattle.row_column.specs.Column.{read_bytes, varlen_value};
ghost use Rattle.row_column.specs.InnerWalk.{walked_place, walked_column, Reachable, InRow};
ghost use Rattle.stored_form.specs.Points.{points_in};
ghost use Rattle.column_decode.specs.InnerColumn.{stepped, no_points, DecodeAt};

use datatype::schema_kinds;
use error::Refusal;
use row_layout::{OffsetTable, RowLayout, VarlenRange};
use slot_record::RowPart;
use value::DataValue;

fn write_column(
    buf: &mut [u8],
    end: usize,
    is_long: bool,
    column: error::Result<DataValue>,
) -> error::Result<(usize, u32)>
    requires { (end + 18 ≤ length buf.old) × InRow (row_limit is_long) column }
    ensures { (result, buf.new) ≡ stepped is_long buf.old end no_points column }
{
    let v = column?;
    Ok((record_encode::write_value_record(buf, end, is_long, v), 0))
}

// A Varchar of this rank, whose n counts bytes or code points.
fn decode_varchar(
    by_points: bool,
    n: usize,
    i: usize,
    row: &[u8],
    table: OffsetTable,
    rank: usize,
    buf: &mut [u8],
    end: usize,
) -> error::Result<(usize, u32)>
    requires { HasEntry table rank row.now
        × ((length row.now ≤ row_limit table.is_long) × (end + 18 ≤ length buf.old)) }
    ensures { (result, buf.new)
        ≡ stepped table.is_long buf.old end (points_in row.now)
        (varlen_value (VarcharType by_points n) i row.now
        (varlen_range (offset_width table.is_long) table.start table.entries rank row.now)) }
{
    match table.varlen_range(row, rank) {
        VarlenRange::Null => Ok((record_encode::write_null(buf, end), 0)),
        VarlenRange::Bytes(start, stop) => {
            let part = RowPart {
                row,
                is_long: table.is_long,
                start,
                end: stop,
            };
            slot_record::varchar_record(by_points, n, i, part, buf, end)
        }
        VarlenRange::Outside => Err(Refusal::BadRange(i)),
    }
}

// A Char(n) or Character(n).
fn decode_char(
    n: usize,
    layout: RowLayout,
    packed: bool,
    before: RowLayout,
    row: &[u8],
    buf: &mut [u8],
    end: usize,
) -> error::Result<(usize, u32)>
    requires { Reachable layout packed before (CharType n) row.now
        × ((length row.now ≤ row_limit layout.is_long) × (end + 18 ≤ length buf.old)) }
    ensures { (result, buf.new)
        ≡ stepped layout.is_long buf.old end (points_in row.now)
        (read_bytes (CharType n) before.num_columns row.now
        (walked_place layout packed before (CharType n)) (walked_place layout packed before (CharType n) + n)) }
{
    let start = layout.fixed_data_start() + before.slot_start(packed, 1);
    let part = RowPart {
        row,
        is_long: layout.is_long,
        start,
        end: start + n,
    };
    slot_record::char_record(before.num_columns, part, buf, end)
}

// The other types with a body, by their value, which is no text.
fn decode_value(
    schema: &[u8],
    at: usize,
    layout: RowLayout,
    packed: bool,
    before: RowLayout,
    row: &[u8],
    buf: &mut [u8],
    end: usize,
) -> error::Result<(usize, u32)>
    requires { DecodeAt schema.now at layout packed before row.now buf.old end }
    ensures { (result, buf.new)
        ≡ stepped layout.is_long buf.old end no_points
        (walked_column layout packed before (type_at (types_in schema.now) before.num_columns)
        row.now) }
{
    let (ty, _) = datatype::record_at(schema, at)?;
    let column = row_column::read_column(layout, packed, before, ty, row);
    write_column(buf, end, layout.is_long, column)
}

// A column of a kind with a body. Texts are common, so they are written without a value in between.
fn decode_body(
    schema: &[u8],
    at: usize,
    layout: RowLayout,
    packed: bool,
    before: RowLayout,
    row: &[u8],
    buf: &mut [u8],
    end: usize,
) -> error::Result<(usize, u32)>
    requires { DecodeAt schema.now at layout packed before row.now buf.old end
        × (eqb (bit_at before.num_columns (drop bitmap_start row.now)) 1 ≡ false) }
    ensures { (result, buf.new)
        ≡ stepped layout.is_long buf.old end (points_in row.now)
        (walked_column layout packed before (type_at (types_in schema.now) before.num_columns)
        row.now) }
{
    let kind = schema[at];
    if datatype::is_varchar(kind) {
        let n = endian::read_u16(schema, at + 1) as usize;
        return decode_varchar(
            kind == schema_kinds::VARCHAR_CHARS,
            n,
            before.num_columns,
            row,
            layout.offset_table(),
            before.num_varlen_cols,
            buf,
            end,
        );
    }
    match kind {
        schema_kinds::CHAR => {
            let n = endian::read_u16(schema, at + 1) as usize;
            decode_char(n, layout, packed, before, row, buf, end)
        }
        schema_kinds::CHARACTER => {
            let n = endian::read_u16(schema, at + 1) as usize;
            decode_char(n, layout, packed, before, row, buf, end)
        }
        _ => decode_value(schema, at, layout, packed, before, row, buf, end),
    }
}

// The column whose record stands at a place of the schema, where it is not marked null.
pub fn decode_present(
    schema: &[u8],
    at: usize,
    layout: RowLayout,
    packed: bool,
    before: RowLayout,
    row: &[u8],
    buf: &mut [u8],
    end: usize,
) -> error::Result<(usize, u32)>
    requires { DecodeAt schema.now at layout packed before row.now buf.old end
        × (eqb (bit_at before.num_columns (drop bitmap_start row.now)) 1 ≡ false) }
    ensures { (result, buf.new)
        ≡ stepped layout.is_long buf.old end (points_in row.now)
        (walked_column layout packed before (type_at (types_in schema.now) before.num_columns)
        row.now) }
{
    let kind = schema[at];
    let size = datatype::plain_size(kind);
    if size != 0 {
        let start = layout.fixed_data_start() + before.slot_start(packed, size);
        let stop = start + size;
        return slot_record::plain_record(kind, before.num_columns, &row[start..stop], buf, end);
    }
    decode_body(schema, at, layout, packed, before, row, buf, end)
}
