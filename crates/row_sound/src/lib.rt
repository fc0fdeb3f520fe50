// Whether a row may be edited. The Rust has no such test: on other rows its edits may panic, or leave bytes that
// belong to no column.
#![tactic(auto)]

ghost use Rattle.std.specs.Prelude.{◌≡◌, false, ◌+◌, ◌*◌, ◌≤◌, ◌<◌, length, get_or, take, drop};
ghost use Rattle.std.specs.Int.{w64};
ghost use Rattle.std.proofs.Common.{to_z};
ghost use Rattle.laws.specs.Bytes.{from_le};
ghost use Rattle.text.specs.Rfc3629.{is_text};
ghost use Rattle.temporal.specs.Time.{time_of};
ghost use Rattle.row_format.specs.Places.{fixed_start, offset_width};
ghost use Rattle.row_layout.specs.Range.{varlen_range};
ghost use Rattle.row_layout.specs.InnerRange.{HasEntry};
ghost use Rattle.row_layout.specs.InnerLayout.{Bounded, no_columns};
ghost use Rattle.datatype.specs.declared.DataType.TheVariants.{Char, Varchar};
ghost use Rattle.datatype.specs.Types.{is_varlen};
ghost use Rattle.datatype.specs.Schema.{column_kind, column_record_at};
ghost use Rattle.datatype.specs.InnerSteps.{plain_size, plain_type, type_in};
ghost use Rattle.datatype.specs.Check.{types_in};
ghost use Rattle.datatype.specs.InnerCheck.{Accepted};
ghost use Rattle.stored_form.specs.Read.{timed, read_slot};
ghost use Rattle.row_column.specs.InnerWalk.{Framed, walked_place, Reachable};
ghost use Rattle.row_sound.specs.Sound.{soundness};
ghost use Rattle.row_sound.specs.InnerWalk.{walked_sound, walked_columns, walked_first, walked_soundness};
ghost use Rattle.row_sound.specs.InnerSlots.{range_holds, Recorded};
ghost use Rattle.row_sound.specs.Laid.{is_value};

use datatype::{DataType, schema_kinds};
use row_layout::{OffsetTable, RowLayout, VarlenRange};

// A stored Time, at `start`.
fn time_sound(row: &[u8], start: usize) -> bool
    requires { start + 8 ≤ length row.now }
    ensures { result ≡ is_value (timed (time_of (to_z w64 (from_le (take 8 (drop start row.now)))))) }
{
    temporal::time_of(endian::read_i64(row, start)).is_some()
}

// Whether the bytes at `start` are a value of a kind that no body follows. Any bytes are a number or a truth.
fn slot_sound(kind: u8, row: &[u8], start: usize) -> bool
    requires { (0 < plain_size (column_kind kind)) × (start + plain_size (column_kind kind) ≤ length row.now) }
    ensures { result
        ≡ is_value
        (read_slot (plain_type (column_kind kind)) start
        (take (plain_size (column_kind kind)) (drop start row.now))) }
{
    match kind {
        schema_kinds::DATE => temporal::is_date(endian::read_i32(row, start)),
        schema_kinds::TIME => time_sound(row, start),
        schema_kinds::TIMESTAMP => temporal::is_timestamp(endian::read_i64(row, start)),
        _ => true,
    }
}

// A column of such a kind, of `size` bytes. Its slot is looked at only where it could be no value: from Date on.
pub fn plain_sound(
    kind: u8,
    size: usize,
    layout: RowLayout,
    packed: bool,
    before: RowLayout,
    row: &[u8],
) -> bool
    requires { (size ≡ plain_size (column_kind kind))
        × ((0 < size) × ((size ≤ 8) × Reachable layout packed before (plain_type (column_kind kind)) row.now)) }
    ensures { result ≡ walked_sound layout packed before (plain_type (column_kind kind)) row.now }
{
    if kind < schema_kinds::DATE {
        return true;
    }
    if null_bitmap::column_bit_is_set(row, before.num_columns) {
        return true;
    }
    let start = layout.fixed_data_start() + before.slot_start(packed, size);
    slot_sound(kind, row, start)
}

// The range of a Varchar that is not marked null, whose n counts bytes or code points; `null` is the answer for one
// without a range, which reads and yet is not sound.
pub fn range_holds(
    null: bool,
    by_points: bool,
    n: usize,
    row: &[u8],
    table: OffsetTable,
    rank: usize,
) -> bool
    requires { HasEntry table rank row.now }
    ensures { result
        ≡ range_holds null by_points n row.now
        (varlen_range (offset_width table.is_long) table.start table.entries rank row.now) }
{
    match table.varlen_range(row, rank) {
        VarlenRange::Null => null,
        VarlenRange::Outside => false,
        VarlenRange::Bytes(start, end) => text_limit::is_within(&row[start..end], by_points, n),
    }
}

// A Varchar: the offset of a null is 0, and another has a range.
fn varchar_sound(
    by_points: bool,
    n: u16,
    layout: RowLayout,
    packed: bool,
    before: RowLayout,
    row: &[u8],
) -> bool
    requires { Reachable layout packed before (Varchar by_points n) row.now }
    ensures { result ≡ walked_sound layout packed before (Varchar by_points n) row.now }
{
    let table = layout.offset_table();
    let rank = before.num_varlen_cols;
    if null_bitmap::column_bit_is_set(row, before.num_columns) {
        table.offset_at(row, rank) == 0
    } else {
        range_holds(false, by_points, n as usize, row, table, rank)
    }
}

// The slot of a Char(n).
pub fn char_sound(n: u16, layout: RowLayout, packed: bool, before: RowLayout, row: &[u8]) -> bool
    requires { Reachable layout packed before (Char n) row.now }
    ensures { result ≡ is_text (take n (drop (walked_place layout packed before (Char n)) row.now)) }
{
    let start = layout.fixed_data_start() + before.slot_start(packed, 1);
    text::is_valid(&row[start..start + n as usize])
}

// A fixed column, by its reading.
fn column_sound(
    layout: RowLayout,
    packed: bool,
    before: RowLayout,
    ty: DataType,
    row: &[u8],
) -> bool
    requires { Reachable layout packed before ty row.now × (is_varlen ty ≡ false) }
    ensures { result ≡ walked_sound layout packed before ty row.now }
{
    row_column::read_column(layout, packed, before, ty, row).is_ok()
}

pub fn record_sound(
    schema: &[u8],
    at: usize,
    layout: RowLayout,
    packed: bool,
    before: RowLayout,
    row: &[u8],
) -> bool
    requires { Recorded schema.now at
        × (Reachable layout packed before (type_in (column_record_at schema.now at)) row.now
        × (is_varlen (type_in (column_record_at schema.now at)) ≡ false)) }
    ensures { result
        ≡ walked_sound layout packed before (type_in (column_record_at schema.now at))
        row.now }
{
    match datatype::record_at(schema, at) {
        Err(_) => false,
        Ok((ty, _)) => column_sound(layout, packed, before, ty, row),
    }
}

// A column whose kind is followed by a body. Any bytes are bits.
// Stays: body_reads of row_reads asks the bitmap first, where a null Varchar here is judged by its offset.
fn body_sound(
    kind: u8,
    schema: &[u8],
    at: usize,
    layout: RowLayout,
    packed: bool,
    before: RowLayout,
    row: &[u8],
) -> bool
    requires { (kind ≡ get_or schema.now at 0)
        × ((plain_size (column_kind kind) ≡ 0)
        × (Recorded schema.now at
        × Reachable layout packed before (type_in (column_record_at schema.now at)) row.now)) }
    ensures { result
        ≡ walked_sound layout packed before (type_in (column_record_at schema.now at))
        row.now }
{
    let n = endian::read_u16(schema, at + 1);
    if datatype::is_varchar(kind) {
        let by_points = kind == schema_kinds::VARCHAR_CHARS;
        return varchar_sound(by_points, n, layout, packed, before, row);
    }
    if null_bitmap::column_bit_is_set(row, before.num_columns) {
        return true;
    }
    match kind {
        schema_kinds::CHAR => char_sound(n, layout, packed, before, row),
        schema_kinds::CHARACTER => char_sound(n, layout, packed, before, row),
        schema_kinds::BIT => true,
        _ => record_sound(schema, at, layout, packed, before, row),
    }
}

// The column whose record stands at a place of the schema, by its kind.
// Stays: column_reads of row_reads differs in the call for a body; handing that in would be longer than either.
fn kind_sound(
    schema: &[u8],
    at: usize,
    layout: RowLayout,
    packed: bool,
    before: RowLayout,
    row: &[u8],
) -> bool
    requires { Recorded schema.now at
        × Reachable layout packed before (type_in (column_record_at schema.now at)) row.now }
    ensures { result
        ≡ walked_sound layout packed before (type_in (column_record_at schema.now at))
        row.now }
{
    let kind = schema[at];
    let size = datatype::plain_size(kind);
    if size != 0 {
        return plain_sound(kind, size, layout, packed, before, row);
    }
    body_sound(kind, schema, at, layout, packed, before, row)
}

// All columns. The schema was checked, so that no record of it is refused here.
fn columns_sound(schema: &[u8], layout: RowLayout, packed: bool, row: &[u8]) -> bool
    requires { Framed schema.now layout packed row.now }
    ensures { result ≡ walked_columns layout packed row.now no_columns (types_in schema.now) }
{
    let mut before = RowLayout::new();
    let mut at = 0;
    // Stays: each record says where the next starts, which no range or iterator of std does.
    while at < schema.len() {
        if !kind_sound(schema, at, layout, packed, before, row) {
            return false;
        }
        let step = datatype::next_column(schema, at, before);
        before = step.before;
        at = step.at;
    }
    true
}

// The first offset that is not 0, else the row's length.
fn first_payload(layout: RowLayout, row: &[u8]) -> usize
    requires { Bounded layout
        × (fixed_start (offset_width layout.is_long) layout.num_columns layout.num_varlen_cols
        ≤ length row.now) }
    ensures { result ≡ walked_first layout row.now }
{
    let table = layout.offset_table();
    if table.entries == 0 {
        return row.len();
    }
    let first = table.offset_at(row, 0);
    if first != 0 {
        return first;
    }
    table.range_end(row, 0)
}

// The row's header is good.
fn row_sound(schema: &[u8], layout: RowLayout, packed: bool, row: &[u8]) -> Option<bool>
    requires { Framed schema.now layout packed row.now }
    ensures { result ≡ walked_soundness layout packed (types_in schema.now) row.now }
{
    if columns_sound(schema, layout, packed, row) {
        if first_payload(layout, row) == layout.min_row_size(packed) {
            return Some(packed);
        }
    }
    None
}

// Whether a sound row is packed; none for a row that is not sound. The schema was checked.
pub fn check_sound(schema: &[u8], layout: RowLayout, row: &[u8]) -> Option<bool>
    requires { Accepted schema.now layout }
    ensures { result ≡ soundness layout.is_long (types_in schema.now) row.now }
{
    match row_column::check_frame(layout, row) {
        Err(_) => None,
        Ok(packed) => row_sound(schema, layout, packed, row),
    }
}
