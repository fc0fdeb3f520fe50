// Whether the columns of a row read, and the first refusal if not: by kinds, and without the values.
#![tactic(auto)]

ghost use Rattle.std.specs.Prelude.{◌≡◌, true, false, ◌+◌, ◌*◌, ◌≤◌, ◌<◌, length, get_or, drop};
ghost use Rattle.datatype.specs.Schema.{column_kind, column_record_at};
ghost use Rattle.datatype.specs.InnerSteps.{plain_size, type_in};
ghost use Rattle.datatype.specs.Check.{types_in};
ghost use Rattle.row_column.specs.InnerWalk.{Framed, walked_column, Reachable};
ghost use Rattle.row_sound.specs.Sound.{reads};
ghost use Rattle.row_sound.specs.InnerSlots.{Recorded};
ghost use Rattle.row_decode.specs.InnerWalk.{walked_read};
ghost use Rattle.row_reads.specs.InnerReads.{refusal_in, read_all, WalkAt};

use datatype::schema_kinds;
use row_layout::RowLayout;

// A column whose kind is followed by a body. Any bytes are bits.
fn body_reads(
    kind: u8,
    schema: &[u8],
    at: usize,
    layout: RowLayout,
    packed: bool,
    before: RowLayout,
    row: &[u8],
) -> bool
    requires { (kind ≡ get_or schema.now at 0) × ((plain_size (column_kind kind) ≡ 0) × (Recorded schema.now at
        × Reachable layout packed before (type_in (column_record_at schema.now at)) row.now)) }
    ensures { result ≡ reads (walked_column layout packed before
        (type_in (column_record_at schema.now at)) row.now) }
{
    let n = endian::read_u16(schema, at + 1);
    if null_bitmap::column_bit_is_set(row, before.num_columns) {
        return true;
    }
    if datatype::is_varchar(kind) {
        return row_sound::range_holds(
            true,
            kind == schema_kinds::VARCHAR_CHARS,
            n as usize,
            row,
            layout.offset_table(),
            before.num_varlen_cols,
        );
    }
    match kind {
        schema_kinds::CHAR => row_sound::char_sound(n, layout, packed, before, row),
        schema_kinds::CHARACTER => row_sound::char_sound(n, layout, packed, before, row),
        schema_kinds::BIT => true,
        _ => row_sound::record_sound(schema, at, layout, packed, before, row),
    }
}

// The column whose record stands at a place of the schema, by its kind.
fn column_reads(
    schema: &[u8],
    at: usize,
    layout: RowLayout,
    packed: bool,
    before: RowLayout,
    row: &[u8],
) -> bool
    requires { Recorded schema.now at
        × Reachable layout packed before (type_in (column_record_at schema.now at)) row.now }
    ensures { result ≡ reads (walked_column layout packed before
        (type_in (column_record_at schema.now at)) row.now) }
{
    let kind = schema[at];
    let size = datatype::plain_size(kind);
    if size != 0 {
        return row_sound::plain_sound(kind, size, layout, packed, before, row);
    }
    body_reads(kind, schema, at, layout, packed, before, row)
}

// Why a column does not read.
fn column_refusal(
    schema: &[u8],
    at: usize,
    layout: RowLayout,
    packed: bool,
    before: RowLayout,
    row: &[u8],
) -> error::Result<bool>
    requires { Recorded schema.now at
        × Reachable layout packed before (type_in (column_record_at schema.now at)) row.now }
    ensures { result ≡ refusal_in (walked_column layout packed before
        (type_in (column_record_at schema.now at)) row.now) }
{
    let (ty, _) = datatype::record_at(schema, at)?;
    row_column::read_column(layout, packed, before, ty, row)?;
    Ok(true)
}

// The columns from a place of a schema on, which was checked: `answer` if all of them read, else the first refusal.
// `start` is the layout of the columns before that place.
pub fn check_columns(
    schema: &[u8],
    layout: RowLayout,
    packed: bool,
    row: &[u8],
    start: RowLayout,
    from: usize,
    answer: bool,
) -> error::Result<bool>
    requires { Framed schema.now layout packed row.now × WalkAt schema.now start from }
    ensures { result ≡ read_all answer (walked_read layout packed (λ i. true) row.now start
        (drop start.num_columns (types_in schema.now))) }
{
    let mut before = start;
    let mut at = from;
    // Stays: each record says where the next starts, which no range or iterator of std does.
    while at < schema.len() {
        if !column_reads(schema, at, layout, packed, before, row) {
            return column_refusal(schema, at, layout, packed, before, row);
        }
        let step = datatype::next_column(schema, at, before);
        before = step.before;
        at = step.at;
    }
    Ok(answer)
}
