// row.rs, `RowDecoder::decode` after `only`: the values of the wanted columns of a row, as a value list in the lent
// output, and the code points of their texts in a lent list. Both are written to local arrays first, so that a refusal
// finds the lent ones as they were.
#![tactic(auto)]

ghost use Rattle.std.specs.Prelude.{◌≡◌, ◌≤◌, ◌*◌, length, set};
ghost use Rattle.row_layout.specs.InnerLayout.{no_columns};
ghost use Rattle.row_column.specs.InnerWalk.{walked_column, Framed};
ghost use Rattle.stored_form.specs.Points.{points_in};
ghost use Rattle.column_decode.specs.InnerColumn.{stepped, DecodeAt};
ghost use Rattle.row_decode.specs.Read.{is_wanted, wanted_value, hand_out, read_row, read_call};
ghost use Rattle.row_decode.specs.InnerWalk.{walked_read};
ghost use Rattle.row_decode.specs.InnerMarks.{marked, is_marked, Decodable, Filled, Held, copied_out};
ghost use Rattle.datatype.specs.Check.{type_at, types_in};
ghost use Rattle.datatype.specs.InnerCheck.{Accepted};

use error::Refusal;
use row_layout::RowLayout;

// Stays: no clause says what a slice holds after a write through its `get_mut` (tried).
fn mark(marks: &mut [u8], column: usize)
    ensures { marks.new ≡ set marks.old column 1 }
{
    if column < marks.len() {
        marks[column] = 1;
    }
}

// A 1 for each wanted column that the marks reach.
fn mark_wanted(marks: &mut [u8], wanted: &[u16])
    ensures { marks.new ≡ marked marks.old wanted.now }
{
    for &column in wanted {
        mark(marks, column as usize);
    }
}

// The n bytes of a result, copied from the buffer, and a count for each column.
fn hand_out(
    answer: error::Result<usize>,
    columns: usize,
    buf: &[u8],
    points: &[u32],
    out: &mut [u8],
    counts: &mut [u32],
) -> error::Result<usize>
    requires { Held answer columns buf.now points.now }
    ensures { (result, (out.new, counts.new))
        ≡ copied_out answer columns buf.now points.now out.old counts.old }
{
    let n = answer?;
    if out.len() < n || counts.len() < columns {
        return Err(Refusal::NoRoom);
    }
    out[..n].copy_from_slice(&buf[..n]);
    counts[..columns].copy_from_slice(&points[..columns]);
    Ok(n)
}

// The column whose record stands at a place of the schema. An unwanted one is null, whatever its bytes are.
fn decode_column(
    schema: &[u8],
    at: usize,
    layout: RowLayout,
    packed: bool,
    before: RowLayout,
    row: &[u8],
    marks: &[u8],
    buf: &mut [u8],
    end: usize,
) -> error::Result<(usize, u32)>
    requires { DecodeAt schema.now at layout packed before row.now buf.old end × (length marks.now ≡ 256) }
    ensures { (result, buf.new)
        ≡ stepped layout.is_long buf.old end (points_in row.now)
        (wanted_value (is_marked marks.now before.num_columns)
        (walked_column layout packed before (type_at (types_in schema.now) before.num_columns)
        row.now)) }
{
    let i = before.num_columns;
    if marks[i] != 1 || null_bitmap::column_bit_is_set(row, i) {
        return Ok((record_encode::write_null(buf, end), 0));
    }
    column_decode::decode_present(schema, at, layout, packed, before, row, buf, end)
}

// The records of all columns, at the front of the buffer, and their counts. The schema was checked, so that no record
// of it is refused here.
fn decode_columns(
    schema: &[u8],
    layout: RowLayout,
    packed: bool,
    row: &[u8],
    marks: &[u8],
    buf: &mut [u8],
    points: &mut [u32],
) -> error::Result<usize>
    requires { Decodable schema.now layout packed row.now marks.now buf.old points.old }
    ensures { Filled layout.is_long row.now layout.num_columns
        (walked_read layout packed (is_marked marks.now) row.now no_columns
        (types_in schema.now)) buf.old points.old result buf.new
        points.new }
{
    let mut before = RowLayout::new();
    let mut at = 0;
    let mut end = 0;
    // Stays: a column's record has one byte or three, so its length is known only when its kind is read.
    while at < schema.len() {
        let (n, count) = decode_column(schema, at, layout, packed, before, row, marks, buf, end)?;
        let i = before.num_columns;
        points[i] = count;
        let step = datatype::next_column(schema, at, before);
        before = step.before;
        at = step.at;
        end = n;
    }
    Ok(end)
}

// By local arrays for so many columns. For those of 14 the compiler calls no function: it clears up to 256 bytes in
// place.
fn decode_in<const BYTES: usize, const COLUMNS: usize>(
    schema: &[u8],
    layout: RowLayout,
    packed: bool,
    row: &[u8],
    marks: &[u8],
    out: &mut [u8],
    counts: &mut [u32],
) -> error::Result<usize>
    requires { Framed schema.now layout packed row.now
        × ((length marks.now ≡ 256)
        × ((layout.num_columns ≤ COLUMNS) × ((COLUMNS ≤ 256) × (BYTES ≡ 18 * COLUMNS)))) }
    ensures { (result, (out.new, counts.new))
        ≡ hand_out layout.is_long out.old counts.old row.now
        (walked_read layout packed (is_marked marks.now) row.now no_columns
        (types_in schema.now)) }
{
    let mut buf = [0; BYTES];
    let mut points = [0; COLUMNS];
    let answer = decode_columns(schema, layout, packed, row, marks, &mut buf, &mut points);
    hand_out(answer, layout.num_columns, &buf, &points, out, counts)
}

// The row's header is good. For few columns small arrays do.
fn decode_values(
    schema: &[u8],
    layout: RowLayout,
    packed: bool,
    row: &[u8],
    wanted: &[u16],
    out: &mut [u8],
    counts: &mut [u32],
) -> error::Result<usize>
    requires { Framed schema.now layout packed row.now }
    ensures { (result, (out.new, counts.new))
        ≡ hand_out layout.is_long out.old counts.old row.now
        (walked_read layout packed (is_wanted wanted.now) row.now no_columns
        (types_in schema.now)) }
{
    let mut marks = [0; RowLayout::COLUMN_LIMIT];
    mark_wanted(&mut marks, wanted);
    match layout.num_columns {
        0..=14 => decode_in::<252, 14>(schema, layout, packed, row, &marks, out, counts),
        15..=32 => decode_in::<576, 32>(schema, layout, packed, row, &marks, out, counts),
        _ => decode_in::<4608, 256>(schema, layout, packed, row, &marks, out, counts),
    }
}

fn decode_row(
    schema: &[u8],
    layout: RowLayout,
    row: &[u8],
    wanted: &[u16],
    out: &mut [u8],
    counts: &mut [u32],
) -> error::Result<usize>
    requires { Accepted schema.now layout }
    ensures { (result, (out.new, counts.new))
        ≡ read_row layout.is_long (types_in schema.now) row.now wanted.now
        out.old counts.old }
{
    let packed = row_column::check_frame(layout, row)?;
    decode_values(schema, layout, packed, row, wanted, out, counts)
}

// The wanted columns of a row, by their numbers in any order; unknown numbers are ignored, and the other columns read
// as null. A count for each column: the code points of a wanted text, else 0. The row's own mark tells its sort.
pub fn decode(
    schema: &[u8],
    row: &[u8],
    wanted: &[u16],
    out: &mut [u8],
    counts: &mut [u32],
) -> error::Result<usize>
    ensures { (result, (out.new, counts.new))
        ≡ read_call schema.now row.now wanted.now
        out.old counts.old }
{
    let is_long = row_layout::is_long(row);
    let layout = datatype::check_schema(schema, is_long)?;
    decode_row(schema, layout.of_sort(is_long), row, wanted, out, counts)
}
