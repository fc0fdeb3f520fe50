// row.rs, `serialize_nullable_typed_row`, and `Row::new` then `serialize`: the row of a value list, and the row of
// nulls, in the lent output.
#![tactic(auto)]

ghost use Rattle.std.specs.Prelude.{◌≡◌, ◌+◌, ◌/◌, ◌≤◌, ◌<◌, true, false, [], length, Ok};
ghost use Rattle.std.proofs.Math.Option.{some};
ghost use Rattle.std.proofs.lemmas.List.Edits.{sets};
ghost use Rattle.row_layout.specs.InnerLayout.{Bounded, minimum_of};
ghost use Rattle.error.specs.Answer.{placed};
ghost use Rattle.row_format.specs.Places.{bitmap_start, bitmap_size};
ghost use Rattle.row_format.specs.Edit.{bit_edit};
ghost use Rattle.datatype.specs.Schema.{column_record_at};
ghost use Rattle.datatype.specs.InnerSteps.{type_in};
ghost use Rattle.datatype.specs.Check.{types_in};
ghost use Rattle.datatype.specs.InnerCheck.{Accepted};
ghost use Rattle.value.specs.Ranges.{part};
ghost use Rattle.value_list.specs.Records.{record_at as valueRecordAt};
ghost use Rattle.record_slot.specs.Stored.{is_null};
ghost use Rattle.row_build.specs.Cells.{cells_from};
ghost use Rattle.row_build.specs.Build.{build_values, build_row, build_call, fresh_call};
ghost use Rattle.record_slot.specs.InnerSteps.{Readable, value_in, form_in, SlotReady};
ghost use Rattle.row_build.specs.InnerSteps.{null_bits, null_row, values_in, Buildable, measured, Lengthed, fixed_stored, varlen_stored, column_stored, PayloadReady, BitReady, Storable, row_given, counts_given, Fillable};

use error::Refusal;
use row_layout::RowLayout;
use value::{TextRange, value_kinds};

// n bits that are set, and clear ones up to the end of the last byte.
fn write_null_bits(out: &mut [u8], at: usize, n: usize)
    requires { (n ≤ 256) × (at + bitmap_size n ≤ length out.old) }
    ensures { out.new ≡ sets out.old at (null_bits n) }
{
    let whole = n / 8;
    let rest = n % 8;
    endian::fill(out, at, whole, 255);
    if rest != 0 {
        out[at + whole] = (1 << rest) - 1;
    }
}

// The row of nulls of a layout, at the front of the output.
fn write_nulls(layout: RowLayout, out: &mut [u8])
    requires { Bounded layout × (minimum_of layout true ≤ length out.old) }
    ensures { out.new ≡ sets out.old 0 (null_row layout) }
{
    let n = layout.num_columns;
    let v = layout.num_varlen_cols;
    endian::write_u16(out, 0, n as u16);
    endian::write_u16(out, 2, v as u16 + row_layout::packed_marks(layout.is_long));
    write_null_bits(out, RowLayout::bitmap_offset(), n);
    endian::fill(
        out,
        layout.varlen_table_offset(),
        v * row_layout::offset_width(layout.is_long) + layout.packed_size,
        0,
    );
}

// Behind the schema's check, for a caller that keeps its layout.
fn fresh_row(layout: RowLayout, out: &mut [u8]) -> error::Result<usize>
    requires { Bounded layout }
    ensures { (result, out.new) ≡ placed out.old (null_row layout) }
{
    let least = layout.min_row_size(true);
    if out.len() < least {
        return Err(Refusal::NoRoom);
    }
    write_nulls(layout, out);
    Ok(least)
}

// A row of which every column is null.
pub fn fresh(schema: &[u8], is_long: bool, out: &mut [u8]) -> error::Result<usize>
    ensures { (result, out.new) ≡ fresh_call is_long schema.now out.old }
{
    let layout = datatype::check_schema(schema, is_long)?;
    fresh_row(layout, out)
}

// The row's length. A refusal is the first of 11 and 12, but where the list is refused it says nothing: `build_row`
// asks for 10 then.
fn row_length(schema: &[u8], layout: RowLayout, values: &[u8], text: &[u8]) -> error::Result<usize>
    requires { Accepted schema.now layout }
    ensures { Lengthed schema.now layout values.now text.now result }
{
    if row_layout::row_limit(layout.is_long) < text.len() {
        return Err(Refusal::BadValueList(0));
    }
    let mut size = layout.min_row_size(true);
    let mut at = 0;
    let mut from = 0;
    for column in 0..layout.num_columns {
        let length = record_slot::record_length(values, from);
        if length == 0 {
            return Err(Refusal::BadValueList(from));
        }
        let n = record_slot::payload_at(schema, at, column, values, from, text)?;
        size += n;
        at = record_slot::after_column(schema, at);
        from += length;
    }
    if from != values.len() {
        return Err(Refusal::BadValueList(from));
    }
    Ok(size)
}

// The bit of column i of n cleared: it is not null.
fn clear_bit(out: &mut [u8], n: usize, i: usize)
    requires { (i < n) × (bitmap_start + i / 8 < length out.old) }
    ensures { out.new ≡ bit_edit i (some []) out.old }
{
    let bitmap = RowLayout::bitmap_offset();
    null_bitmap::clear_null(&mut out[bitmap..], n, i).unwrap();
}

// A stored form in its slot, and the column's bit.
fn write_fixed(
    schema: &[u8],
    at: usize,
    values: &[u8],
    from: usize,
    text: &[u8],
    out: &mut [u8],
    columns: usize,
    column: usize,
    slot: usize,
)
    requires { Readable schema.now at values.now from
        × (SlotReady (type_in (column_record_at schema.now at)) (value_in (valueRecordAt values.now from))
        text.now slot (length out.old) × BitReady columns column (length out.old)) }
    ensures { out.new
        ≡ fixed_stored column slot (form_in schema.now at values.now from text.now)
        out.old }
{
    record_slot::write_slot(schema, at, values, from, text, out, slot);
    clear_bit(out, columns, column);
}

// A payload at the row's end, with its offset and the column's bit; the new end.
fn write_varchar(
    range: TextRange,
    text: &[u8],
    out: &mut [u8],
    layout: RowLayout,
    column: usize,
    entry: usize,
    end: usize,
) -> usize
    requires { PayloadReady layout.is_long range text.now entry end (length out.old)
        × BitReady layout.num_columns column (length out.old) }
    ensures { (result ≡ end + range.length)
        × (out.new
        ≡ varlen_stored layout.is_long column entry (part text.now range) end out.old) }
{
    let start = range.start;
    let length = range.length;
    row_layout::write_offset(out, layout.is_long, entry, end);
    endian::copy(out, end, &text[start..start + length]);
    clear_bit(out, layout.num_columns, column);
    end + length
}

// A column's value: nothing for a null, which the row of nulls has already; the row's end after it.
fn write_column(
    schema: &[u8],
    at: usize,
    values: &[u8],
    from: usize,
    text: &[u8],
    out: &mut [u8],
    layout: RowLayout,
    column: usize,
    slot: usize,
    entry: usize,
    end: usize,
) -> usize
    requires { Readable schema.now at values.now from
        × (is_null (value_in (valueRecordAt values.now from)) ≡ false
        → Storable layout.is_long layout.num_columns column slot entry (type_in (column_record_at schema.now at))
        (value_in (valueRecordAt values.now from)) text.now end (length out.old)) }
    ensures { (result, out.new)
        ≡ column_stored layout.is_long column slot entry (type_in (column_record_at schema.now at))
        (value_in (valueRecordAt values.now from))
        (form_in schema.now at values.now from text.now) end
        out.old }
{
    let given = values[from];
    if given == value_kinds::NULL {
        return end;
    }
    if value::held_kind(schema[at]) == value_kinds::VARCHAR {
        let range = value_list::range_at(values, value::is_long_kind(given), from + 1);
        return write_varchar(range, text, out, layout, column, entry, end);
    }
    let columns = layout.num_columns;
    write_fixed(schema, at, values, from, text, out, columns, column, slot);
    end
}

// All columns, over the row of nulls, and the counts of their code points.
fn write_columns(
    schema: &[u8],
    layout: RowLayout,
    values: &[u8],
    text: &[u8],
    out: &mut [u8],
    counts: &mut [u32],
)
    requires { Fillable schema.now layout values.now text.now out.old
        × (length (types_in schema.now) ≤ length counts.old) }
    ensures { (out.new
        ≡ sets out.old 0
        (row_given layout.is_long schema.now values.now text.now))
        × (counts.new
        ≡ sets counts.old 0
        (counts_given schema.now values.now text.now)) }
{
    let mut at = 0;
    let mut from = 0;
    let mut slot = layout.fixed_data_start();
    let mut entry = layout.varlen_table_offset();
    let mut end = layout.min_row_size(true);
    for column in 0..layout.num_columns {
        end = write_column(
            schema, at, values, from, text, out, layout, column, slot, entry, end,
        );
        counts[column] = record_slot::points_at(schema, at, values, from, text);
        slot += record_slot::slot_size(schema, at);
        entry += record_slot::entry_size(value::held_kind(schema[at]), layout.is_long);
        at = record_slot::after_column(schema, at);
        from = from + 1 + value_list::body_length(values[from]);
    }
}

// A row of n bytes.
fn place_row(
    schema: &[u8],
    layout: RowLayout,
    values: &[u8],
    text: &[u8],
    out: &mut [u8],
    counts: &mut [u32],
    n: usize,
) -> error::Result<usize>
    requires { Buildable schema.now layout values.now text.now
        × (Ok n
        ≡ measured (minimum_of layout true) (types_in schema.now)
        (cells_from 0 (types_in schema.now) (values_in values.now) text.now)) }
    ensures { (result, (out.new, counts.new))
        ≡ build_values layout.is_long (types_in schema.now) (values_in values.now)
        text.now out.old counts.old }
{
    if row_layout::row_limit(layout.is_long) < n {
        return Err(Refusal::RowLimit);
    }
    if out.len() < n || counts.len() < layout.num_columns {
        return Err(Refusal::NoRoom);
    }
    write_nulls(layout, out);
    write_columns(schema, layout, values, text, out, counts);
    Ok(n)
}

// One pass tests the list and its values. A refusal is asked again of the list, since 10 comes before 11 and 12 of
// every column.
fn build_row(
    schema: &[u8],
    layout: RowLayout,
    values: &[u8],
    text: &[u8],
    out: &mut [u8],
    counts: &mut [u32],
) -> error::Result<usize>
    requires { Accepted schema.now layout }
    ensures { (result, (out.new, counts.new))
        ≡ build_row layout.is_long (types_in schema.now) values.now text.now
        out.old counts.old }
{
    match row_length(schema, layout, values, text) {
        Ok(n) => place_row(schema, layout, values, text, out, counts, n),
        Err(e) => {
            value_list::check_values(values, layout.is_long, layout.num_columns, text.len())?;
            Err(e)
        }
    }
}

// The row of a value list, whose texts are in the text area; and for each column the code points of its text, as
// stored, 0 where there is none.
pub fn serialize_nullable_typed_row(
    schema: &[u8],
    is_long: bool,
    values: &[u8],
    text: &[u8],
    out: &mut [u8],
    counts: &mut [u32],
) -> error::Result<usize>
    ensures { (result, (out.new, counts.new))
        ≡ build_call is_long schema.now values.now text.now
        out.old counts.old }
{
    let layout = datatype::check_schema(schema, is_long)?;
    build_row(schema, layout, values, text, out, counts)
}
