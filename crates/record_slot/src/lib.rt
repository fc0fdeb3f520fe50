// A value record as its column takes it: whether the column holds the value, and the stored form in the column's
// slot, by kinds and bytes.
#![tactic(auto)]

ghost use Rattle.std.specs.Prelude.{◌≡◌, ◌+◌, ◌*◌, ◌%◌, ◌≤◌, ◌<◌, true, false, cond, eqb, length};
ghost use Rattle.std.proofs.lemmas.List.Edits.{sets};
ghost use Rattle.row_format.specs.Places.{offset_width};
ghost use Rattle.text.specs.Check.{points};
ghost use Rattle.bit_utils.specs.Bits.{bytes_for};
ghost use Rattle.datatype.specs.Types.{size_of};
ghost use Rattle.datatype.specs.Schema.{column_record_at};
ghost use Rattle.datatype.specs.InnerSteps.{type_in};
ghost use Rattle.value.specs.Kinds.{plain_kind};
ghost use Rattle.value.specs.Ranges.{part};
ghost use Rattle.record_slot.specs.Stored.{is_null};
ghost use Rattle.value_list.specs.Records.{numeric_at, range_at, record_at as valueRecordAt, NarrowRange};
ghost use Rattle.value_list.specs.InnerSizes.{body_in};
ghost use Rattle.record_slot.specs.InnerSteps.{length_at, HasType, Readable, declared_at, after_column, text_suits, bits_suit, number_suits, suits_at, Testable, payload_length, payload_in, Short, value_in, form_in, blank_filled, number_stored, bits_stored, SlotReady, NumberReady, TextThere, Suited, points_stored};

use datatype::schema_kinds;
use error::Refusal;
use value::{TextRange, value_kinds};

// The two bytes after the kind of a column, a length or precision and scale; 0 where the record is too short for them.
fn declared_length(schema: &[u8], at: usize) -> usize
    requires { at < length schema.now }
    ensures { (result ≡ declared_at schema.now at) × (result ≤ 65535) }
{
    if schema.len() < at + 3 {
        return 0;
    }
    endian::read_u16(schema, at + 1) as usize
}

// The place after a column's record, which was accepted.
pub fn after_column(schema: &[u8], at: usize) -> usize
    requires { at < length schema.now }
    ensures { result ≡ after_column schema.now at }
{
    if datatype::plain_size(schema[at]) == 0 {
        return at + 3;
    }
    at + 1
}

// The bytes of the record at a place of the list; 0 where there is none, its kind is unknown or it is cut off.
pub fn record_length(values: &[u8], from: usize) -> usize
    ensures { result ≡ length_at values.now from }
{
    if values.len() <= from {
        return 0;
    }
    let kind = values[from];
    if !value::is_value_kind(kind) {
        return 0;
    }
    let body = value_list::body_length(kind);
    if values.len() - from - 1 < body {
        return 0;
    }
    1 + body
}

// The body of a value's record, at a place of the list. The numbers of its range have four bytes or two.
#[derive(Clone, Copy)]
struct Body<'v> {
    values: &'v [u8],
    at: usize,
    is_long: bool,
}

impl Body<'_> {
    fn range(self) -> TextRange
        requires { self.at + 2 * offset_width self.is_long ≤ length self.values.now }
        ensures { (result ≡ range_at (offset_width self.entry.is_long) self.entry.values.now self.entry.at)
            × NarrowRange 4 result }
    {
        value_list::range_at(self.values, self.is_long, self.at)
    }
}

// Stays: beside `bits_suit`: the last test reads the bytes here, and only counts them there.
// Whether a body's range is a text of at most n bytes or code points.
fn text_suits(body: Body, by_points: bool, n: usize, text: &[u8]) -> bool
    requires { body.at + 2 * offset_width body.is_long ≤ length body.values.now }
    ensures { result
        ≡ text_suits by_points n
        (range_at (offset_width body.entry.is_long) body.entry.values.now body.entry.at) text.now }
{
    let TextRange { start, length } = body.range();
    if text.len() < start + length {
        return false;
    }
    text_limit::is_within(&text[start..start + length], by_points, n)
}

// Whether a body's range is a bit string of as many bytes as n bits fill.
fn bits_suit(body: Body, n: usize, text: &[u8]) -> bool
    requires { (body.at + 2 * offset_width body.is_long ≤ length body.values.now) × (n ≤ 65535) }
    ensures { result
        ≡ bits_suit n (range_at (offset_width body.entry.is_long) body.entry.values.now body.entry.at)
        text.now }
{
    let TextRange { start, length } = body.range();
    if text.len() < start + length {
        return false;
    }
    length == bit_utils::byte_count(n)
}

// Whether the number at a place of the list suits a column whose precision and scale n has.
fn number_suits(values: &[u8], body: usize, n: usize) -> bool
    requires { (body + 17 ≤ length values.now) × ((n ≤ 65535) × (n % 256 ≤ 38)) }
    ensures { result ≡ number_suits n (numeric_at values.now body) }
{
    value_encode::fits_number(
        value_list::numeric_at(values, body),
        n % 256,
        (n / 256) as u8,
    )
}

// Whether a column that was declared with n holds a value of its kind, of which this is the body; of a Varchar n counts
// bytes or code points.
fn suits_at(by_points: bool, kind: u8, n: usize, body: Body, text: &[u8]) -> bool
    requires { Testable body.is_long kind n body.values.now body.at }
    ensures { result
        ≡ suits_at by_points (offset_width body.entry.is_long) kind n body.entry.values.now body.entry.at
        text.now }
{
    match kind {
        value_kinds::NUMERIC => number_suits(body.values, body.at, n),
        value_kinds::BOOL => body.values[body.at] <= 1,
        value_kinds::CHAR => text_suits(body, false, n, text),
        value_kinds::VARCHAR => text_suits(body, by_points, n, text),
        value_kinds::DATE => temporal::is_date(endian::read_i32(body.values, body.at)),
        value_kinds::TIME => temporal::is_time(endian::read_i64(body.values, body.at)),
        value_kinds::BIT => bits_suit(body, n, text),
        value_kinds::TIMESTAMP => temporal::is_timestamp(endian::read_i64(body.values, body.at)),
        _ => true,
    }
}

// The payload of a value of this kind.
fn payload_length(kind: u8, body: Body) -> usize
    requires { body.at + body_in body.is_long kind ≤ length body.values.now }
    ensures { result
        ≡ payload_length (offset_width body.entry.is_long) kind body.entry.values.now body.entry.at }
{
    if kind == value_kinds::VARCHAR {
        return body.range().length;
    }
    0
}

// Whether a record has values of a kind. Most have the kind itself: that is tested first.
fn is_of_kind(given: u8, kind: u8) -> bool
    ensures { result ≡ eqb (plain_kind given) kind }
{
    if given < value_kinds::LONG_CHAR {
        return given == kind;
    }
    value::plain_kind(given) == kind
}

// The bytes that a column adds to the row's minimum, or why its value is refused.
pub fn payload_at(
    schema: &[u8],
    at: usize,
    column: usize,
    values: &[u8],
    from: usize,
    text: &[u8],
) -> error::Result<usize>
    requires { Readable schema.now at values.now from × (length text.now ≤ 1048576) }
    ensures { (result ≡ payload_in column schema.now at values.now from text.now)
        × Short result }
{
    let given = values[from];
    if given == value_kinds::NULL {
        return Ok(0);
    }
    let column_kind = schema[at];
    let kind = value::held_kind(column_kind);
    if !is_of_kind(given, kind) {
        return Err(Refusal::WrongKind(column));
    }
    let is_long = value::is_long_kind(given);
    let body = Body {
        values,
        at: from + 1,
        is_long,
    };
    let by_points = column_kind == schema_kinds::VARCHAR_CHARS;
    if suits_at(by_points, kind, declared_length(schema, at), body, text) {
        return Ok(payload_length(kind, body));
    }
    Err(Refusal::Unsuitable(column))
}

// The bytes of a column's slot.
pub fn slot_size(schema: &[u8], at: usize) -> usize
    requires { HasType schema.now at }
    ensures { result ≡ size_of (type_in (column_record_at schema.now at)) }
{
    let size = datatype::plain_size(schema[at]);
    if size != 0 {
        return size;
    }
    let kind = value::held_kind(schema[at]);
    match kind {
        value_kinds::NUMERIC => (declared_length(schema, at) % 256 + 2) / 2,
        value_kinds::CHAR => declared_length(schema, at),
        value_kinds::VARCHAR => 0,
        value_kinds::BIT => bit_utils::byte_count(declared_length(schema, at)),
        _ => value_list::body_length(kind),
    }
}

// The bytes in the offset table of a column that holds values of a kind.
pub fn entry_size(kind: u8, is_long: bool) -> usize
    ensures { (result ≡ cond (eqb kind 9) (offset_width is_long) 0) × (result ≤ 4) }
{
    if kind == value_kinds::VARCHAR {
        return row_layout::offset_width(is_long);
    }
    0
}

// A Char's text and blanks up to n bytes.
fn write_char(out: &mut [u8], slot: usize, n: usize, body: Body, text: &[u8])
    requires { (body.at + 2 * offset_width body.is_long ≤ length body.values.now)
        × ((slot + n ≤ length out.old)
        × (text_suits false n (range_at (offset_width body.is_long) body.values.now body.at) text.now
        ≡ true)) }
    ensures { out.new
        ≡ sets out.old slot
        (blank_filled n
        (part text.now (range_at (offset_width body.entry.is_long) body.entry.values.now body.entry.at))) }
{
    let TextRange { start, length } = body.range();
    value_encode::write_char(out, slot, &text[start..start + length], n);
}

// The packed form of the number at a place of the list.
fn write_number(out: &mut [u8], slot: usize, p: usize, values: &[u8], body: usize)
    requires { (body + 17 ≤ length values.now)
        × NumberReady p (numeric_at values.now body) slot (length out.old) }
    ensures { out.new
        ≡ sets out.old slot (number_stored p (numeric_at values.now body)) }
{
    let n = value_list::numeric_at(values, body);
    value_encode::write_number(out, slot, n.high, n.low, p);
}

// The n bits of a body's range.
fn write_bits(out: &mut [u8], slot: usize, n: usize, body: Body, text: &[u8])
    requires { (body.at + 2 * offset_width body.is_long ≤ length body.values.now)
        × ((slot + bytes_for n ≤ length out.old)
        × (bits_suit n (range_at (offset_width body.is_long) body.values.now body.at) text.now
        ≡ true)) }
    ensures { out.new
        ≡ sets out.old slot
        (bits_stored n
        (part text.now (range_at (offset_width body.entry.is_long) body.entry.values.now body.entry.at))) }
{
    let TextRange { start, length } = body.range();
    value_encode::write_bits(out, slot, &text[start..start + length], n);
}

// The stored form of a column's value, in its slot. The value suits the column, so that its kind is the column's.
pub fn write_slot(
    schema: &[u8],
    at: usize,
    values: &[u8],
    from: usize,
    text: &[u8],
    out: &mut [u8],
    slot: usize,
)
    requires { Readable schema.now at values.now from
        × SlotReady (type_in (column_record_at schema.now at)) (value_in (valueRecordAt values.now from))
        text.now slot (length out.old) }
    ensures { out.new
        ≡ sets out.old slot
        (form_in schema.now at values.now from text.now) }
{
    let given = values[from];
    let kind = value::held_kind(schema[at]);
    let is_long = value::is_long_kind(given);
    let place = from + 1;
    let body = Body {
        values,
        at: place,
        is_long,
    };
    let n = declared_length(schema, at);
    match kind {
        value_kinds::SMALL_INT => endian::write_u16(out, slot, endian::read_u16(values, place)),
        value_kinds::INT => endian::write_u32(out, slot, endian::read_u32(values, place)),
        value_kinds::BIG_INT => endian::write_u64(out, slot, endian::read_u64(values, place)),
        value_kinds::REAL => endian::write_u32(out, slot, endian::read_u32(values, place)),
        value_kinds::DOUBLE_PRECISION => endian::write_u64(
            out,
            slot,
            endian::read_u64(values, place),
        ),
        value_kinds::NUMERIC => write_number(out, slot, n % 256, values, place),
        value_kinds::BOOL => out[slot] = values[place],
        value_kinds::CHAR => write_char(out, slot, n, body, text),
        value_kinds::DATE => endian::write_u32(out, slot, endian::read_u32(values, place)),
        value_kinds::TIME => endian::write_u64(out, slot, endian::read_u64(values, place)),
        value_kinds::BIT => write_bits(out, slot, n, body, text),
        value_kinds::TIMESTAMP => endian::write_u64(out, slot, endian::read_u64(values, place)),
        _ => {}
    }
}

// The code points of a text.
// Stays: beside `char_points`, which adds the blanks to it.
fn text_points(body: Body, text: &[u8]) -> usize
    requires { (body.at + 2 * offset_width body.is_long ≤ length body.values.now)
        × TextThere (range_at (offset_width body.is_long) body.values.now body.at) text.now }
    ensures { (result
        ≡ points (part text.now
        (range_at (offset_width body.entry.is_long) body.entry.values.now body.entry.at)))
        × (result < 4294967296) }
{
    let TextRange { start, length } = body.range();
    text::count_points(&text[start..start + length])
}

// With the blanks up to n bytes, each of which is one.
fn char_points(body: Body, n: usize, text: &[u8]) -> usize
    requires { (body.at + 2 * offset_width body.is_long ≤ length body.values.now)
        × ((n ≤ 65535)
        × (text_suits false n (range_at (offset_width body.is_long) body.values.now body.at) text.now
        ≡ true)) }
    ensures { (result
        ≡ points (blank_filled n (part text.now
        (range_at (offset_width body.entry.is_long) body.entry.values.now body.entry.at))))
        × (result ≤ n) }
{
    let range = body.range();
    text_points(body, text) + (n - range.length)
}

// The code points of a column's text, as stored; 0 for a null and where the value is no text.
pub fn points_at(schema: &[u8], at: usize, values: &[u8], from: usize, text: &[u8]) -> u32
    requires { Readable schema.now at values.now from
        × (is_null (value_in (valueRecordAt values.now from)) ≡ false
        → Suited (type_in (column_record_at schema.now at)) (value_in (valueRecordAt values.now from))
        text.now) }
    ensures { result
        ≡ points_stored schema.now at values.now from text.now }
{
    let given = values[from];
    if given == value_kinds::NULL {
        return 0;
    }
    let kind = value::held_kind(schema[at]);
    let is_long = value::is_long_kind(given);
    let body = Body {
        values,
        at: from + 1,
        is_long,
    };
    match kind {
        value_kinds::CHAR => char_points(body, declared_length(schema, at), text) as u32,
        value_kinds::VARCHAR => text_points(body, text) as u32,
        _ => 0,
    }
}
