// One row of the printed list: what is read of it, whether it can be printed, its place in the order, and its line.
// The columns are platform Varchar(16), unit Varchar(64), arrival Timestamp, departure Timestamp. A padded row has its
// two slots where a packed one has them, at bytes 9 and 17 of a short row and at 13 and 21 of a long one.
#![tactic(auto)]

ghost use Rattle.std.specs.Prelude.{◌≡◌, true, ◌+◌, ◌-◌, ◌≤◌, ◌<◌, length, Ok};
ghost use Rattle.std.specs.Option.{option_copied, option_map};
ghost use Rattle.std.proofs.lemmas.List.Edits.{sets};
ghost use Rattle.calendar.specs.Moment.{moment_text};
ghost use Rattle.row_layout.specs.InnerRange.{Inside};
ghost use Rattle.occupation.specs.Occupation.{is_unprintable, has_unprintable, occupation_in};
ghost use Rattle.occupation.specs.Order.{precedes};
ghost use Rattle.occupation.specs.Line.{quoted, or_hyphen, line};
ghost use Rattle.occupation.specs.InnerFields.{bytes_of, spanned, moment_from, fields_shown, read_shown, Stands, Within, ShortText, MomentIn, ShortTexts, FieldsIn, ReadIn, is_good, text_length, moment_length, line_length};
ghost use Rattle.occupation.specs.InnerRead.{arrival_place, least_length, text_range_in, text_column, moment_column, text_shown, moment_shown, span_of, ReadText, ReadMoment, with_platform};

use error::Refusal;
use row_layout::{OffsetTable, RowLayout, VarlenRange};

// Where a text stands in its row.
#[derive(Clone, Copy)]
pub struct Span {
    pub start: usize,
    pub end: usize,
}

impl Span {
    fn len(self) -> usize
        requires { self.start ≤ self.end }
        ensures { result ≡ self.end - self.start }
    {
        self.end - self.start
    }

    fn of<'r>(self, row: &'r [u8]) -> &'r [u8]
        requires { Stands (length row.now) self }
        ensures { result.now ≡ bytes_of row.now self }
    {
        &row[self.start..self.end]
    }
}

// Where the texts of a row stand in it; and its moments, in microseconds from the year 1 on. None for a null.
#[derive(Clone, Copy)]
pub struct Fields {
    pub platform: Option<Span>,
    pub unit: Option<Span>,
    pub arrival: Option<u64>,
    pub departure: Option<u64>,
}

// Where the slot of the arrival starts; that of the departure is behind it.
fn arrival_place(is_long: bool) -> usize
    ensures { result ≡ arrival_place is_long }
{
    if is_long { 13 } else { 9 }
}

// What the bitmap and the offsets say of a text.
fn text_range(row: &[u8], is_long: bool, column: usize) -> VarlenRange
    requires { (column < 2) × (least_length is_long ≤ length row.now) }
    ensures { (result ≡ text_range_in is_long row.now column) × Inside row.now result }
{
    if null_bitmap::column_bit_is_set(row, column) {
        return VarlenRange::Null;
    }
    let table = OffsetTable {
        is_long,
        start: 5,
        entries: 2,
    };
    table.varlen_range(row, column)
}

// A text of at most n bytes.
fn read_text(row: &[u8], is_long: bool, column: usize, n: usize) -> error::Result<Option<Span>>
    requires { (column < 2) × (least_length is_long ≤ length row.now) }
    ensures { (text_shown row.now result ≡ text_column is_long n column row.now)
        × ReadText (length row.now) n result }
{
    match text_range(row, is_long, column) {
        VarlenRange::Null => Ok(None),
        VarlenRange::Outside => Err(Refusal::BadRange(column)),
        VarlenRange::Bytes(start, end) => {
            if end - start <= n && text::is_valid(&row[start..end]) {
                Ok(Some(Span { start, end }))
            } else {
                Err(Refusal::NoValue(column))
            }
        }
    }
}

// The moment whose slot starts at a byte of the row.
fn read_moment(row: &[u8], column: usize, at: usize) -> error::Result<Option<u64>>
    requires { (column < 4) × (at + 8 ≤ length row.now) }
    ensures { (moment_shown result ≡ moment_column column at row.now) × ReadMoment result }
{
    if null_bitmap::column_bit_is_set(row, column) {
        return Ok(None);
    }
    match calendar::moment_of(endian::read_u64(row, at)) {
        Some(micros) => Ok(Some(micros)),
        None => Err(Refusal::NoValue(column)),
    }
}

// Whether a text has a double quote or a byte below 32.
fn is_unprintable(text: &[u8]) -> bool
    ensures { result ≡ is_unprintable text.now }
{
    text.iter().any(|b| *b < 32 || *b == b'"')
}

fn has_unprintable(row: &[u8], text: Option<Span>) -> bool
    requires { Within (length row.now) text }
    ensures { result ≡ has_unprintable (spanned row.now text) }
{
    match text {
        Some(span) => is_unprintable(span.of(row)),
        None => false,
    }
}

// The fields of a row, or why it is not printed. The row's own mark tells its sort.
pub fn read(row: &[u8]) -> error::Result<Fields>
    ensures { (read_shown row.now result ≡ occupation_in row.now)
        × ReadIn (length row.now) result }
{
    let is_long = row_layout::is_long(row);
    let layout = RowLayout {
        num_columns: 4,
        num_varlen_cols: 2,
        packed_size: 16,
        padded_size: 16,
        is_long,
    };
    row_column::check_frame(layout, row)?;
    read_columns(row, is_long)
}

fn read_columns(row: &[u8], is_long: bool) -> error::Result<Fields>
    requires { least_length is_long ≤ length row.now }
    ensures { (read_shown row.now result ≡ with_platform is_long row.now)
        × ReadIn (length row.now) result }
{
    let platform = read_text(row, is_long, 0, 16)?;
    let unit = read_text(row, is_long, 1, 64)?;
    let at = arrival_place(is_long);
    let arrival = read_moment(row, 2, at)?;
    let departure = read_moment(row, 3, at + 8)?;
    if has_unprintable(row, platform) {
        return Err(Refusal::Unprintable(0));
    }
    if has_unprintable(row, unit) {
        return Err(Refusal::Unprintable(1));
    }
    Ok(Fields {
        platform,
        unit,
        arrival,
        departure,
    })
}

fn span_of(range: VarlenRange) -> Option<Span>
    ensures { result ≡ span_of range }
{
    match range {
        VarlenRange::Bytes(start, end) => Some(Span { start, end }),
        VarlenRange::Null | VarlenRange::Outside => None,
    }
}

// The fields of a row that `read` did not refuse, without its tests of the texts. Put into its callers, so that a
// comparison reads what it compares and no more.
#[inline(always)]
pub fn fields_of(row: &[u8]) -> Fields
    requires { is_good (occupation_in row.now) ≡ true }
    ensures { (Ok (fields_shown row.now result) ≡ occupation_in row.now)
        × FieldsIn (length row.now) result }
{
    let is_long = row_layout::is_long(row);
    let at = arrival_place(is_long);
    Fields {
        platform: span_of(text_range(row, is_long, 0)),
        unit: span_of(text_range(row, is_long, 1)),
        arrival: read_moment(row, 2, at).unwrap_or(None),
        departure: read_moment(row, 3, at + 8).unwrap_or(None),
    }
}

fn text_of<'r>(row: &'r [u8], text: Option<Span>) -> Option<&'r [u8]>
    requires { Within (length row.now) text }
    ensures { option_copied result ≡ option_map (bytes_of row.now) text }
{
    match text {
        Some(span) => Some(span.of(row)),
        None => None,
    }
}

// Whether a is printed before b wherever they stand in the list: None comes first, as a null does.
pub fn precedes(a_row: &[u8], a: Fields, b_row: &[u8], b: Fields) -> bool
    requires { FieldsIn (length a_row.now) a × FieldsIn (length b_row.now) b }
    ensures { result
        ≡ precedes (fields_shown a_row.now a) (fields_shown b_row.now b) }
{
    let platforms = text_of(a_row, a.platform).cmp(&text_of(b_row, b.platform));
    platforms.then(a.arrival.cmp(&b.arrival)).is_lt()
}

fn text_length(text: Option<Span>) -> usize
    requires { ShortText 64 text }
    ensures { result ≡ text_length text }
{
    match text {
        Some(span) => span.len() + 2,
        None => 1,
    }
}

fn moment_length(moment: Option<u64>) -> usize
    ensures { result ≡ moment_length moment }
{
    match moment {
        Some(_) => 19,
        None => 1,
    }
}

// The bytes of a row's line.
pub fn line_length(f: Fields) -> usize
    requires { ShortTexts f }
    ensures { (result ≡ line_length f) × (result ≤ 126) }
{
    let texts = text_length(f.platform) + text_length(f.unit);
    texts + moment_length(f.arrival) + moment_length(f.departure) + 4
}

fn write_quoted(out: &mut [u8], at: usize, text: &[u8])
    requires { at + (length text.now + 2) ≤ length out.old }
    ensures { out.new ≡ sets out.old at (quoted text.now) }
{
    out[at] = b'"';
    endian::copy(out, at + 1, text);
    out[at + 1 + text.len()] = b'"';
}

// A text in double quotes, or a hyphen; where it ends.
fn write_text(out: &mut [u8], at: usize, row: &[u8], text: Option<Span>) -> usize
    requires { Within (length row.now) text × (at + text_length text ≤ length out.old) }
    ensures { (result ≡ at + text_length text)
        × (out.new ≡ sets out.old at (or_hyphen quoted (spanned row.now text))) }
{
    match text {
        Some(span) => {
            write_quoted(out, at, span.of(row));
            at + (span.len() + 2)
        }
        None => {
            out[at] = b'-';
            at + 1
        }
    }
}

// A date and a time, or a hyphen; where it ends.
fn write_moment(out: &mut [u8], at: usize, moment: Option<u64>) -> usize
    requires { MomentIn moment × (at + moment_length moment ≤ length out.old) }
    ensures { (result ≡ at + moment_length moment)
        × (out.new ≡ sets out.old at (or_hyphen moment_text (moment_from moment))) }
{
    match moment {
        Some(micros) => {
            calendar::write_moment(out, at, micros);
            at + 19
        }
        None => {
            out[at] = b'-';
            at + 1
        }
    }
}

// A row's line; where it ends.
pub fn write_line(out: &mut [u8], at: usize, row: &[u8], f: Fields) -> usize
    requires { FieldsIn (length row.now) f × (at + line_length f ≤ length out.old) }
    ensures { (result ≡ at + line_length f)
        × (out.new ≡ sets out.old at (line (fields_shown row.now f))) }
{
    let first = write_text(out, at, row, f.platform);
    out[first] = b'|';
    let second = write_text(out, first + 1, row, f.unit);
    out[second] = b'|';
    let third = write_moment(out, second + 1, f.arrival);
    out[third] = b'|';
    let last = write_moment(out, third + 1, f.departure);
    out[last] = b'\n';
    last + 1
}
