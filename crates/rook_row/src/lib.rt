// The calls of the C interface of the row codec. rook_row_c exports them, and include/rook_row.h declares them.
// An enum does not cross that border, so an answer is a struct of numbers: document 01's number and place, and what
// the call hands out.
#![tactic(auto)]

ghost use Rattle.std.specs.Prelude.{◌≡◌};
ghost use Rattle.null_bitmap.specs.Bitmap.{null_flag};
ghost use Rattle.occupation_list.specs.Print.{print_call};
ghost use Rattle.row_build.specs.Build.{fresh_call, build_call};
ghost use Rattle.row_decode.specs.Read.{read_call};
ghost use Rattle.row_edit.specs.Edit.{set_call, set_null_call};
ghost use Rattle.row_handle.specs.Handle.{handle_set, handle_set_null};
ghost use Rattle.row_same.specs.Rows.{same_call};
ghost use Rattle.row_text.specs.Text.{text_call};
ghost use Rattle.text.specs.Rfc3629.{code_points};
ghost use Rattle.text.specs.Check.{check_of};
ghost use Rattle.rook_row.specs.Answers.{row_answer, row_outcome, counted_outcome, handle_outcome, flag_answer, text_answer, check_answer};
ghost use Rattle.rook_row.specs.Version.{version};

use row_handle::RowHandle;
use value::TextRange;

#[repr(C)]
#[derive(Clone, Copy)]
pub struct RowAnswer {
    pub number: u32,
    pub place: usize,
    pub length: usize,
}

impl RowAnswer {
    // A refusal hands out `otherwise`.
    fn new(answer: error::Result<usize>, otherwise: usize) -> RowAnswer
        ensures { result ≡ row_answer otherwise answer }
    {
        match answer {
            Ok(length) => RowAnswer {
                number: 0,
                place: 0,
                length,
            },
            Err(e) => RowAnswer {
                number: e.number(),
                place: e.place(),
                length: otherwise,
            },
        }
    }
}

#[repr(C)]
#[derive(Clone, Copy)]
pub struct FlagAnswer {
    pub number: u32,
    pub place: usize,
    pub flag: usize,
}

impl From<error::Result<bool>> for FlagAnswer {
    ghost from_gives = { λ given answer. answer ≡ flag_answer given };

    fn from(given: error::Result<bool>) -> FlagAnswer {
        match given {
            Ok(flag) => FlagAnswer {
                number: 0,
                place: 0,
                flag: usize::from(flag),
            },
            Err(e) => FlagAnswer {
                number: e.number(),
                place: e.place(),
                flag: 0,
            },
        }
    }
}

#[repr(C)]
#[derive(Clone, Copy)]
pub struct TextAnswer {
    pub number: u32,
    pub place: usize,
    pub start: usize,
    pub length: usize,
}

impl From<error::Result<TextRange>> for TextAnswer {
    ghost from_gives = { λ given answer. answer ≡ text_answer given };

    fn from(given: error::Result<TextRange>) -> TextAnswer {
        match given {
            Ok(part) => TextAnswer {
                number: 0,
                place: 0,
                start: part.start,
                length: part.length,
            },
            Err(e) => TextAnswer {
                number: e.number(),
                place: e.place(),
                start: 0,
                length: 0,
            },
        }
    }
}

#[repr(C)]
#[derive(Clone, Copy)]
pub struct CheckAnswer {
    pub valid: u32,
    pub points: usize,
}

impl From<Option<usize>> for CheckAnswer {
    ghost from_gives = { λ points answer. answer ≡ check_answer points };

    fn from(points: Option<usize>) -> CheckAnswer {
        match points {
            Some(points) => CheckAnswer { valid: 1, points },
            None => CheckAnswer {
                valid: 0,
                points: 0,
            },
        }
    }
}

// A row of nulls at the front of `out`, long or short as the caller chooses; `length` is its length.
pub fn rook_row_fresh(schema: &[u8], is_long: bool, out: &mut [u8]) -> RowAnswer
    ensures { (result, out.new)
        ≡ row_outcome 0 (fresh_call is_long schema.now out.old) }
{
    RowAnswer::new(row_build::fresh(schema, is_long, out), 0)
}

// The row of a value list at the front of `out`, long or short as the caller chooses; `length` is its length. The
// list's ranges lie in `text`. The code points of each column's text, as stored, go to `counts`.
pub fn rook_row_build(
    schema: &[u8],
    is_long: bool,
    values: &[u8],
    text: &[u8],
    out: &mut [u8],
    counts: &mut [u32],
) -> RowAnswer
    ensures { (result, (out.new, counts.new))
        ≡ counted_outcome 0
        (build_call is_long schema.now values.now text.now
        out.old counts.old) }
{
    RowAnswer::new(
        row_build::serialize_nullable_typed_row(schema, is_long, values, text, out, counts),
        0,
    )
}

// The wanted columns of a row as a value list at the front of `out`; `length` is its length. The list's text area is
// the row. The code points of each wanted column's text go to `counts`.
pub fn rook_row_read(
    schema: &[u8],
    row: &[u8],
    wanted: &[u16],
    out: &mut [u8],
    counts: &mut [u32],
) -> RowAnswer
    ensures { (result, (out.new, counts.new))
        ≡ counted_outcome 0
        (read_call schema.now row.now wanted.now
        out.old counts.old) }
{
    RowAnswer::new(row_decode::decode(schema, row, wanted, out, counts), 0)
}

// Column `column` of the row in the first `row_length` bytes of `buf` set to the one value of the list; `length` is
// the row's length afterwards.
pub fn rook_row_set(
    schema: &[u8],
    buf: &mut [u8],
    row_length: usize,
    column: usize,
    values: &[u8],
    text: &[u8],
) -> RowAnswer
    ensures { (result, buf.new)
        ≡ row_outcome row_length
        (set_call schema.now buf.old row_length column
        values.now text.now) }
{
    RowAnswer::new(
        row_edit::set_value(schema, buf, row_length, column, values, text),
        row_length,
    )
}

// The column set to null.
pub fn rook_row_set_null(
    schema: &[u8],
    buf: &mut [u8],
    row_length: usize,
    column: usize,
) -> RowAnswer
    ensures { (result, buf.new)
        ≡ row_outcome row_length
        (set_null_call schema.now buf.old row_length column) }
{
    RowAnswer::new(
        row_edit::set_null(schema, buf, row_length, column),
        row_length,
    )
}

// As `rook_row_set`, on the row of a handle: its length is the handle's, which an accepted call changes, with the
// layout.
pub fn rook_row_handle_set(
    handle: &mut RowHandle,
    schema: &[u8],
    buf: &mut [u8],
    column: usize,
    values: &[u8],
    text: &[u8],
) -> RowAnswer
    ensures { (result, (buf.new, handle.new))
        ≡ handle_outcome handle.old.length
        (handle_set schema.now buf.old handle.old
        column values.now text.now) }
{
    let before = *handle;
    let edited = row_handle::with_value(schema, buf, before, column, values, text);
    *handle = edited.handle;
    RowAnswer::new(edited.answer, before.length)
}

// As `rook_row_set_null`, on the row of a handle.
pub fn rook_row_handle_set_null(
    handle: &mut RowHandle,
    schema: &[u8],
    buf: &mut [u8],
    column: usize,
) -> RowAnswer
    ensures { (result, (buf.new, handle.new))
        ≡ handle_outcome handle.old.length
        (handle_set_null schema.now buf.old handle.old
        column) }
{
    let before = *handle;
    let edited = row_handle::with_null(schema, buf, before, column);
    *handle = edited.handle;
    RowAnswer::new(edited.answer, before.length)
}

// The text of a column: where it stands in the row. A null has number 0 and an empty range at 0.
pub fn rook_row_text(schema: &[u8], row: &[u8], column: usize) -> TextAnswer
    ensures { result ≡ text_answer (text_call schema.now row.now column) }
{
    TextAnswer::from(row_text::column_text(schema, row, column))
}

// Whether two rows of one schema have the same content: 1 or 0 in `flag`.
pub fn rook_row_same_content(schema: &[u8], a: &[u8], b: &[u8]) -> FlagAnswer
    ensures { result
        ≡ flag_answer (same_call schema.now a.now b.now) }
{
    FlagAnswer::from(row_same::same_content(schema, a, b))
}

// Whether a column of a row is null: 1 or 0 in `flag`.
pub fn rook_row_is_null(row: &[u8], column: usize) -> FlagAnswer
    ensures { result ≡ flag_answer (null_flag row.now column) }
{
    FlagAnswer::from(null_bitmap::is_column_null_in_row(row, column))
}

// Whether bytes are text, 1 or 0, and how many code points it has.
pub fn rook_text_check(s: &[u8]) -> CheckAnswer
    ensures { result ≡ check_answer (check_of (code_points s.now)) }
{
    CheckAnswer::from(text::check(s))
}

// The lines of a list of platform occupations at the front of `out`; `length` is their length.
pub fn rook_occupations_print(list: &[u8], out: &mut [u8]) -> RowAnswer
    ensures { (result, out.new) ≡ row_outcome 0 (print_call list.now out.old) }
{
    RowAnswer::new(occupation_list::print(list, out), 0)
}

// The version of this interface, 0.4.0, with a byte for each of its numbers.
pub fn rook_row_version() -> u32
    ensures { result ≡ version }
{
    0x000400
}

// The same, by a name that says the series: what is made for another one does not link.
pub fn rook_row_0_4() -> u32
    ensures { result ≡ version }
{
    rook_row_version()
}
