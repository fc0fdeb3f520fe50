// The C interface of the row codec: an export for each call of rook_row, of its name and with its clauses.
// include/rook_row.h declares them and says what each does.
#![tactic(auto)]

ghost use Rattle.std.specs.Prelude.{◌≡◌};
ghost use Rattle.null_bitmap.specs.Bitmap.{null_flag};
ghost use Rattle.occupation_list.specs.Print.{print_call};
ghost use Rattle.row_build.specs.Build.{fresh_call, build_call};
ghost use Rattle.row_decode.specs.Read.{read_call};
ghost use Rattle.row_edit.specs.Edit.{set_call, set_null_call};
ghost use Rattle.row_handle.specs.Handle.{handle_set, handle_set_null};
ghost use Rattle.row_same.specs.Rows.{same_call};
ghost use Rattle.row_text.specs.Text.{text_call};
ghost use Rattle.text.specs.Rfc3629.{code_points};
ghost use Rattle.text.specs.Check.{check_of};
ghost use Rattle.rook_row.specs.Answers.{row_outcome, counted_outcome, handle_outcome, flag_answer, text_answer, check_answer};
ghost use Rattle.rook_row.specs.Version.{version};

use rook_row::{CheckAnswer, FlagAnswer, RowAnswer, TextAnswer};
use row_handle::RowHandle;

#[unsafe(no_mangle)]
pub extern "C" fn rook_row_fresh(schema: &[u8], is_long: bool, out: &mut [u8]) -> RowAnswer
    ensures { (result, out.new)
        ≡ row_outcome 0 (fresh_call is_long schema.now out.old) }
{
    rook_row::rook_row_fresh(schema, is_long, out)
}

#[unsafe(no_mangle)]
pub extern "C" fn rook_row_build(
    schema: &[u8],
    is_long: bool,
    values: &[u8],
    text: &[u8],
    out: &mut [u8],
    counts: &mut [u32],
) -> RowAnswer
    ensures { (result, (out.new, counts.new))
        ≡ counted_outcome 0
        (build_call is_long schema.now values.now text.now
        out.old counts.old) }
{
    rook_row::rook_row_build(schema, is_long, values, text, out, counts)
}

#[unsafe(no_mangle)]
pub extern "C" fn rook_row_read(
    schema: &[u8],
    row: &[u8],
    wanted: &[u16],
    out: &mut [u8],
    counts: &mut [u32],
) -> RowAnswer
    ensures { (result, (out.new, counts.new))
        ≡ counted_outcome 0
        (read_call schema.now row.now wanted.now
        out.old counts.old) }
{
    rook_row::rook_row_read(schema, row, wanted, out, counts)
}

#[unsafe(no_mangle)]
pub extern "C" fn rook_row_set(
    schema: &[u8],
    buf: &mut [u8],
    row_length: usize,
    column: usize,
    values: &[u8],
    text: &[u8],
) -> RowAnswer
    ensures { (result, buf.new)
        ≡ row_outcome row_length
        (set_call schema.now buf.old row_length column
        values.now text.now) }
{
    rook_row::rook_row_set(schema, buf, row_length, column, values, text)
}

#[unsafe(no_mangle)]
pub extern "C" fn rook_row_set_null(
    schema: &[u8],
    buf: &mut [u8],
    row_length: usize,
    column: usize,
) -> RowAnswer
    ensures { (result, buf.new)
        ≡ row_outcome row_length
        (set_null_call schema.now buf.old row_length column) }
{
    rook_row::rook_row_set_null(schema, buf, row_length, column)
}

#[unsafe(no_mangle)]
pub extern "C" fn rook_row_handle_set(
    handle: &mut RowHandle,
    schema: &[u8],
    buf: &mut [u8],
    column: usize,
    values: &[u8],
    text: &[u8],
) -> RowAnswer
    ensures { (result, (buf.new, handle.new))
        ≡ handle_outcome handle.old.length
        (handle_set schema.now buf.old handle.old
        column values.now text.now) }
{
    rook_row::rook_row_handle_set(handle, schema, buf, column, values, text)
}

#[unsafe(no_mangle)]
pub extern "C" fn rook_row_handle_set_null(
    handle: &mut RowHandle,
    schema: &[u8],
    buf: &mut [u8],
    column: usize,
) -> RowAnswer
    ensures { (result, (buf.new, handle.new))
        ≡ handle_outcome handle.old.length
        (handle_set_null schema.now buf.old handle.old
        column) }
{
    rook_row::rook_row_handle_set_null(handle, schema, buf, column)
}

#[unsafe(no_mangle)]
pub extern "C" fn rook_row_text(schema: &[u8], row: &[u8], column: usize) -> TextAnswer
    ensures { result ≡ text_answer (text_call schema.now row.now column) }
{
    rook_row::rook_row_text(schema, row, column)
}

#[unsafe(no_mangle)]
pub extern "C" fn rook_row_same_content(schema: &[u8], a: &[u8], b: &[u8]) -> FlagAnswer
    ensures { result
        ≡ flag_answer (same_call schema.now a.now b.now) }
{
    rook_row::rook_row_same_content(schema, a, b)
}

#[unsafe(no_mangle)]
pub extern "C" fn rook_row_is_null(row: &[u8], column: usize) -> FlagAnswer
    ensures { result ≡ flag_answer (null_flag row.now column) }
{
    rook_row::rook_row_is_null(row, column)
}

#[unsafe(no_mangle)]
pub extern "C" fn rook_text_check(s: &[u8]) -> CheckAnswer
    ensures { result ≡ check_answer (check_of (code_points s.now)) }
{
    rook_row::rook_text_check(s)
}

#[unsafe(no_mangle)]
pub extern "C" fn rook_occupations_print(list: &[u8], out: &mut [u8]) -> RowAnswer
    ensures { (result, out.new) ≡ row_outcome 0 (print_call list.now out.old) }
{
    rook_row::rook_occupations_print(list, out)
}

#[unsafe(no_mangle)]
pub extern "C" fn rook_row_version() -> u32
    ensures { result ≡ version }
{
    rook_row::rook_row_version()
}

#[unsafe(no_mangle)]
pub extern "C" fn rook_row_0_4() -> u32
    ensures { result ≡ version }
{
    rook_row::rook_row_0_4()
}
