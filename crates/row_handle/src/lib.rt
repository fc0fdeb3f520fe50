// row.rs, `&mut self` of `Row`: a handle of a row's length and layout. Here it goes in and comes back by value, with
// all the branches; the two functions over a lent handle (rook_row) call these. The row is the buffer's first
// `length` bytes, and its own mark tells its sort. The layout that comes in is never read.
#![tactic(auto)]

ghost use Rattle.std.specs.Prelude.{◌≡◌};
ghost use Rattle.row_format.specs.Header.{is_packed};
ghost use Rattle.row_handle.specs.Handle.{geometry, handle_after, handle_set, handle_set_null};

use row_layout::RowLayout;

// The geometry of a row of a schema: how many columns, how many Varchars, the bytes of the fixed columns, packed or
// padded as the row's flag says, and both marks, 1 for packed and 0 for padded, 1 for long and 0 for short. Each is a
// `usize`, since a lent struct has no padding: no contract would say what a call leaves there.
#[repr(C)]
#[derive(Clone, Copy)]
pub struct HandleLayout {
    pub num_columns: usize,
    pub num_varlen_cols: usize,
    pub fixed_size: usize,
    pub packed: usize,
    pub is_long: usize,
}

#[repr(C)]
#[derive(Clone, Copy)]
pub struct RowHandle {
    pub length: usize,
    pub layout: HandleLayout,
}

// A call's answer and the handle after it.
#[derive(Clone, Copy)]
pub struct Edited {
    pub answer: error::Result<usize>,
    pub handle: RowHandle,
}

// The flag in the header of the row that starts here.
fn is_packed(row: &[u8]) -> bool
    ensures { result ≡ is_packed row.now }
{
    if row.len() < 4 {
        return false;
    }
    RowLayout::PACKED_LAYOUT_FLAG <= endian::read_u16(row, 2)
}

fn geometry_of(layout: RowLayout, packed: bool) -> HandleLayout
    ensures { result ≡ geometry layout packed }
{
    HandleLayout {
        num_columns: layout.num_columns,
        num_varlen_cols: layout.num_varlen_cols,
        fixed_size: layout.fixed_size(packed),
        packed: packed as usize,
        is_long: layout.is_long as usize,
    }
}

// The handle after a call on a schema of this layout.
fn handle_after(
    answer: error::Result<usize>,
    layout: RowLayout,
    buf: &[u8],
    handle: RowHandle,
) -> RowHandle
    ensures { result ≡ handle_after (geometry layout (is_packed buf.now)) handle answer }
{
    match answer {
        Ok(length) => RowHandle {
            length,
            layout: geometry_of(layout, is_packed(buf)),
        },
        Err(_) => handle,
    }
}

// Column `column` of the handle's row set to the one value of the list.
pub fn with_value(
    schema: &[u8],
    buf: &mut [u8],
    handle: RowHandle,
    column: usize,
    values: &[u8],
    text: &[u8],
) -> Edited
    ensures { (result.answer, (buf.new, result.handle))
        ≡ handle_set schema.now buf.old handle column
        values.now text.now }
{
    let is_long = row_layout::sort_in(buf, handle.length);
    match datatype::check_schema(schema, is_long) {
        Err(e) => Edited {
            answer: Err(e),
            handle,
        },
        Ok(layout) => {
            let length = handle.length;
            let answer = row_edit::set_checked(schema, layout, buf, length, column, values, text);
            let handle = handle_after(answer, layout, buf, handle);
            Edited { answer, handle }
        }
    }
}

// The column set to null.
pub fn with_null(schema: &[u8], buf: &mut [u8], handle: RowHandle, column: usize) -> Edited
    ensures { (result.answer, (buf.new, result.handle))
        ≡ handle_set_null schema.now buf.old handle column }
{
    let is_long = row_layout::sort_in(buf, handle.length);
    match datatype::check_schema(schema, is_long) {
        Err(e) => Edited {
            answer: Err(e),
            handle,
        },
        Ok(layout) => {
            let length = handle.length;
            let answer = row_edit::null_checked(schema, layout, buf, length, column);
            let handle = handle_after(answer, layout, buf, handle);
            Edited { answer, handle }
        }
    }
}
