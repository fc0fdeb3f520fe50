// A list of rows, each after its length in two bytes: whether it is whole, and its rows one after the other.
#![tactic(auto)]

ghost use Rattle.std.specs.Prelude.{◌≡◌, ◌+◌, ◌≤◌, length, drop};
ghost use Rattle.row_list.specs.Rows.{first_size, first_row, rows_of};
ghost use Rattle.row_list.specs.InnerRows.{list_checked};

use error::Refusal;

// The most bytes of a list.
pub const LIST_LIMIT: usize = 32768;

// How many rows a whole list has. It is looked at whole before any of its rows.
pub fn check(list: &[u8], most: usize) -> error::Result<usize>
    ensures { result ≡ list_checked (rows_of most list.now) }
{
    let n = list.len();
    if LIST_LIMIT < n {
        return Err(Refusal::BadList);
    }
    let mut at = 0;
    let mut rows = 0;
    // Stays: a row's length tells where the next one starts.
    while at < n {
        if rows == most || n - at < 2 {
            return Err(Refusal::BadList);
        }
        let end = row_end(list, at);
        if n < end {
            return Err(Refusal::BadList);
        }
        at = end;
        rows += 1;
    }
    Ok(rows)
}

// Where the row ends whose length stands at a place.
pub fn row_end(list: &[u8], at: usize) -> usize
    requires { at + 2 ≤ length list.now }
    ensures { result ≡ at + (2 + first_size (drop at list.now)) }
{
    let size = endian::read_u16(list, at) as usize;
    at + (2 + size)
}

// The row whose length stands at a place.
pub fn row_at<'l>(list: &'l [u8], at: usize) -> &'l [u8]
    requires { at + (2 + first_size (drop at list.now)) ≤ length list.now }
    ensures { result.now ≡ first_row (drop at list.now) }
{
    &list[at + 2..row_end(list, at)]
}
