// Whether the library answers the recorded calls as recorded; those that write rows are here: builds, fresh rows,
// edits.
#![tactic(auto)]

use replay_parts::{Fields, Kind, Outcome, answered, number, same_handed, variant};

fn same_built(schema: &[u8], values: &[u8], area: &[u8], recorded: &[u8]) -> bool {
    let mut out = [0; 2048];
    let mut counts = [0; 256];
    let answer = answered(row_build::serialize_nullable_typed_row(
        schema,
        false,
        values,
        area,
        &mut out,
        &mut counts,
    ));
    same_handed(answer.number, answer.length, &out, recorded)
}

fn same_fresh(schema: &[u8], recorded: &[u8]) -> bool {
    let mut out = [0; 2048];
    let answer = answered(row_build::fresh(schema, false, &mut out));
    same_handed(answer.number, answer.length, &out, recorded)
}

// What an edit left: its answer's variant, the row length after it, every byte of the buffer.
fn same_left(answer: Outcome, before: usize, buffer: &[u8], recorded: &[u8]) -> bool {
    let length = if answer.number == 0 {
        answer.length
    } else {
        before
    };
    match recorded.split_at_checked(9) {
        Some((head, bytes)) => {
            head[0] == variant(answer.number)
                && endian::read_u64(head, 1) as usize == length
                && buffer == bytes
        }
        None => false,
    }
}

// The column of a row set to a value, or to null where there is none: a value list and its text area.
fn same_edit(
    schema: &[u8],
    row: &[u8],
    numbers: &[u8],
    value: Option<(&[u8], &[u8])>,
    recorded: &[u8],
) -> bool {
    let mut out = [0; 2048];
    let (Some(buffer), Some((length, column))) = (
        out.get_mut(..row.len()),
        numbers.split_at_checked(8),
    ) else {
        return false;
    };
    let (Some(length), Some(column)) = (number(length), number(column)) else {
        return false;
    };
    buffer.copy_from_slice(row);
    let answer = match value {
        Some((list, area)) => row_edit::set_value(schema, buffer, length, column, list, area),
        None => row_edit::set_null(schema, buffer, length, column),
    };
    same_left(answered(answer), length, buffer, recorded)
}

// Whether the library answers a call of these kinds as its record's last field has it; false for every other number.
pub fn same(kind: u8, fields: &[u8]) -> bool {
    let mut rest = Fields(fields);
    let a = rest.field();
    let b = rest.field();
    match Kind::try_from(kind) {
        Ok(Kind::Fresh) => same_fresh(a, b),
        Ok(Kind::Built) => {
            let area = rest.field();
            same_built(a, b, area, rest.field())
        }
        Ok(Kind::Set) => {
            let numbers = rest.field();
            let value = (rest.field(), rest.field());
            same_edit(a, b, numbers, Some(value), rest.field())
        }
        Ok(Kind::SetNull) => {
            let numbers = rest.field();
            same_edit(a, b, numbers, None, rest.field())
        }
        _ => false,
    }
}
