// Worked cases that are run and not proved: RFC 3629's own examples, case 10 and limits of schemas from document 01,
// and the null flag past the limit of short rows from document 02, request 5.
// What each gives is written on a line; the file `stdout` has what it must be.
#![tactic(auto)]

use error::Refusal;
use std::fmt;
use std::fmt::Write;

// POSIX's descriptor of standard output.
const STDOUT_FILENO: i32 = 1;

// Standard output by the crate io. A write that fails is passed over: the lines after it are written all the same, and
// the status stays 0.
#[derive(Clone, Copy)]
struct Output;

impl fmt::Write for Output {
    fn write_str(&mut self, s: &str) -> fmt::Result {
        io::write_all(STDOUT_FILENO, s.as_bytes());
        Ok(())
    }
}

fn print_text(out: &mut Output, name: &str, s: &[u8]) -> fmt::Result {
    match text::check(s) {
        Some(points) => writeln!(out, "{name}: valid, code points {points}"),
        None => writeln!(out, "{name}: not valid"),
    }
}

// Section 7, the examples; sections 3 and 10, what is forbidden.
fn rfc3629(out: &mut Output) -> fmt::Result {
    print_text(
        out,
        "RFC 3629, 7: A, not identical to, alpha, full stop",
        b"\x41\xE2\x89\xA2\xCE\x91\x2E",
    )?;
    print_text(
        out,
        "RFC 3629, 7: Korean",
        b"\xED\x95\x9C\xEA\xB5\xAD\xEC\x96\xB4",
    )?;
    print_text(
        out,
        "RFC 3629, 7: Japanese",
        b"\xE6\x97\xA5\xE6\x9C\xAC\xE8\xAA\x9E",
    )?;
    print_text(
        out,
        "RFC 3629, 7: byte order mark, U+233B4",
        b"\xEF\xBB\xBF\xF0\xA3\x8E\xB4",
    )?;
    print_text(out, "RFC 3629, 10: overlong NUL", b"\xC0\x80")?;
    print_text(
        out,
        "RFC 3629, 3: a surrogate pair",
        b"\xED\xA1\x8C\xED\xBE\xB4",
    )?;
    print_text(out, "no bytes", b"")
}

fn print_refusal(out: &mut Output, name: &str, refusal: Refusal) -> fmt::Result {
    let number = refusal.number();
    let place = refusal.place();
    writeln!(out, "{name}: refused, number {number} place {place}")
}

fn print_schema(out: &mut Output, name: &str, schema: &[u8]) -> fmt::Result {
    match datatype::check_schema(schema, false) {
        Ok(layout) => writeln!(out, "{name}: columns {}", layout.num_columns),
        Err(refusal) => print_refusal(out, name, refusal),
    }
}

fn print_build(
    out: &mut Output,
    name: &str,
    schema: &[u8],
    values: &[u8],
    text: &[u8],
) -> fmt::Result {
    let mut row = [0u8; 65536];
    let mut counts = [0u32; 256];
    match row_build::serialize_nullable_typed_row(
        schema,
        false,
        values,
        text,
        &mut row,
        &mut counts,
    ) {
        Ok(size) => writeln!(out, "{name}: bytes {size}"),
        Err(refusal) => print_refusal(out, name, refusal),
    }
}

// Case 10: "ABCDE" fits S, "ABCDEF" gives 12.
fn texts(out: &mut Output) -> fmt::Result {
    let s = b"\x02\x0B\x05\x00\x01";
    print_build(
        out,
        "S of 1, ABCDE, null",
        s,
        b"\x02\x01\x00\x00\x00\x09\x00\x00\x05\x00\x00",
        b"ABCDEF",
    )?;
    print_build(
        out,
        "S of 1, ABCDEF, null",
        s,
        b"\x02\x01\x00\x00\x00\x09\x00\x00\x06\x00\x00",
        b"ABCDEF",
    )
}

// Case 10: a row of 65,535 bytes passes, one more gives 13. Before the text of a Varchar stand 7 bytes.
fn rows(out: &mut Output) -> fmt::Result {
    let text = [0x41u8; 65529];
    let varchar = b"\x0B\xFF\xFF";
    print_build(
        out,
        "Varchar(65535) of 65,528 bytes",
        varchar,
        b"\x09\x00\x00\xF8\xFF",
        &text,
    )?;
    print_build(
        out,
        "Varchar(65535) of 65,529 bytes",
        varchar,
        b"\x09\x00\x00\xF9\xFF",
        &text,
    )
}

// Case 10: 256 columns pass, 257 give 2.
fn schemas(out: &mut Output) -> fmt::Result {
    let smallints = [1u8; 257];
    print_schema(out, "no columns", b"")?;
    print_schema(out, "256 columns", &smallints[..256])?;
    print_schema(out, "257 columns", &smallints)?;
    print_schema(out, "unknown kind 16", b"\x01\x10")?;
    print_schema(out, "a Varchar cut off", b"\x01\x0B\x05")?;
    print_schema(out, "Numeric(39, 0) cut off", b"\x06\x27")?;
    print_schema(out, "Numeric(39, 0)", b"\x06\x27\x00")?;
    print_schema(out, "Numeric(3, 4)", b"\x06\x03\x04")?;
    print_schema(out, "Char(65530)", b"\x09\xFA\xFF")?;
    print_schema(out, "Char(65531)", b"\x09\xFB\xFF")
}

fn print_flag(out: &mut Output, name: &str, row: &[u8]) -> fmt::Result {
    match null_bitmap::is_column_null_in_row(row, 0) {
        Ok(null) => writeln!(out, "{name}: null {}", u8::from(null)),
        Err(refusal) => print_refusal(out, name, refusal),
    }
}

// Request 5: a row of 65,536 bytes, with the mark of a long row and without.
fn flags(out: &mut Output) -> fmt::Result {
    let mut row = [0u8; 65536];
    row[0] = 1;
    row[3] = 0xC0;
    print_flag(out, "the flag of a long row of 65,536 bytes", &row)?;
    row[3] = 0x80;
    print_flag(out, "the flag of a short row of 65,536 bytes", &row)
}

fn print_all(out: &mut Output) -> fmt::Result {
    rfc3629(out)?;
    schemas(out)?;
    texts(out)?;
    rows(out)?;
    flags(out)
}

fn main() {
    let _ = print_all(&mut Output);
}
