// The printed list of platform occupations: the rows of a list in their order, a line for each. The order is kept as
// the places in the list where the rows' lengths stand, so that no row is copied.
#![tactic(auto)]

ghost use Rattle.std.specs.Prelude.{◌≡◌, ◌+◌, ◌-◌, ◌%◌, ◌≤◌, ◌<◌, length, take, drop, set};
ghost use Rattle.std.proofs.lemmas.List.Edits.{sets};
ghost use Rattle.error.specs.Answer.{placed};
ghost use Rattle.occupation.specs.Order.{precedes};
ghost use Rattle.occupation.specs.Line.{line};
ghost use Rattle.occupation.specs.InnerFields.{fields_shown};
ghost use Rattle.occupation_list.specs.Print.{row_count_limit, decimal, refusal_line, print_call, report_call};
ghost use Rattle.occupation_list.specs.InnerOrder.{occupation_at, Place, Known, lines_at, Placed, FoundPlace};
ghost use Rattle.occupation_list.specs.InnerOrder.{Addable, AddedAs, Arrangeable, ArrangedAs, LinesReady};
ghost use Rattle.occupation_list.specs.InnerOrder.{numbers_line};

use error::Refusal;
use occupation::Fields;

// The most rows of a list.
const ROW_LIMIT: usize = 512;

// Whether a row comes before the one at a place of the list.
fn precedes_placed(row: &[u8], f: Fields, list: &[u8], at: usize) -> bool
    requires { Known row.now f × Place list.now at }
    ensures { result ≡ precedes (fields_shown row.now f) (occupation_at list.now at) }
{
    let other = row_list::row_at(list, at);
    occupation::precedes(row, f, other, occupation::fields_of(other))
}

// How many of the first k places a row does not come before: by halves.
// Stays: `partition_point` asks for a test of any number, and only the places in `order` have a row that was read.
fn place_for(list: &[u8], order: &[u16], k: usize, row: &[u8], f: Fields) -> usize
    requires { Placed list.now order.now k × Known row.now f }
    ensures { FoundPlace list.now order.now k (fields_shown row.now f) result }
{
    let mut low = 0;
    let mut high = k;
    while low < high {
        let mid = low + (high - low) / 2;
        if precedes_placed(row, f, list, order[mid] as usize) {
            high = mid;
        } else {
            low = mid + 1;
        }
    }
    low
}

// The place goes in at p, and those from p up to k move up.
fn insert(order: &mut [u16], k: usize, p: usize, at: u16)
    requires { (p ≤ k) × (k < length order.old) }
    ensures { order.new
        ≡ set (sets order.old (p + 1) (take (k - p) (drop p order.old))) p at }
{
    order.copy_within(p..k, p + 1);
    order[p] = at;
}

// The row at a place of the list, put behind all that it does not come before: the bytes of its line.
fn add_row(list: &[u8], at: usize, order: &mut [u16], k: usize) -> error::Result<usize>
    requires { Addable list.now order.old k at }
    ensures { AddedAs list.now order.old k at result order.new }
{
    let row = row_list::row_at(list, at);
    let f = occupation::read(row)?;
    let p = place_for(list, order, k, row, f);
    insert(order, k, p, at as u16);
    Ok(occupation::line_length(f))
}

// The rows of a whole list in order: how many, and the bytes of all their lines.
fn arrange_rows(list: &[u8], order: &mut [u16]) -> error::Result<(usize, usize)>
    requires { Arrangeable list.now order.old }
    ensures { ArrangedAs list.now order.new result }
{
    let mut at = 0;
    let mut k = 0;
    let mut size = 0;
    // Stays: a row's length tells where the next one starts.
    while at < list.len() {
        let n = add_row(list, at, order, k)?;
        at = row_list::row_end(list, at);
        k += 1;
        size += n;
    }
    Ok((k, size))
}

fn arrange(list: &[u8], order: &mut [u16]) -> error::Result<(usize, usize)>
    requires { length order.old ≡ row_count_limit }
    ensures { ArrangedAs list.now order.new result }
{
    row_list::check(list, ROW_LIMIT)?;
    arrange_rows(list, order)
}

fn write_row(out: &mut [u8], end: usize, list: &[u8], at: usize) -> usize
    requires { Place list.now at × (end + length (line (occupation_at list.now at)) ≤ length out.old) }
    ensures { (result ≡ end + length (line (occupation_at list.now at)))
        × (out.new ≡ sets out.old end (line (occupation_at list.now at))) }
{
    let row = row_list::row_at(list, at);
    occupation::write_line(out, end, row, occupation::fields_of(row))
}

fn write_lines(out: &mut [u8], list: &[u8], order: &[u16])
    requires { Placed list.now order.now (length order.now)
        × (length (lines_at list.now order.now) ≤ length out.old) }
    ensures { out.new ≡ sets out.old 0 (lines_at list.now order.now) }
{
    let mut end = 0;
    for at in order {
        end = write_row(out, end, list, *at as usize);
    }
}

// The rows that were arranged: nothing is written where there is no room for all of their lines.
fn print_rows(list: &[u8], order: &[u16], size: usize, out: &mut [u8]) -> error::Result<usize>
    requires { LinesReady list.now order.now (length order.now) size }
    ensures { (result, out.new) ≡ placed out.old (lines_at list.now order.now) }
{
    if out.len() < size {
        return Err(Refusal::NoRoom);
    }
    write_lines(out, list, order);
    Ok(size)
}

// A line for each row of a list, in order.
pub fn print(list: &[u8], out: &mut [u8]) -> error::Result<usize>
    ensures { (result, out.new) ≡ print_call list.now out.old }
{
    let mut order = [0; ROW_LIMIT];
    let (k, size) = arrange(list, &mut order)?;
    print_rows(list, &order[..k], size, out)
}

fn decimal_length(n: usize) -> usize
    ensures { (result ≡ length (decimal n)) × (result ≤ 2) }
{
    if n < 10 { 1 } else { 2 }
}

fn digit(n: usize) -> u8
    ensures { result ≡ 48 + n % 10 }
{
    48 + (n % 10) as u8
}

fn write_decimal(out: &mut [u8], at: usize, n: usize) -> usize
    requires { at + length (decimal n) ≤ length out.old }
    ensures { (result ≡ at + length (decimal n))
        × (out.new ≡ sets out.old at (decimal n)) }
{
    if n < 10 {
        out[at] = digit(n);
        at + 1
    } else {
        out[at] = digit(n / 10);
        out[at + 1] = digit(n);
        at + 2
    }
}

fn write_refusal(out: &mut [u8], number: usize, place: usize)
    requires { length (numbers_line number place) ≤ length out.old }
    ensures { out.new ≡ sets out.old 0 (numbers_line number place) }
{
    let space = write_decimal(out, 0, number);
    out[space] = b' ';
    let end = write_decimal(out, space + 1, place);
    out[end] = b'\n';
}

// The line of a refusal.
fn print_refusal(e: Refusal, out: &mut [u8]) -> error::Result<usize>
    ensures { (result, out.new) ≡ placed out.old (refusal_line e) }
{
    let number = e.number() as usize;
    let place = e.place();
    let length = decimal_length(number) + decimal_length(place) + 2;
    if out.len() < length {
        return Err(Refusal::NoRoom);
    }
    write_refusal(out, number, place);
    Ok(length)
}

// All that the program prints: the lines of a list, or the line of its refusal.
pub fn report(list: &[u8], out: &mut [u8]) -> error::Result<usize>
    ensures { (result, out.new) ≡ report_call list.now out.old }
{
    let mut order = [0; ROW_LIMIT];
    match arrange(list, &mut order) {
        Ok((k, size)) => print_rows(list, &order[..k], size, out),
        Err(e) => print_refusal(e, out),
    }
}
