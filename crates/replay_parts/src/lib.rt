// The fields of recorded calls, and whether the library answers as recorded: texts, null flags, layouts, values, reads.
// oracle/differential/src/recorded.rs describes the records.
#![tactic(auto)]

mod kinds;

ghost use Rattle.std.specs.Prelude.{◌≡◌, ◌+◌, ◌≤◌, ◌<◌, cond, eqb, length, Some, None};
ghost use Rattle.laws.specs.Bytes.{from_le};
ghost use Rattle.std.specs.Iterator.{at_most};

pub use kinds::{KINDS, Kind, NOTE, PLANTED, UnknownKind};

// Fields end to end, each behind its length in four bytes; a length that passes the end counts as 0.
#[derive(Clone, Copy, Drop)]
pub struct Fields<'r>(pub &'r [u8]);

impl<'r> Iterator for Fields<'r> {
    type Item = &'r [u8];

    ghost remaining = { λ s. at_most (length s.0.now) };

    fn next(&mut self) -> Option<&'r [u8]> {
        if self.0.len() < 4 {
            None
        } else {
            Some(self.field())
        }
    }
}

impl<'r> Fields<'r> {
    // The next field, behind the four bytes of its length, or what is left where that is no field.
    pub fn field(&mut self) -> &'r [u8]
        ensures apart { 4 ≤ length self.old.0.now
            → 4 + (length result.now + length self.new.0.now) ≤ length self.old.0.now }
        ensures left { length self.old.0.now < 4 → (result.now ≡ self.old.0.now) × (self.new.0.now ≡ self.old.0.now) }
    {
        let fields = self.0;
        let Some((length, rest)) = fields.split_first_chunk::<4>() else {
            return fields;
        };
        let length = u32::from_le_bytes(*length) as usize;
        let end = if length <= rest.len() { length } else { 0 };
        let (field, rest) = rest.split_at(end);
        self.0 = rest;
        field
    }
}

// What a call answered: 0 and the bytes that it handed back, or the refusal's number.
#[derive(Clone, Copy)]
pub struct Outcome {
    pub number: u32,
    pub length: usize,
}

pub fn answered(answer: error::Result<usize>) -> Outcome {
    match answer {
        Ok(length) => Outcome { number: 0, length },
        Err(refusal) => Outcome {
            number: refusal.number(),
            length: 0,
        },
    }
}

// What the Rust does where a number is answered: 0 it answers, 1 Internal, 2 TypeMismatch, 3 a panic, 255 none of
// these.
pub fn variant(number: u32) -> u8 {
    match number {
        0 => 0,
        3 | 5 | 6 | 9 | 11 => 1,
        8 | 12 => 2,
        7 => 3,
        _ => 255,
    }
}

// An answer's variant, then the bytes that were handed back.
pub fn same_handed(number: u32, n: usize, out: &[u8], recorded: &[u8]) -> bool {
    let handed = if number == 0 { n } else { 0 };
    match (recorded.split_first(), out.get(..handed)) {
        (Some((first, bytes)), Some(out)) => *first == variant(number) && out == bytes,
        _ => false,
    }
}

fn same_text(s: &[u8], recorded: &[u8]) -> bool {
    recorded == [u8::from(text::is_valid(s))].as_slice()
}

// A number of eight bytes.
pub fn number(field: &[u8]) -> Option<usize>
    ensures { result ≡ cond (eqb (length field.now) 8) (Some (from_le field.now)) None }
{
    if field.len() == 8 {
        Some(endian::read_u64(field, 0) as usize)
    } else {
        None
    }
}

fn same_null_flag(row: &[u8], column: &[u8], recorded: &[u8]) -> bool {
    let Some(column) = number(column) else {
        return false;
    };
    let (number, null) = match null_bitmap::is_column_null_in_row(row, column) {
        Ok(null) => (0, null),
        Err(refusal) => (refusal.number(), false),
    };
    recorded == [variant(number), u8::from(null)].as_slice()
}

fn same_layout(schema: &[u8], recorded: &[u8]) -> bool {
    let Ok(layout) = datatype::check_schema(schema, false) else {
        return false;
    };
    recorded.len() == 16
        && endian::read_u32(recorded, 0) as usize == layout.num_columns
        && endian::read_u32(recorded, 4) as usize == layout.num_varlen_cols
        && endian::read_u32(recorded, 8) as usize == layout.packed_size
        && endian::read_u32(recorded, 12) as usize == layout.padded_size
}

fn same_stored(schema: &[u8], list: &[u8], area: &[u8], recorded: &[u8]) -> bool {
    let mut out = [0; 2048];
    let answer = rook_probe::rook_probe_store(schema, list, area, &mut out);
    same_handed(answer.number, answer.length, &out, recorded)
}

fn same_slot(schema: &[u8], bytes: &[u8], start: &[u8], recorded: &[u8]) -> bool {
    let Some(start) = number(start) else {
        return false;
    };
    let mut out = [0; 18];
    let answer = rook_probe::rook_probe_slot(schema, bytes, start, &mut out);
    same_handed(answer.number, answer.length, &out, recorded)
}

fn same_read(schema: &[u8], row: &[u8], wanted: &[u8], recorded: &[u8]) -> bool {
    let mut numbers = [0; 64];
    for (number, bytes) in numbers.iter_mut().zip(wanted.chunks_exact(2)) {
        *number = endian::read_u16(bytes, 0);
    }
    let Some(numbers) = numbers.get(..wanted.len() / 2) else {
        return false;
    };
    let mut out = [0; 2048];
    let mut counts = [0; 256];
    let answer = answered(row_decode::decode(schema, row, numbers, &mut out, &mut counts));
    same_handed(answer.number, answer.length, &out, recorded)
}

// Whether the library answers a call of these kinds as its record's last field has it; false for every other number.
pub fn same(kind: u8, fields: &[u8]) -> bool {
    let mut fields = Fields(fields);
    let a = fields.field();
    let b = fields.field();
    let c = fields.field();
    match Kind::try_from(kind) {
        Ok(Kind::Text) => same_text(a, b),
        Ok(Kind::NullFlag) => same_null_flag(a, b, c),
        Ok(Kind::Layout) => same_layout(a, b),
        Ok(Kind::Stored) => same_stored(a, b, c, fields.field()),
        Ok(Kind::Slot) => same_slot(a, b, c, fields.field()),
        Ok(Kind::Read) => same_read(a, b, c, fields.field()),
        _ => false,
    }
}
