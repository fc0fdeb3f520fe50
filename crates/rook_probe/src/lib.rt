// Inner functions, for the comparison with the Rust alone, to which rook_probe_c exports them. This is no part of the
// library that is delivered.
#![tactic(auto)]

ghost use Rattle.std.specs.Prelude.{◌≡◌, true, false, ◌≤◌, length};
ghost use Rattle.datatype.specs.Types.{precision_of};
ghost use Rattle.datatype.specs.Schema.{schema_of};
ghost use Rattle.datatype.specs.InnerCheck.{checked_schema};
ghost use Rattle.value.specs.Kinds.{matches};
ghost use Rattle.value.specs.Ranges.{text_of};
ghost use Rattle.value_list.specs.Lists.{checked as checkedList};
ghost use Rattle.stored_form.specs.Write.{accepted, stored_form};
ghost use Rattle.stored_form.specs.Read.{read_slot};
ghost use Rattle.rook_probe.specs.Probes.{layout_probe};
ghost use Rattle.rook_probe.specs.Values.{only_type, Precise, only_value, form_length, stored_value, stored_list, stored_as, fits_slot, placed_read, read_value, read_one, read_as, value_probe};
ghost use Rattle.error.specs.Answer.{placed};

use datatype::DataType;
use error::Refusal;
use row_layout::RowLayout;
use value::DataValue;

#[repr(C)]
#[derive(Clone, Copy)]
pub struct LayoutProbe {
    pub number: u32,
    pub place: usize,
    pub columns: usize,
    pub varlens: usize,
    pub packed: usize,
    pub padded: usize,
}

impl From<error::Result<RowLayout>> for LayoutProbe {
    ghost from_gives = { λ r p. p ≡ layout_probe r };

    fn from(layout: error::Result<RowLayout>) -> LayoutProbe {
        match layout {
            Ok(layout) => LayoutProbe {
                number: 0,
                place: 0,
                columns: layout.num_columns,
                varlens: layout.num_varlen_cols,
                packed: layout.packed_size,
                padded: layout.padded_size,
            },
            Err(r) => LayoutProbe {
                number: r.number(),
                place: r.place(),
                columns: 0,
                varlens: 0,
                packed: 0,
                padded: 0,
            },
        }
    }
}

// The layout of a schema's short rows: the fixed columns' bytes, packed and padded.
pub fn rook_probe_layout(schema: &[u8]) -> LayoutProbe
    ensures { result ≡ layout_probe (checked_schema false (schema_of false schema.now)) }
{
    LayoutProbe::from(datatype::check_schema(schema, false))
}

// The number of an answer, and how many bytes it put at the front of `out`.
#[repr(C)]
#[derive(Clone, Copy)]
pub struct ValueProbe {
    pub number: u32,
    pub length: usize,
}

impl From<error::Result<usize>> for ValueProbe {
    ghost from_gives = { λ r p. p ≡ value_probe r };

    fn from(answer: error::Result<usize>) -> ValueProbe {
        match answer {
            Ok(length) => ValueProbe { number: 0, length },
            Err(r) => ValueProbe {
                number: r.number(),
                length: 0,
            },
        }
    }
}

// The type of a schema that is exactly one record.
fn one_type(schema: &[u8]) -> error::Result<DataType>
    ensures { (result ≡ only_type schema.now) × Precise result }
{
    if schema.is_empty() {
        return Err(Refusal::BadRecord(0));
    }
    let (ty, next) = datatype::record_at(schema, 0)?;
    if next == schema.len() {
        Ok(ty)
    } else {
        Err(Refusal::BadSchema(next))
    }
}

// The value of a list that is exactly one record, beside a text area of `area` bytes.
fn one_value(list: &[u8], area: usize) -> Option<DataValue>
    ensures { result ≡ only_value (checkedList false 1 area list.now) }
{
    value_list::check_values(list, false, 1, area).ok()?;
    let (value, _) = value_list::value_record_at(list, 0).ok()?;
    Some(value)
}

fn form_length(ty: DataType, value: DataValue) -> usize
    ensures { result ≡ form_length ty value }
{
    if ty.is_variable_length() {
        value.range().length
    } else {
        ty.fixed_size()
    }
}

// The stored form of a value that the type holds.
fn place_value(ty: DataType, value: DataValue, area: &[u8], out: &mut [u8]) -> error::Result<usize>
    requires { (precision_of ty ≤ 38) × ((matches ty value ≡ true) × (accepted ty value area.now ≡ true)) }
    ensures { (result, out.new) ≡ placed out.old (stored_form ty value (text_of area.now value)) }
{
    let length = form_length(ty, value);
    if out.len() < length {
        return Err(Refusal::NoRoom);
    }
    value_encode::to_bytes_for_type(out, 0, ty, value, area);
    Ok(length)
}

fn store_value(ty: DataType, value: DataValue, area: &[u8], out: &mut [u8]) -> error::Result<usize>
    requires { precision_of ty ≤ 38 }
    ensures { (result, out.new) ≡ stored_value ty value area.now out.old }
{
    if !value::data_value_matches_type(ty, value) {
        return Err(Refusal::WrongKind(0));
    }
    if !value_encode::suits(ty, value, area) {
        return Err(Refusal::Unsuitable(0));
    }
    place_value(ty, value, area, out)
}

// The stored form of a list's one value under a schema's one type, at the front of `out`: its length.
pub fn store(schema: &[u8], list: &[u8], area: &[u8], out: &mut [u8]) -> error::Result<usize>
    ensures { (result, out.new) ≡ stored_list (only_type schema.now) list.now area.now out.old }
{
    let ty = one_type(schema)?;
    let value = one_value(list, area.len()).ok_or(Refusal::BadValueList(0))?;
    store_value(ty, value, area, out)
}

// The same, with a number for the refusal.
pub fn rook_probe_store(schema: &[u8], list: &[u8], area: &[u8], out: &mut [u8]) -> ValueProbe
    ensures { (result, out.new)
        ≡ stored_as (only_type schema.now) list.now area.now out.old }
{
    ValueProbe::from(store(schema, list, area, out))
}

fn fits_slot(ty: DataType, size: usize) -> bool
    ensures { result ≡ fits_slot ty size }
{
    ty.is_variable_length() || size == ty.fixed_size()
}

// What the bytes of a slot, or of a payload, read as.
fn place_read(ty: DataType, bytes: &[u8], start: usize, out: &mut [u8]) -> error::Result<usize>
    requires { (precision_of ty ≤ 38)
        × ((fits_slot ty (length bytes.now) ≡ true) × ((start ≤ 65535) × (length bytes.now ≤ 65535))) }
    ensures { (result, out.new) ≡ placed_read (read_slot ty start bytes.now) out.old }
{
    if out.len() < 18 {
        return Err(Refusal::NoRoom);
    }
    let value = value_decode::from_bytes(ty, bytes, start).ok_or(Refusal::NoValue(0))?;
    Ok(record_encode::write_value_record(out, 0, false, value))
}

// The most bytes of a short row.
const ROW_LIMIT: usize = 65535;

fn read_value(ty: DataType, bytes: &[u8], start: usize, out: &mut [u8]) -> error::Result<usize>
    requires { precision_of ty ≤ 38 }
    ensures { (result, out.new) ≡ read_value ty bytes.now start out.old }
{
    if start > ROW_LIMIT || bytes.len() > ROW_LIMIT {
        Err(Refusal::RowTooLong)
    } else if fits_slot(ty, bytes.len()) {
        place_read(ty, bytes, start, out)
    } else {
        Err(Refusal::RowTooShort)
    }
}

// What bytes that stand at `start` of a row read as under a schema's one type: a value record, whose text area is the
// row, at the front of `out`; its length.
pub fn slot(schema: &[u8], bytes: &[u8], start: usize, out: &mut [u8]) -> error::Result<usize>
    ensures { (result, out.new) ≡ read_one (only_type schema.now) bytes.now start out.old }
{
    let ty = one_type(schema)?;
    read_value(ty, bytes, start, out)
}

// The same, with a number for the refusal.
pub fn rook_probe_slot(schema: &[u8], bytes: &[u8], start: usize, out: &mut [u8]) -> ValueProbe
    ensures { (result, out.new)
        ≡ read_as (only_type schema.now) bytes.now start out.old }
{
    ValueProbe::from(slot(schema, bytes, start, out))
}
