// The functions of rook_probe, exported for the comparison with the Rust alone. This is no part of the library that is
// delivered.
#![tactic(auto)]

ghost use Rattle.std.specs.Prelude.{◌≡◌, false};
ghost use Rattle.datatype.specs.Schema.{schema_of};
ghost use Rattle.datatype.specs.InnerCheck.{checked_schema};
ghost use Rattle.rook_probe.specs.Probes.{layout_probe};
ghost use Rattle.rook_probe.specs.Values.{only_type, stored_as, read_as};

use rook_probe::{LayoutProbe, ValueProbe};

#[unsafe(no_mangle)]
pub extern "C" fn rook_probe_layout(schema: &[u8]) -> LayoutProbe
    ensures { result ≡ layout_probe (checked_schema false (schema_of false schema.now)) }
{
    rook_probe::rook_probe_layout(schema)
}

#[unsafe(no_mangle)]
pub extern "C" fn rook_probe_store(
    schema: &[u8],
    list: &[u8],
    area: &[u8],
    out: &mut [u8],
) -> ValueProbe
    ensures { (result, out.new)
        ≡ stored_as (only_type schema.now) list.now area.now out.old }
{
    rook_probe::rook_probe_store(schema, list, area, out)
}

#[unsafe(no_mangle)]
pub extern "C" fn rook_probe_slot(
    schema: &[u8],
    bytes: &[u8],
    start: usize,
    out: &mut [u8],
) -> ValueProbe
    ensures { (result, out.new)
        ≡ read_as (only_type schema.now) bytes.now start out.old }
{
    rook_probe::rook_probe_slot(schema, bytes, start, out)
}
