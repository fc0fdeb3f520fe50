// bit_utils.rs: bit strings packed in bytes, the first bit the highest of the first byte.
#![tactic(auto)]

ghost use Rattle.std.specs.Prelude.{◌≡◌, ◌+◌, ◌<◌, ◌≤◌, length, take, drop};
ghost use Rattle.std.proofs.lemmas.List.Edits.{sets};
ghost use Rattle.laws.specs.Bytes.{same_bytes};
ghost use Rattle.bit_utils.specs.Bits.{bytes_for, byte_bits, pack_byte, pack_bits, unpack_bits};

// The bytes that n bits fill.
pub fn byte_count(n: usize) -> usize
    requires { n ≤ 65535 }
    ensures { result ≡ bytes_for n }
{
    n.div_ceil(8)
}

// The first k bits of a byte, the others zero.
fn high_bits(b: u8, k: usize) -> u8
    requires { k < 8 }
    ensures { result ≡ pack_byte 8 (take k (byte_bits b)) }
{
    b & !(0xFF >> k)
}

// The bytes at `at` that n bits fill, the bits past the first n set to zero.
pub fn clear_spare_bits(s: &mut [u8], at: usize, n: usize)
    requires { at + bytes_for n ≤ length s.old }
    ensures { s.new
        ≡ sets s.old at (pack_bits n (unpack_bits n (take (bytes_for n) (drop at s.old)))) }
{
    let used = n % 8;
    if 0 < used {
        let last = at + n / 8;
        s[last] = high_bits(s[last], used);
    }
}

// Whether the first n bits of two bit strings are the same.
pub fn same_bits(a: &[u8], b: &[u8], n: usize) -> bool
    requires { (length a.now ≡ bytes_for n) × (length b.now ≡ bytes_for n) }
    ensures { result ≡ same_bytes (unpack_bits n a.now) (unpack_bits n b.now) }
{
    let last = n / 8;
    let used = n % 8;
    endian::same_bytes(&a[..last], &b[..last])
        && (used == 0 || high_bits(a[last], used) == high_bits(b[last], used))
}
