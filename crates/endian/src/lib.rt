// Little-endian numbers at a place of a slice, and runs of bytes copied, filled and moved.
#![tactic(auto)]

ghost use Rattle.std.specs.Prelude.{◌≡◌, ◌+◌, ◌≤◌, length, take, drop, replicate};
ghost use Rattle.std.proofs.lemmas.List.Edits.{sets};
ghost use Rattle.std.specs.Int.{w16, w32, w64};
ghost use Rattle.std.proofs.Common.{to_z, of_z};
ghost use Rattle.laws.specs.Bytes.{to_le, from_le, same_bytes};

// The N bytes at `at`.
fn bytes_at<const N: usize>(s: &[u8], at: usize) -> [u8; N]
    requires { at + N ≤ length s.now }
    ensures { result ≡ take N (drop at s.now) }
{
    *s[at..at + N].as_array().unwrap()
}

// Stays (to write_i64): a trait for these twelve would need six impls, each with the lines that stand here.
pub fn read_u16(s: &[u8], at: usize) -> u16
    requires { at + 2 ≤ length s.now }
    ensures { result ≡ from_le (take 2 (drop at s.now)) }
{
    u16::from_le_bytes(bytes_at(s, at))
}

pub fn read_u32(s: &[u8], at: usize) -> u32
    requires { at + 4 ≤ length s.now }
    ensures { result ≡ from_le (take 4 (drop at s.now)) }
{
    u32::from_le_bytes(bytes_at(s, at))
}

pub fn read_u64(s: &[u8], at: usize) -> u64
    requires { at + 8 ≤ length s.now }
    ensures { result ≡ from_le (take 8 (drop at s.now)) }
{
    u64::from_le_bytes(bytes_at(s, at))
}

pub fn read_i16(s: &[u8], at: usize) -> i16
    requires { at + 2 ≤ length s.now }
    ensures { result ≡ to_z w16 (from_le (take 2 (drop at s.now))) }
{
    i16::from_le_bytes(bytes_at(s, at))
}

pub fn read_i32(s: &[u8], at: usize) -> i32
    requires { at + 4 ≤ length s.now }
    ensures { result ≡ to_z w32 (from_le (take 4 (drop at s.now))) }
{
    i32::from_le_bytes(bytes_at(s, at))
}

pub fn read_i64(s: &[u8], at: usize) -> i64
    requires { at + 8 ≤ length s.now }
    ensures { result ≡ to_z w64 (from_le (take 8 (drop at s.now))) }
{
    i64::from_le_bytes(bytes_at(s, at))
}

pub fn write_u16(s: &mut [u8], at: usize, x: u16)
    requires { at + 2 ≤ length s.old }
    ensures { s.new ≡ sets s.old at (to_le 2 x) }
{
    store(s, at, &x.to_le_bytes());
}

pub fn write_u32(s: &mut [u8], at: usize, x: u32)
    requires { at + 4 ≤ length s.old }
    ensures { s.new ≡ sets s.old at (to_le 4 x) }
{
    store(s, at, &x.to_le_bytes());
}

pub fn write_u64(s: &mut [u8], at: usize, x: u64)
    requires { at + 8 ≤ length s.old }
    ensures { s.new ≡ sets s.old at (to_le 8 x) }
{
    store(s, at, &x.to_le_bytes());
}

pub fn write_i16(s: &mut [u8], at: usize, x: i16)
    requires { at + 2 ≤ length s.old }
    ensures { s.new ≡ sets s.old at (to_le 2 (of_z w16 x)) }
{
    store(s, at, &x.to_le_bytes());
}

pub fn write_i32(s: &mut [u8], at: usize, x: i32)
    requires { at + 4 ≤ length s.old }
    ensures { s.new ≡ sets s.old at (to_le 4 (of_z w32 x)) }
{
    store(s, at, &x.to_le_bytes());
}

pub fn write_i64(s: &mut [u8], at: usize, x: i64)
    requires { at + 8 ≤ length s.old }
    ensures { s.new ≡ sets s.old at (to_le 8 (of_z w64 x)) }
{
    store(s, at, &x.to_le_bytes());
}

// A number's bytes, so few that they are stored without a call.
#[tactic(auto, using(crate::proofs::Runs::part_stored))]
fn store(s: &mut [u8], at: usize, src: &[u8])
    requires { at + length src.now ≤ length s.old }
    ensures { s.new ≡ sets s.old at src.now }
{
    s[at..at + src.len()].copy_from_slice(src);
}

// By a loop: for slices of any length `copy_from_slice` is a call of C's memmove, which the library has nowhere else.
pub fn copy(s: &mut [u8], at: usize, src: &[u8])
    requires { at + length src.now ≤ length s.old }
    ensures { s.new ≡ sets s.old at src.now }
{
    for i in 0..src.len() {
        s[at + i] = src[i];
    }
}

// Stays: std's `fill` stores the last byte by itself, and takes half as long again for a few bytes.
pub fn fill(s: &mut [u8], at: usize, n: usize, b: u8)
    requires { at + n ≤ length s.old }
    ensures { s.new ≡ sets s.old at (replicate n b) }
{
    for i in 0..n {
        s[at + i] = b;
    }
}

// The n bytes from `from` on stand from `to` on afterwards, whether or not the two overlap. Where they stand there
// already nothing is done: `copy_within` would go byte by byte, and elsewhere it takes many at once.
pub fn move_within(s: &mut [u8], from: usize, to: usize, n: usize)
    requires { (from + n ≤ length s.old) × (to + n ≤ length s.old) }
    ensures { s.new ≡ sets s.old to (take n (drop from s.old)) }
{
    if from != to {
        s.copy_within(from..from + n, to);
    }
}

// Stays: `==` with a contract in the word that the clauses of rows cite.
pub fn same_bytes(a: &[u8], b: &[u8]) -> bool
    ensures { result ≡ same_bytes a.now b.now }
{
    a == b
}
