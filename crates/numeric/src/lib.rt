// value.rs, NUMERIC: decimal digits, and their packed form.
#![tactic(auto)]

ghost use Rattle.std.specs.Prelude.{◌≡◌, ◌+◌, ◌*◌, ◌-◌, ◌^◌, ◌/◌, ◌%◌, ◌<◌, ◌≤◌, ltb, length, get_or, take, drop, replicate};
ghost use Rattle.std.proofs.lemmas.List.Edits.{sets};
ghost use Rattle.numeric.specs.Decimal.{digits};
ghost use Rattle.numeric.specs.Packed.{pairs, nibbles, sign_nibble, encode_bcd, magnitude_of, decode_bcd};
ghost use Rattle.numeric.specs.InnerPacked.{two_digits, hundreds, Fresh};

// n divided by d, and the rest.
// Stays: by 64-bit divisions, for one of u128 is a call (tried: 5 times as long).
fn divided_by(n: u128, d: u64) -> (u128, u64)
    requires { (1 ≤ d) × (d ≤ 2 ^ 32) }
    ensures { (result.0 ≡ n / d) × (result.1 ≡ n % d) }
{
    let high = (n / 0x1_0000_0000_0000_0000) as u64;
    let low = (n % 0x1_0000_0000_0000_0000) as u64;
    let a = (high % d) * 0x1_0000_0000 + low / 0x1_0000_0000;
    let b = (a % d) * 0x1_0000_0000 + low % 0x1_0000_0000;
    let upper = (high / d) as u128;
    let lower = (a / d) * 0x1_0000_0000 + b / d;
    (upper * 0x1_0000_0000_0000_0000 + lower as u128, b % d)
}

// A byte with two digits.
fn two_digits(n: u64) -> u8
    requires { n < 100 }
    ensures { result ≡ two_digits n }
{
    (n / 10 * 16 + n % 10) as u8
}

// Four bytes with eight digits.
fn put_eight(s: &mut [u8], at: usize, n: u64)
    requires { (n < 100000000) × (at + 4 ≤ length s.old) }
    ensures { s.new ≡ sets s.old at (hundreds 4 n) }
{
    let a = n / 10000;
    let b = n % 10000;
    s[at] = two_digits(a / 100);
    s[at + 1] = two_digits(a % 100);
    s[at + 2] = two_digits(b / 100);
    s[at + 3] = two_digits(b % 100);
}

// The digits of n, two a byte up to `end`, over zeros.
fn put_pairs(s: &mut [u8], end: usize, n: u64)
    requires { Fresh s.old end n }
    ensures { s.new ≡ sets s.old 0 (hundreds end n) }
{
    let mut rest = n;
    for i in (0..end).rev() {
        if rest == 0 {
            return;
        }
        s[i] = two_digits(rest % 100);
        rest /= 100;
    }
}

// The decimal digits of a number, two a byte as the packed form has them: 39, and a zero where the sign goes. Up to
// seven are taken two by two. Of more the first division gives nine and each one after it eight, until 64 bits hold the
// rest, which is taken two by two.
pub fn digits_of(n: u128) -> [u8; 20]
    ensures { result ≡ pairs (digits 39 n) }
{
    let mut d = [0u8; 20];
    if n < 10_000_000 {
        let few = n as u64;
        d[19] = (few % 10 * 16) as u8;
        put_pairs(&mut d, 19, few / 10);
        return d;
    }
    let (mut rest, nine) = divided_by(n, 1_000_000_000);
    d[19] = (nine % 10 * 16) as u8;
    put_eight(&mut d, 15, nine / 10);
    let mut i: usize = 15;
    // Stays: it ends by the number that is left, and a `for` over places would need a second test.
    while rest > u64::MAX as u128 {
        let (quotient, eight) = divided_by(rest, 100_000_000);
        i -= 4;
        put_eight(&mut d, i, eight);
        rest = quotient;
    }
    put_pairs(&mut d, i, rest as u64);
    d
}

// The powers of ten from 0 to 38.
static POWERS: [u128; 39] = [
    1,
    10,
    100,
    1_000,
    10_000,
    100_000,
    1_000_000,
    10_000_000,
    100_000_000,
    1_000_000_000,
    10_000_000_000,
    100_000_000_000,
    1_000_000_000_000,
    10_000_000_000_000,
    100_000_000_000_000,
    1_000_000_000_000_000,
    10_000_000_000_000_000,
    100_000_000_000_000_000,
    1_000_000_000_000_000_000,
    10_000_000_000_000_000_000,
    100_000_000_000_000_000_000,
    1_000_000_000_000_000_000_000,
    10_000_000_000_000_000_000_000,
    100_000_000_000_000_000_000_000,
    1_000_000_000_000_000_000_000_000,
    10_000_000_000_000_000_000_000_000,
    100_000_000_000_000_000_000_000_000,
    1_000_000_000_000_000_000_000_000_000,
    10_000_000_000_000_000_000_000_000_000,
    100_000_000_000_000_000_000_000_000_000,
    1_000_000_000_000_000_000_000_000_000_000,
    10_000_000_000_000_000_000_000_000_000_000,
    100_000_000_000_000_000_000_000_000_000_000,
    1_000_000_000_000_000_000_000_000_000_000_000,
    10_000_000_000_000_000_000_000_000_000_000_000,
    100_000_000_000_000_000_000_000_000_000_000_000,
    1_000_000_000_000_000_000_000_000_000_000_000_000,
    10_000_000_000_000_000_000_000_000_000_000_000_000,
    100_000_000_000_000_000_000_000_000_000_000_000_000,
];

// Whether a number has at most p digits.
pub fn has_digits(n: u128, p: usize) -> bool
    requires { p ≤ 38 }
    ensures { result ≡ ltb n (10 ^ p) }
{
    n < POWERS[p]
}

fn sign_nibble(negative: bool) -> u8
    ensures { (result ≡ sign_nibble negative) × (result < 16) }
{
    if negative { 0xD } else { 0xC }
}

// The packed form of a number of at most p digits, at a place of a slice.
pub fn encode_numeric_bcd(s: &mut [u8], at: usize, n: u128, negative: bool, p: usize)
    requires { (p ≤ 38) × ((n < 10 ^ p) × (at + (p + 2) / 2 ≤ length s.old)) }
    ensures { s.new ≡ sets s.old at (encode_bcd p negative n) }
{
    let d = digits_of(n);
    let last = p / 2;
    s[at..at + last].copy_from_slice(&d[19 - last..19]);
    s[at + last] = d[19] + sign_nibble(negative);
}

fn nibble_at(bytes: &[u8], k: usize) -> u8
    requires { k / 2 < length bytes.now }
    ensures { result ≡ get_or (nibbles bytes.now) k 0 }
{
    if k % 2 == 0 {
        bytes[k / 2] / 16
    } else {
        bytes[k / 2] % 16
    }
}

// The number that at most 19 nibbles denote.
fn short_magnitude(bytes: &[u8], from: usize, to: usize) -> Option<u64>
    requires { (from ≤ to) × ((to ≤ from + 19) × (to ≤ 2 * length bytes.now)) }
    ensures { result ≡ magnitude_of (take (to - from) (drop from (nibbles bytes.now))) }
{
    let mut n: u64 = 0;
    for k in from..to {
        let digit = nibble_at(bytes, k);
        if 9 < digit {
            return None;
        }
        n = n * 10 + digit as u64;
    }
    Some(n)
}

// The number that the p nibbles after the first `front` denote. 64 bits hold 19 digits.
fn magnitude_at(bytes: &[u8], front: usize, p: usize) -> Option<u128>
    requires { (p ≤ 38) × (front + p ≤ 2 * length bytes.now) }
    ensures { result ≡ magnitude_of (take p (drop front (nibbles bytes.now))) }
{
    let middle = front + p.saturating_sub(19);
    let upper = short_magnitude(bytes, front, middle)?;
    let lower = short_magnitude(bytes, middle, front + p)?;
    Some(upper as u128 * 10_000_000_000_000_000_000 + lower as u128)
}

// The number whose packed form, with p digits, the bytes are: whether it is negative, and its magnitude.
pub fn decode_numeric_bcd(bytes: &[u8], p: usize) -> Option<(bool, u128)>
    requires { (p ≤ 38) × ((p + 2) / 2 ≤ length bytes.now) }
    ensures { result ≡ decode_bcd p bytes.now }
{
    let front = (p + 1) % 2;
    let magnitude = magnitude_at(bytes, front, p)?;
    match nibble_at(bytes, front + p) {
        0xC => Some((false, magnitude)),
        0xD => Some((true, magnitude)),
        _ => None,
    }
}
