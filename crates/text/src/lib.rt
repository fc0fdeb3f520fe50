// Whether bytes are UTF-8 text, as RFC 3629 defines it, and of how many code points.
//
// The check goes through the forms of a character in the order of the RFC's grammar, UTF8-1 to UTF8-4, takes as many
// characters of each as stand there, and begins anew. utf8_1 to utf8_4 are the lines of the grammar, past_ones and
// chars take the characters. What is done for many bytes at once is all of UTF8-1, which is ASCII.
#![tactic(auto)]

ghost use Rattle.std.specs.Prelude.{◌≡◌, true, [], ◌∷◌, ◌↔◌, ◌+◌, ◌*◌, ◌<◌, ◌≤◌, leb, length, get_or};
ghost use Rattle.text.specs.Rfc3629.{◌to◌, within, utf8_tail, utf8_1, utf8_2, utf8_3, utf8_4, code_points, is_text};
ghost use Rattle.text.specs.Characters.{is_one, utf8};
ghost use Rattle.text.specs.Check.{check_of, points};
ghost use Rattle.text.specs.InnerEach.{Each};
ghost use Rattle.text.specs.InnerRuns.{is_ascii, Ascii, AsciiUpTo, Run};
ghost use Rattle.text.specs.InnerTails.{tails_of};

// Whether the bytes are valid text.
pub fn is_valid(s: &[u8]) -> bool
    ensures { result ≡ is_text s.now }
{
    check(s).is_some()
}

// The number of code points of a valid text; none for other bytes. A text of ASCII alone is told first.
pub fn check(s: &[u8]) -> Option<usize>
    ensures { result ≡ check_of (code_points s.now) }
{
    let lead = ascii_lead(s);
    if lead == s.len() {
        return Some(lead);
    }
    check_from(s, lead)
}

// The answer for a text whose bytes before first are ASCII.
// UTF8-octets = *( UTF8-char )
// UTF8-char   = UTF8-1 / UTF8-2 / UTF8-3 / UTF8-4
fn check_from(s: &[u8], first: usize) -> Option<usize>
    requires { Ascii s.now 0 first }
    ensures { result ≡ check_of (code_points s.now) }
{
    let mut i = first;
    let mut count = first;
    // Stays: a turn goes on by what it took, which no range or iterator knows.
    while i < s.len() {
        let one = past_ones(s, i);
        let twos = chars::<2>(s, one);
        let two = one + 2 * twos;
        let mut end = two;
        count += (one - i) + twos;
        if is_high(s, two) {
            let threes = chars::<3>(s, two);
            let three = two + 3 * threes;
            let fours = chars::<4>(s, three);
            end = three + 4 * fours;
            count += threes + fours;
        }
        if end == i {
            return None;
        }
        i = end;
    }
    Some(count)
}

// Whether the bytes are one character, of the form that has as many.
fn is_char(c: &[u8]) -> bool
    ensures { result ≡ is_one (utf8 (length c.now)) c.now }
{
    match *c {
        [a] => utf8_1(a),
        [a, b] => utf8_2(a, b),
        [a, b, c] => utf8_3(a, b, c),
        [a, b, c, d] => utf8_4(a, b, c, d),
        _ => false,
    }
}

// UTF8-1 = %x00-7F
fn utf8_1(a: u8) -> bool
    ensures { result ≡ is_one utf8_1 (a ∷ []) }
{
    a.is_ascii()
}

// UTF8-2 = %xC2-DF UTF8-tail
fn utf8_2(a: u8, b: u8) -> bool
    ensures { result ≡ is_one utf8_2 (a ∷ b ∷ []) }
{
    matches!((a, b), (0xC2..=0xDF, 0x80..=0xBF))
}

// UTF8-3 = %xE0 %xA0-BF UTF8-tail / %xE1-EC 2( UTF8-tail ) /
//          %xED %x80-9F UTF8-tail / %xEE-EF 2( UTF8-tail )
// Stays: as patterns of a match, 0xE0 and 0xED are asked before the ranges, which takes 10 to 18 percent longer.
fn utf8_3(a: u8, b: u8, c: u8) -> bool
    ensures { result ≡ is_one utf8_3 (a ∷ b ∷ c ∷ []) }
{
    if within(0xE0, 0xE0, a) {
        within(0xA0, 0xBF, b) && is_tail(c)
    } else if within(0xE1, 0xEC, a) {
        is_tail(b) && is_tail(c)
    } else if within(0xED, 0xED, a) {
        within(0x80, 0x9F, b) && is_tail(c)
    } else {
        within(0xEE, 0xEF, a) && is_tail(b) && is_tail(c)
    }
}

// UTF8-4 = %xF0 %x90-BF 2( UTF8-tail ) / %xF1-F3 3( UTF8-tail ) /
//          %xF4 %x80-8F 2( UTF8-tail )
// Stays: as patterns of a match, 0xF4 is asked before 0xF0, which takes up to 30 percent longer.
fn utf8_4(a: u8, b: u8, c: u8, d: u8) -> bool
    ensures { result ≡ is_one utf8_4 (a ∷ b ∷ c ∷ d ∷ []) }
{
    if within(0xF0, 0xF0, a) {
        within(0x90, 0xBF, b) && is_tail(c) && is_tail(d)
    } else if within(0xF1, 0xF3, a) {
        is_tail(b) && is_tail(c) && is_tail(d)
    } else {
        within(0xF4, 0xF4, a) && within(0x80, 0x8F, b) && is_tail(c) && is_tail(d)
    }
}

// UTF8-tail = %x80-BF
fn is_tail(b: u8) -> bool
    ensures { result ≡ within utf8_tail b }
{
    matches!(b, 0x80..=0xBF)
}

// %xLO-HI: whether b is a byte from lo to hi.
fn within(lo: u8, hi: u8, b: u8) -> bool
    ensures { result ≡ within (lo to hi) b }
{
    (lo..=hi).contains(&b)
}

// The end of the characters UTF8-1 that stand from first on. Most runs are short, so the first 8 bytes are asked one by
// one, and blocks come after them.
fn past_ones(s: &[u8], first: usize) -> usize
    requires { first ≤ length s.now }
    ensures { Run 1 s.now first result }
{
    let n = s.len();
    if n - first < 8 {
        return ascii_bytes(s, first, n);
    }
    let near = ascii_bytes(s, first, first + 8);
    if near < first + 8 {
        return near;
    }
    let far = ascii_blocks(s, ascii_blocks(s, near, 64), 8);
    ascii_bytes(s, far, n)
}

// How many characters UTF8-N stand from first on.
fn chars<const N: usize>(s: &[u8], first: usize) -> usize
    requires inside { first ≤ length s.now }
    requires form { (0 < N) × (N ≤ 4) }
    ensures { Run N s.now first (first + N * result) }
{
    let (chunks, _) = s[first..].as_chunks::<N>();
    for (n, c) in chunks.iter().enumerate() {
        if !is_char(c) {
            return n;
        }
    }
    chunks.len()
}

// Whether there is a byte at i that is 0xE0 or above, as those are that UTF8-3 and UTF8-4 begin with. Most are not, and
// both forms are passed over at once.
fn is_high(s: &[u8], i: usize) -> bool
    ensures { result ≡ leb 0xE0 (get_or s.now i 0) }
{
    i < s.len() && 0xE0 <= s[i]
}

// A number of first bytes that are ASCII: all of them in a text of ASCII alone that has 4 bytes or more. A text that
// begins with another byte is not looked at further.
fn ascii_lead(s: &[u8]) -> usize
    ensures { Ascii s.now 0 result }
{
    let n = s.len();
    if n < 4 || !utf8_1(s[0]) {
        0
    } else if n < 8 {
        block_lead(s, 4)
    } else if n < 16 {
        block_lead(s, 8)
    } else if n < 128 {
        block_lead(s, 16)
    } else {
        block_lead(s, 128)
    }
}

// The same, by blocks of m. The last block ends where the text does, and may overlap the one before it.
fn block_lead(s: &[u8], m: usize) -> usize
    requires { (0 < m) × (m ≤ length s.now) }
    ensures { Ascii s.now 0 result }
{
    let n = s.len();
    let i = ascii_blocks(s, 0, m);
    if n - i <= m && ascii(s, n - m, m) {
        n
    } else {
        i
    }
}

// The end of the blocks of m bytes that are ASCII, from first on, where more than m bytes are left.
fn ascii_blocks(s: &[u8], first: usize, m: usize) -> usize
    requires { (0 < m) × (first ≤ length s.now) }
    ensures { Ascii s.now first result }
{
    let n = s.len();
    let mut i = first;
    // Stays: chunks_exact gives the last block too, and a for over it loses the place where it stops.
    while m < n - i {
        if !ascii(s, i, m) {
            return i;
        }
        i += m;
    }
    i
}

// Whether the n bytes from first on are ASCII.
fn ascii(s: &[u8], first: usize, n: usize) -> bool
    requires { first + n ≤ length s.now }
    ensures { (result ≡ true) ↔ Each (is_ascii s.now) first (first + n) }
{
    let mut ok = true;
    for b in &s[first..first + n] {
        ok &= utf8_1(*b);
    }
    ok
}

// The end of the bytes that are ASCII, from first on and below end.
fn ascii_bytes(s: &[u8], first: usize, end: usize) -> usize
    requires { (first ≤ end) × (end ≤ length s.now) }
    ensures { AsciiUpTo s.now first end result }
{
    for i in first..end {
        if !utf8_1(s[i]) {
            return i;
        }
    }
    end
}

// The number of code points of a text: as many as bytes that are no tails. A text of fewer than 8 bytes has a loop of
// its own, without vectors.
pub fn count_points(s: &[u8]) -> usize
    requires { is_text s.now ≡ true }
    ensures { result ≡ points s.now }
{
    let n = s.len();
    if n < 8 {
        return n - tails(s, 0, n);
    }
    let mut i = 0;
    let mut count = 0;
    // Stays: as_chunks divides by 112 to find the rest, which takes 10 to 30 percent longer for 8 to 100 bytes.
    while 112 <= n - i {
        count += tails(s, i, 112);
        i += 112;
    }
    n - (count + tails(s, i, n - i))
}

// The number of tails among the n bytes from first on. It is summed up in a byte, as vector instructions do.
fn tails(s: &[u8], first: usize, n: usize) -> usize
    requires { (first + n ≤ length s.now) × (n ≤ 255) }
    ensures { result ≡ tails_of s.now first n }
{
    let mut count = 0u8;
    for b in &s[first..first + n] {
        count += is_tail(*b) as u8;
    }
    count as usize
}
