// A text against the n that its column was declared with, which counts bytes or code points. No text has more code
// points than bytes, so one of at most n bytes fits in either case.
#![tactic(auto)]

ghost use Rattle.std.specs.Prelude.{◌≡◌, true};
ghost use Rattle.text_limit.specs.Limit.{fits_text};
ghost use Rattle.text_limit.specs.InnerCheck.{check_within, limited};

// The text check of a text that fits.
pub fn check_within(s: &[u8], by_points: bool, n: usize) -> Option<usize>
    ensures { result ≡ check_within by_points n s.now }
{
    if n >= s.len() {
        text::check(s)
    } else if by_points {
        at_most(text::check(s), n)
    } else {
        None
    }
}

// What the check says of a text, where that is at most n code points.
fn at_most(found: Option<usize>, n: usize) -> Option<usize>
    ensures { result ≡ limited n found }
{
    match found {
        Some(points) if points <= n => Some(points),
        _ => None,
    }
}

// Whether it is a text of at most n code points.
fn points_within(s: &[u8], n: usize) -> bool
    ensures { result ≡ fits_text true n s.now }
{
    matches!(text::check(s), Some(points) if points <= n)
}

// Whether it fits, where the number of its code points is not asked.
pub fn is_within(s: &[u8], by_points: bool, n: usize) -> bool
    ensures { result ≡ fits_text by_points n s.now }
{
    if s.len() <= n {
        text::is_valid(s)
    } else {
        by_points && points_within(s, n)
    }
}
