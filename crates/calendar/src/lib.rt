// A Timestamp as the text of a date and a time.
#![tactic(auto)]

ghost use Rattle.std.specs.Prelude.{◌≡◌, ◌+◌, ◌/◌, ◌%◌, ◌≤◌, ◌<◌, ◌∷◌, length};
ghost use Rattle.std.proofs.lemmas.List.Edits.{sets};
ghost use Rattle.std.specs.Int.{w64};
ghost use Rattle.std.proofs.Common.{to_z};
ghost use Rattle.calendar.specs.Calendar.{month_from, date_of};
ghost use Rattle.calendar.specs.InnerDays.{march_days, FromMarch};
ghost use Rattle.calendar.specs.Moment.{ascii_digits, date_text, time_text, moment_text};
ghost use Rattle.calendar.specs.InnerMoment.{moment_of};

// Microseconds since 0001-01-01 00:00:00, of the 8 bytes of a Timestamp: 2^64 - 62,135,596,800,000,000 stands for the
// first of them.
pub fn moment_of(stored: u64) -> Option<u64>
    ensures { result ≡ moment_of (to_z w64 stored) }
{
    if stored <= 253_402_300_799_999_999 {
        Some(stored + 62_135_596_800_000_000)
    } else {
        stored.checked_sub(18_384_608_476_909_551_616)
    }
}

// In days; the last of four centuries is a day longer than the others.
const FOUR_CENTURIES: u32 = 146_097;

// So is the last of four years, but for those that end a century.
const FOUR_YEARS: u32 = 1461;

// A year, and a day from 0 counted from its first of March: so a leap day is the last. 0001-01-01 is 306 days after a
// first of March. Days are counted fourfold, so that each quotient is exact.
fn year_day(days: u32) -> (u32, u32)
    requires { days < 3652059 }
    ensures { FromMarch days result.0 result.1 }
{
    let quarters = (days + 306) * 4 + 3;
    let rest = quarters % FOUR_CENTURIES / 4 * 4 + 3;
    (
        quarters / FOUR_CENTURIES * 100 + rest / FOUR_YEARS,
        rest % FOUR_YEARS / 4,
    )
}

// A month, January being 13, and a day of it from 0. From March on the months are so even that one product has the
// month in its high half, and the day in its low half.
fn month_day(day: u32) -> (u32, u32)
    requires { day < 366 }
    ensures { result ≡ month_from march_days 3 day }
{
    let n = day * 2141 + 197_913;
    (n / 65536, n % 65536 / 2141)
}

// A year, a month of it and a day of that, each from 1.
#[derive(Clone, Copy)]
pub struct Date {
    pub year: u32,
    pub month: u32,
    pub day: u32,
}

// The date of a day, 0001-01-01 being day 0.
fn date_of(days: u32) -> Date
    requires { days < 3652059 }
    ensures { result ≡ date_of days }
{
    let (year, march_day) = year_day(days);
    let (month, day) = month_day(march_day);
    if march_day < 306 {
        Date {
            year,
            month,
            day: day + 1,
        }
    } else {
        Date {
            year: year + 1,
            month: month - 12,
            day: day + 1,
        }
    }
}

// The two digits of a number below 100, the high one in the low byte: t + 256 (n - 10 t) with t = n / 10, to which
// 103 n / 1024 is near enough.
fn digit_pair(n: u32) -> u16
    requires { n < 100 }
    ensures { (result % 256 ≡ 48 + n / 10) × (result / 256 ≡ 48 + n % 10) }
{
    (n * 256 + 12_336 - n * 103 / 1024 * 2559) as u16
}

fn write_pair(out: &mut [u8], at: usize, n: u32)
    requires { (at + 2 ≤ length out.old) × (n < 100) }
    ensures { out.new ≡ sets out.old at (ascii_digits 2 n) }
{
    let pair = digit_pair(n);
    out[at] = (pair % 256) as u8;
    out[at + 1] = (pair / 256) as u8;
}

// Two digits after a mark.
fn write_marked(out: &mut [u8], at: usize, mark: u8, n: u32)
    requires { (at + 3 ≤ length out.old) × (n < 100) }
    ensures { out.new ≡ sets out.old at (mark ∷ ascii_digits 2 n) }
{
    out[at] = mark;
    write_pair(out, at + 1, n);
}

fn write_date(out: &mut [u8], at: usize, date: Date)
    requires { (at + 10 ≤ length out.old)
        × ((date.year < 10000) × ((date.month < 100) × (date.day < 100))) }
    ensures { out.new ≡ sets out.old at (date_text date.year date.month date.day) }
{
    write_pair(out, at, date.year / 100);
    write_pair(out, at + 2, date.year % 100);
    write_marked(out, at + 4, b'-', date.month);
    write_marked(out, at + 7, b'-', date.day);
}

// A time after a space. The remainders reuse the quotients.
fn write_time(out: &mut [u8], at: usize, seconds: u32)
    requires { (at + 9 ≤ length out.old) × (seconds < 86400) }
    ensures { out.new ≡ sets out.old at (32 ∷ time_text seconds) }
{
    let hours = seconds / 3600;
    let minutes = seconds / 60;
    write_marked(out, at, b' ', hours);
    write_marked(out, at + 3, b':', minutes - hours * 60);
    write_marked(out, at + 6, b':', seconds - minutes * 60);
}

// A date and a time to the second, in 19 bytes.
pub fn write_moment(out: &mut [u8], at: usize, micros: u64)
    requires { (at + 19 ≤ length out.old) × (micros < 315537897600000000) }
    ensures { out.new ≡ sets out.old at (moment_text micros) }
{
    let seconds = micros / 1_000_000;
    let days = seconds / 86_400;
    write_date(out, at, date_of(days as u32));
    write_time(out, at + 10, (seconds - days * 86_400) as u32);
}
