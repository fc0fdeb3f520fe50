// value.rs, DATE, TIME and TIMESTAMP: which counts are values.
#![tactic(auto)]

ghost use Rattle.std.specs.Prelude.{◌≡◌, ◌^◌};
ghost use Rattle.temporal.specs.Ranges.{is_date, is_time, is_timestamp};
ghost use Rattle.temporal.specs.Time.{mod_z, time_of};

// Days from 1970-01-01.
const FIRST_DAY: i32 = -719_162;

const LAST_DAY: i32 = 2_932_896;

// The years 1 to 9999.
pub fn is_date(days: i32) -> bool
    ensures { result ≡ is_date days }
{
    FIRST_DAY <= days && days <= LAST_DAY
}

// Microseconds since midnight.
const LAST_TIME: i64 = 86_399_999_999;

pub fn is_time(micros: i64) -> bool
    ensures { result ≡ is_time micros }
{
    0 <= micros && micros <= LAST_TIME
}

// Microseconds from 1970-01-01.
const FIRST_MOMENT: i64 = -62_135_596_800_000_000;

const LAST_MOMENT: i64 = 253_402_300_799_999_999;

// The years 1 to 9999.
pub fn is_timestamp(micros: i64) -> bool
    ensures { result ≡ is_timestamp micros }
{
    FIRST_MOMENT <= micros && micros <= LAST_MOMENT
}

fn low_32(q: i64) -> u32
    ensures { result ≡ mod_z q (2 ^ 32) }
{
    (q.cast_unsigned() % 0x1_0000_0000) as u32
}

// What a stored Time reads as. The count is split as the Rust does it: the seconds keep their low 32 bits.
pub fn time_of(micros: i64) -> Option<i64>
    ensures { result ≡ time_of micros }
{
    let rest = micros % 1_000_000;
    if rest < 0 {
        return None;
    }
    let seconds = low_32(micros / 1_000_000);
    if seconds >= 86_400 {
        return None;
    }
    let count = u64::from(seconds) * 1_000_000 + rest as u64;
    Some(count as i64)
}
