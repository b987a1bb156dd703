// The whole calendar, for a comparison with one that is not ours (tests/calendar). After each hundredth year a line: the year, how many
// dates there were so far, and a checksum over all that the calendar answered so far, of the years 0 to 10000.
#![tactic(auto)]

ghost use Rattle.std.specs.Prelude.{◌≤◌, ◌≡◌, ◌&&◌};
ghost use Rattle.text.specs.Bytes.{within};
ghost use Rattle.calendar.specs.Calendar.{Date, days_in, year_held, exists};
ghost use Rattle.calendar.specs.Order.{earlier};

use calendar::dates::{date_of_day, date_rank, day_of_date};

// Whether a day of a year has a date whose day it is: so do all the days of the year.
fn goes_round(year: u64, day: u64) -> bool
    ensures { result ≡ (year_held year && within 1 (days_in year) day) }
{
    let Some(d) = date_of_day(year, day) else {
        return false;
    };
    match day_of_date(d.year, d.month, d.day) {
        Some(n) => n == day,
        None => false,
    }
}

// Whether both are dates and the first is the earlier, by their ranks.
fn is_earlier(y1: u64, m1: u64, d1: u64, y2: u64, m2: u64, d2: u64) -> bool
    ensures { result ≡ (exists (record { year = y1; month = m1; day = d1 }) && (exists (record { year = y2; month = m2; day = d2 }) && earlier (record { year = y1; month = m1; day = d1 }) (record { year = y2; month = m2; day = d2 }))) }
{
    let first = date_rank(y1, m1, d1);
    let second = date_rank(y2, m2, d2);
    match first {
        Some(r) => match second {
            Some(s) => r < s,
            None => false,
        },
        None => false,
    }
}

// A checksum with one more number in it.
fn added(sum: u64, n: u64) -> u64 {
    (sum % 2147483647 * 31 + n % 2147483647) % 2147483647
}

// A checksum with a day of a year in it: the month and the day of the month, or 0 twice.
fn with_day(sum: u64, year: u64, day: u64) -> u64 {
    let found = date_of_day(year, day);
    match found {
        Some(d) => added(added(sum, d.month), d.day),
        None => added(added(sum, 0), 0),
    }
}

// A checksum with a date in it: its day of the year, or 0; and whether it is earlier than the first of July of the year 5000.
fn with_date(sum: u64, year: u64, month: u64, day: u64) -> u64 {
    let early = is_earlier(year, month, day, 5000, 7, 1) as u64;
    let found = day_of_date(year, month, day);
    match found {
        Some(n) => added(added(sum, n), early),
        None => added(added(sum, 0), early),
    }
}

// A checksum with the days 0 to 367 of a year in it.
fn with_days(sum: u64, year: u64) -> u64 {
    let mut s = sum;
    for day in 0..368 {
        s = with_day(s, year, day);
    }
    s
}

// A checksum with the days 0 to 32 of a month in it.
fn with_month(sum: u64, year: u64, month: u64) -> u64 {
    let mut s = sum;
    for day in 0..33 {
        s = with_date(s, year, month, day);
    }
    s
}

// A checksum with the months 0 to 13 of a year in it.
fn with_months(sum: u64, year: u64) -> u64 {
    let mut s = sum;
    for month in 0..14 {
        s = with_month(s, year, month);
    }
    s
}

// How many of the days 0 to 367 of a year have a date, and are its day.
fn count_days(year: u64) -> u64
    ensures { result ≤ 368 }
{
    let mut n = 0;
    for day in 0..368 {
        if goes_round(year, day) {
            n += 1;
        }
    }
    n
}

// A line that can't be written is lost: what is printed is held to what is expected.
fn print_line<R: Print>(rt: &R, year: u64, dates: u64, sum: u64) {
    let _ = println!(rt; "{year} {dates} {sum}");
}

fn main(rt: HostRuntime) {
    let mut dates: u64 = 0;
    let mut sum: u64 = 0;
    for year in 0..=10000 {
        dates += count_days(year);
        sum = with_months(with_days(sum, year), year);
        if year % 100 == 0 {
            print_line(&rt, year, dates, sum);
        }
    }
}
