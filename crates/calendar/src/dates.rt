// Dates of the years 1 to 9999, and the days of a year, counted from 1.
ghost use Rattle.std.specs.Prelude.{◌≡◌, take};
ghost use Rattle.text.specs.CodeEnds.{amount_of};
ghost use Rattle.calendar.specs.Calendar.{leap, days_in, year_held, months, total, day_of_date, date_of_day, date_rank, date_of_rank};
ghost use Rattle.calendar.specs.Found.{found_date};

// The days before each month, in a common year and in a leap year.
const DAYS_BEFORE: [[u16; 12]; 2] = [
    [0, 31, 59, 90, 120, 151, 181, 212, 243, 273, 304, 334],
    [0, 31, 60, 91, 121, 152, 182, 213, 244, 274, 305, 335],
];

#[derive(Clone, Copy)]
pub struct Date {
    pub year: u64,
    pub month: u64,
    pub day: u64,
}

// Whether a year is a Gregorian leap year.
pub fn is_leap(year: u64) -> bool
    ensures { result ≡ leap year }
{
    if year % 4 != 0 {
        return false;
    }
    if year % 100 != 0 {
        return true;
    }
    year % 400 == 0
}

// The number of days in a leap year or in a common one.
fn year_days(leap_year: bool) -> u64
    ensures { result ≡ total (months leap_year) }
{
    if leap_year {
        return 366;
    }
    365
}

// The number of days in a year.
pub fn days_in(year: u64) -> u64
    ensures { result ≡ days_in year }
{
    year_days(is_leap(year))
}

// Whether a year is one of those that have dates.
fn year_held(year: u64) -> bool
    ensures { result ≡ year_held year }
{
    if year < 1 {
        return false;
    }
    year <= 9999
}

// The same number, with more bits.
fn wide(x: u16) -> u64
    ensures { result ≡ x }
{
    x as u64
}

// The days of the first months of a year together; from twelve on, of the year.
fn first_days(leap_year: bool, count: u64) -> u64
    ensures { result ≡ total (take count (months leap_year)) }
{
    if count < 12 {
        let row = leap_year as usize;
        let column = count as usize;
        return wide(DAYS_BEFORE[row][column]);
    }
    year_days(leap_year)
}

// The day number of a date in its year.
pub fn day_of_date(year: u64, month: u64, day: u64) -> Option<u64>
    ensures { result ≡ amount_of (day_of_date (record { year = year; month = month; day = day })) }
{
    if !year_held(year) {
        return None;
    }
    if month < 1 {
        return None;
    }
    if month > 12 {
        return None;
    }
    if day < 1 {
        return None;
    }
    let leap_year = is_leap(year);
    let before = first_days(leap_year, month - 1);
    let after = first_days(leap_year, month);
    if day > after - before {
        return None;
    }
    Some(before + day)
}

// The date of a day number in a year.
pub fn date_of_day(year: u64, day: u64) -> Option<Date>
    ensures { result ≡ found_date (date_of_day year day) }
{
    if !year_held(year) {
        return None;
    }
    if day < 1 {
        return None;
    }
    let leap_year = is_leap(year);
    if day > year_days(leap_year) {
        return None;
    }
    let mut month = 1;
    while first_days(leap_year, month) < day {
        month += 1;
    }
    Some(Date {
        year,
        month,
        day: day - first_days(leap_year, month - 1),
    })
}

// The rank of a date: dates stand in the order of their ranks.
pub fn date_rank(year: u64, month: u64, day: u64) -> Option<u64>
    ensures { result ≡ amount_of (date_rank (record { year = year; month = month; day = day })) }
{
    let n = day_of_date(year, month, day)?;
    Some(year * 367 + n)
}

// The date of a rank.
pub fn date_of_rank(rank: u64) -> Option<Date>
    ensures { result ≡ found_date (date_of_rank rank) }
{
    date_of_day(rank / 367, rank % 367)
}
