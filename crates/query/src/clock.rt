// The host's clock, and its range.
ghost use Rattle.std.specs.Prelude.{◌≡◌};
ghost use Rattle.query.specs.HostClock.{clock_of};
ghost use Rattle.query.specs.Authority.{in_range};

use calendar::dates::days_in;

// The host's clock. The day is counted from 1, the first of January.
#[derive(Clone, Copy)]
pub struct Clock {
    pub year: u64,
    pub day: u64,
    pub hour: u64,
}

// Whether the clock is in range: year 1 to 9999, day 1 to 365 or 366, hour 0 to 23.
pub fn in_range(c: Clock) -> bool
    ensures { result ≡ in_range (clock_of c) }
{
    let year = c.year;
    let day = c.day;
    let hour = c.hour;
    if year < 1 {
        return false;
    }
    if year > 9999 {
        return false;
    }
    if day < 1 {
        return false;
    }
    if day > days_in(year) {
        return false;
    }
    hour <= 23
}
