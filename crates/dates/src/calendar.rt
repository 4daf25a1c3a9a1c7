// The calendar of 1997 to 2041, by arithmetic alone. In quarters of a day a year has 1,461 and February 113, seven fewer than thirty days have: counted
// so, a leap day comes by itself. And as though February had thirty days, the days before each month lie on a line, and so does the month of each day.
ghost use Rattle.std.specs.Prelude.{◌≡◌, ◌≤◌, eqb};

// A date, possible or not.
#[derive(Clone, Copy)]
pub struct Date {
    pub year: u64,
    pub month: u64,
    pub day: u64,
}

impl Date {
    ghost use Rattle.dates.specs.Calendar.{on_day, stamp_of};
    ghost use Rattle.dates.specs.Counting.{Counted, day_number};

    // Whether it has a stamp: the calendar has it, and it is from 2 January 1997 to 10 November 2041.
    pub(crate) fn has_stamp(self) -> bool
        ensures { result ≡ eqb (stamp_of self.year self.month self.day).number 0 }
    {
        let Date { year, month, day } = self;
        // `|` and no `||`: both are tested, whatever the first says, by one branch
        if (month < 1) | (12 < month) {
            return false;
        }
        // every month has 28 days, February in every fourth of these years 29; of the others the odd ones up to July have 31, and then the even ones
        if (day < 1) | (28 < day) {
            if month == 2 {
                if (day != 29) | (year % 4 != 0) {
                    return false;
                }
            } else if (day < 1) | (30 + (month + month / 8) % 2 < day) {
                return false;
            }
        }
        // no `match` of the years: it takes 32.8 instructions for each date's stamp, these tests 29.0
        if (1998 <= year) & (year <= 2040) {
            return true;
        }
        // in 1997 from 2 January on, in 2041 up to 10 November
        if year == 1997 {
            return 2 < month + day;
        }
        if year == 2041 {
            return 32 * month + day <= 362;
        }
        false
    }

    // Its day number. The sum is 729,407 for 1 January 1997, day 0.
    pub(crate) fn day_number(self) -> u64
        requires counted { Counted self }
        requires year_bound { self.year ≤ 2041 }
        ensures { result ≡ day_number self }
    {
        // up to February, seven quarters more than from March on
        let more = if self.month < 3 { 7 } else { 0 };
        (1461 * self.year + more) / 4 + (489 * self.month - 480) / 16 + self.day - 729407
    }

    // The date of the day `n`.
    pub(crate) fn on_day(n: u64) -> Date
        requires { n ≤ 16384 }
        ensures { result ≡ on_day n }
    {
        // the day's last quarter, from year 0 on: a day is of the year that its last quarter lies in
        let quarters = 4 * n + 2917620;
        let year = quarters / 1461;
        let past = quarters - 1461 * year;
        // from March on, seven quarters more: February filled up to thirty days
        let filled = if past < 237 { past } else { past + 7 };
        // parts of a month, 2,048 to each, and 67 to a day
        let parts = 67 * (filled / 4) + 2075;
        Date {
            year,
            month: parts / 2048,
            day: parts % 2048 / 67 + 1,
        }
    }
}
