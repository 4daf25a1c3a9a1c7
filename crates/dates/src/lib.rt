// Date stamps and calendar dates, both ways (document 01, "Dates"). Of a refused result C is told zeros, by name in the definitions
// (`coded_date`, `coded_stamp`): so they stand in full, and no `Default` is derived.
#![tactic(auto)]

ghost use Rattle.std.specs.Prelude.{◌≡◌};
ghost use Rattle.dates.specs.Calendar.{day_of, date_of, stamp_of};
ghost use Rattle.dates.specs.Coded.{coded_date, coded_stamp};

mod calendar;

pub use calendar::Date;
use rules::{Reason, said};

// What C is told of a stamp's date: it, or zeros.
#[repr(C)]
#[derive(Drop)]
pub struct Dated {
    pub number: usize,
    pub entry: usize,
    pub year: u64,
    pub month: u64,
    pub day: u64,
}

impl From<Result<Date, Reason>> for Dated {
    ghost from_gives = { λ r d. d ≡ coded_date r };

    fn from(found: Result<Date, Reason>) -> Dated {
        let number = said(&found);
        let Date { year, month, day } = found.unwrap_or(Date {
            year: 0,
            month: 0,
            day: 0,
        });
        Dated {
            number,
            entry: 0,
            year,
            month,
            day,
        }
    }
}

// What C is told of a date's stamp: it, or 0.
#[repr(C)]
#[derive(Drop)]
pub struct Stamped {
    pub number: usize,
    pub entry: usize,
    pub stamp: u64,
}

impl From<Result<u64, Reason>> for Stamped {
    ghost from_gives = { λ r s. s ≡ coded_stamp r };

    fn from(found: Result<u64, Reason>) -> Stamped {
        let number = said(&found);
        let stamp = found.unwrap_or(0);
        Stamped {
            number,
            entry: 0,
            stamp,
        }
    }
}

// The day number of a stamp, counted from 1 January 1997.
pub fn day(stamp: u64) -> u64
    ensures { result ≡ day_of stamp }
{
    if stamp == 0 { 16384 } else { stamp }
}

// The calendar date of a stamp; or 30.
#[tactic(auto, using(crate::proofs::Stamps::refused, crate::proofs::Stamps::taken, crate::proofs::Stamps::day_fits))]
pub fn date(stamp: u64) -> Result<Date, Reason>
    ensures { coded_date result ≡ date_of stamp }
{
    if 16383 < stamp {
        return Err(Reason::NoStamp);
    }
    Ok(Date::on_day(day(stamp)))
}

// The stamp of a calendar date; or 29. A published call: it takes the three numbers by which document 01 gives a date.
pub fn stamp(year: u64, month: u64, day: u64) -> Result<u64, Reason>
    ensures { coded_stamp result ≡ stamp_of year month day }
{
    let date = Date { year, month, day };
    if date.has_stamp() {
        Ok(date.day_number() % 16384)
    } else {
        Err(Reason::NoDate)
    }
}
