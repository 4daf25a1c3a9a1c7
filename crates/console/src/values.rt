// Commands on dates and on a record of values.
ghost use Rattle.std.specs.Prelude.{◌≤◌, ◌≡◌, unwrap_or};
ghost use Rattle.text.specs.Words.{none};
ghost use Rattle.fields.specs.Padded.{most};
ghost use Rattle.console.specs.Commands.{values_of, suits, are_bytes};

use crate::answers::valued;
use crate::commands::{Numbers, Reckon};
use card::{Changed, Record, Refusal};
use fields::{MOST_BYTES, MOST_VALUES};
use text::prints;

pub(crate) fn reckon(rt: &impl Print, asked: Reckon, numbers: &Numbers) {
    match asked {
        Reckon::Date(n) => {
            let found = card::date(n).map(|d| [d.year, d.month, d.day]);
            valued(rt, found.map_err(Refusal::from));
        }
        Reckon::Stamp(year, month, day) => {
            let found = card::stamp(year, month, day).map(|n| [n]);
            valued(rt, found.map_err(Refusal::from));
        }
        Reckon::Set(typ, revision, field) => {
            let (done, next) = numbers.record(typ, revision, 4).set(field, numbers.list[3]);
            // By C's struct: what is printed is what C is told, the record after the step, on a refusal too.
            let r = Changed::new(done, next);
            told(rt, r.number, r.entry, r.next);
        }
        Reckon::Value(typ, revision, field) => {
            let found = numbers.record(typ, revision, 3).get(field).map(|n| [n]);
            valued(rt, found.map_err(Refusal::from));
        }
    }
}

// A record that a call answered: its values, which a kind that is not listed has none of.
pub(crate) fn told(rt: &impl Print, number: usize, entry: usize, t: Record) {
    let n = count(t.typ, t.revision);
    prints::valued(rt, number, entry, &t.values[..n]);
}

// How many values a record of this TYP and revision has; none where they are not listed.
pub(crate) fn count(typ: u64, revision: u64) -> usize
    ensures { (result ≡ values_of typ revision) × (result ≤ most) }
{
    let Some(kind) = ticket::check_form(typ, revision) else {
        return 0;
    };
    kind.count()
}

// Whether so many numbers, if they are numbers, are `before` others and a record's values: as many as it has, and any up to the most where its TYP and revision are not listed.
pub(crate) fn suit(typ: u64, revision: u64, before: usize, all: Option<usize>) -> bool
    requires { before ≤ 4 }
    ensures { result ≡ suits typ revision before (unwrap_or all none) }
{
    let Some(all) = all else {
        return false;
    };
    let Some(kind) = ticket::check_form(typ, revision) else {
        return (before <= all) & (all <= before + MOST_VALUES);
    };
    all == before + kind.count()
}

// Whether so many bytes are a record's: as many as it has, and any up to the most where its TYP and revision are not listed.
pub(crate) fn are_bytes(typ: u64, revision: u64, all: usize) -> bool
    ensures { result ≡ are_bytes typ revision all }
{
    let Some(kind) = ticket::check_form(typ, revision) else {
        return all <= MOST_BYTES;
    };
    all == kind.rest() - 2
}
