// A ticket: its kind, its record, and both as bytes. What a kind has is looked up by its list (crate `fields`) and in `kinds`, and nowhere else.
// Of a refused result C is told zeros, by name in the definitions (`no_bytes`, `no_record`): so they stand in full, and no `Default` is derived.
#![tactic(auto)]

ghost use Rattle.std.specs.Prelude.{◌≡◌, ◌^◌, ◌≤◌, ◌<◌, take};
ghost use Rattle.rules.specs.First.{holds};
ghost use Rattle.rules.specs.Reasons.{said};
ghost use Rattle.fields.specs.Padded.{most, held};
ghost use Rattle.ticket.specs.Kind.{row_of, field_rule, end_minutes};
ghost use Rattle.ticket.specs.Checks.{extent_in, slot_in};
ghost use Rattle.ticket.specs.Ticket.{changed, set_of, value_of};
ghost use Rattle.ticket.specs.Memory.{own, held_changed};
ghost use Rattle.ticket.specs.Coded.{valued, encoding, decoding, coded_header};

use fields::{MOST_BYTES, MOST_VALUES, Span};
use rules::{Reason, said};

mod bytes;
mod kinds;

pub use bytes::{decode, decode_header, encode, encode_header};
pub use kinds::{Fields, Kind, check_form};

// A record names its kind and revision. After the values of that kind's list it has zeros in every answer, and whatever stands there is not looked at.
#[repr(C)]
#[derive(Drop)]
pub struct Record {
    pub typ: u64,
    pub revision: u64,
    pub values: [u64; MOST_VALUES],
}

// A record as bytes: so many bytes of the ticket, from byte 2 to the end of its fields, and zeros after them. The library has no heap, so the count stands
// beside the longest list.
#[derive(Drop)]
pub struct Encoding {
    pub count: usize,
    pub bytes: [u8; MOST_BYTES],
}

// IPELength, IPEBitMap, IPEFormatRevision.
#[repr(C)]
#[derive(Drop)]
pub struct Header {
    pub values: [u64; 3],
}

// Where each of them stands. Numbers and no enum: each is an index of the list of places.
pub const IPE_LENGTH: usize = 0;

pub const IPE_BIT_MAP: usize = 1;

pub const IPE_FORMAT_REVISION: usize = 2;

// What C is told of a step on a record: the refusal or 0, and the record after it.
#[repr(C)]
#[derive(Drop)]
pub struct Changed {
    pub number: usize,
    pub entry: usize,
    pub next: Record,
}

impl Changed {
    // No `From`: it is made of two values, the result and the record.
    pub fn new(done: Result<(), Reason>, next: Record) -> Changed
        ensures { result ≡ changed (said done) next }
    {
        Changed {
            number: said(&done),
            entry: 0,
            next,
        }
    }
}

// What C is told of a record's field: its value, or 0.
#[repr(C)]
#[derive(Drop)]
pub struct Value {
    pub number: usize,
    pub entry: usize,
    pub value: u64,
}

impl From<Result<u64, Reason>> for Value {
    ghost from_gives = { λ r v. v ≡ valued r };

    fn from(found: Result<u64, Reason>) -> Value {
        let number = said(&found);
        let value = found.unwrap_or(0);
        Value {
            number,
            entry: 0,
            value,
        }
    }
}

// What C is told of an encoded record: its bytes, or none.
#[repr(C)]
#[derive(Drop)]
pub struct Encoded {
    pub number: usize,
    pub entry: usize,
    pub count: usize,
    pub bytes: [u8; MOST_BYTES],
}

impl From<Result<Encoding, Reason>> for Encoded {
    ghost from_gives = { λ r e. e ≡ encoding r };

    fn from(done: Result<Encoding, Reason>) -> Encoded {
        let number = said(&done);
        let Encoding { count, bytes } = done.unwrap_or(Encoding {
            count: 0,
            bytes: [0; MOST_BYTES],
        });
        Encoded {
            number,
            entry: 0,
            count,
            bytes,
        }
    }
}

// What C is told of a decoded record: it, or zeros.
#[repr(C)]
#[derive(Drop)]
pub struct Decoded {
    pub number: usize,
    pub entry: usize,
    pub next: Record,
}

impl From<Result<Record, Reason>> for Decoded {
    ghost from_gives = { λ r d. d ≡ decoding r };

    fn from(done: Result<Record, Reason>) -> Decoded {
        let number = said(&done);
        let next = done.unwrap_or(Record {
            typ: 0,
            revision: 0,
            values: [0; MOST_VALUES],
        });
        Decoded {
            number,
            entry: 0,
            next,
        }
    }
}

// What C is told of an encoded header: its two bytes, or zeros.
#[repr(C)]
#[derive(Drop)]
pub struct HeaderBytes {
    pub number: usize,
    pub entry: usize,
    pub bytes: [u8; 2],
}

impl From<Result<[u8; 2], Reason>> for HeaderBytes {
    ghost from_gives = { λ r h. h ≡ coded_header r };

    fn from(done: Result<[u8; 2], Reason>) -> HeaderBytes {
        let number = said(&done);
        let bytes = done.unwrap_or([0; 2]);
        HeaderBytes {
            number,
            entry: 0,
            bytes,
        }
    }
}

// Where the dataset of a product of `size` bytes ends whose header says `blocks`; none, as 23 says.
pub fn check_extent(k: Kind, blocks: usize, size: usize) -> Option<usize>
    requires { blocks < 65536 }
    ensures { result ≡ extent_in (row_of k).layout blocks size }
{
    let end = 4 * blocks;
    // `&` and no `&&`, here and in `is_field`: both are plain comparisons, and no branch stands between them
    if (k.least() <= end) & (end <= size) {
        Some(end)
    } else {
        None
    }
}

// 25: whether the number is that of a field. Here and where a field is named below, it is a `usize` that may be anything: 25 is promised for those that mean nothing.
fn is_field(k: Kind, n: usize) -> bool
    ensures { result ≡ holds (field_rule (row_of k).layout n).claim }
{
    (1 <= n) & (n <= k.count())
}

// 25, then 26, of a field's number and a value for it; else the place that takes the value.
pub fn check_field(k: Kind, field: usize, value: u64) -> Result<Span, Reason>
    ensures { result ≡ slot_in (row_of k).layout field value }
{
    if !is_field(k, field) {
        return Err(Reason::NoField);
    }
    let p = fields::place(k.layout(), field - 1);
    if fields::largest(p) < value {
        return Err(Reason::TooLarge);
    }
    Ok(p)
}

// Zeros after the first n values.
fn trim(values: &mut [u64; MOST_VALUES], n: usize)
    requires { n ≤ most }
    ensures { values.new ≡ held (take n values.old) }
{
    values[n..].fill(0);
}

impl Record {
    // The record with the field's value; or 25 or 26, and the record as it was; or 22, for a record of no listed kind, which has no values.
    pub fn set(self, field: usize, value: u64) -> (Result<(), Reason>, Record)
        ensures { changed (said result.0) result.1 ≡ held_changed (set_of (own self) field value) }
    {
        let mut next = self;
        let done = next.put(field, value);
        (done, next)
    }

    // The same, in its place. After the values of its kind it has zeros then.
    fn put(&mut self, field: usize, value: u64) -> Result<(), Reason>
        ensures { changed (said result) self.new ≡ held_changed (set_of (own self.old) field value) }
    {
        let Some(kind) = check_form(self.typ, self.revision) else {
            self.values = [0; MOST_VALUES];
            return Err(Reason::OtherKind);
        };
        trim(&mut self.values, kind.count());
        check_field(kind, field, value)?;
        self.values[field - 1] = value;
        Ok(())
    }

    // The field's value; or 22 or 25.
    pub fn get(&self, field: usize) -> Result<u64, Reason>
        ensures { valued result ≡ value_of (own self.now) field }
    {
        let kind = check_form(self.typ, self.revision).ok_or(Reason::OtherKind)?;
        if is_field(kind, field) {
            Ok(self.values[field - 1])
        } else {
            Err(Reason::NoField)
        }
    }
}

// The end of a ticket in minutes: the day of its entry's EXP, and its ExpiryTime.
pub fn end(exp: u64, time: u64) -> u64
    requires { (exp < 2 ^ 32) × (time < 2 ^ 32) }
    ensures { result ≡ end_minutes exp time }
{
    dates::day(exp) * 1440 + time
}
