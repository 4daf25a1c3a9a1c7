// The kinds of ticket: by TYP and revision, and what each has.
ghost use Rattle.std.specs.Prelude.{◌≡◌, ◌-◌, ◌*◌, ◌≤◌, length, take};
ghost use Rattle.rules.specs.Reasons.{said};
ghost use Rattle.fields.specs.Lists.{list_of, bit_after};
ghost use Rattle.fields.specs.Fields.{fields};
ghost use Rattle.fields.specs.Packed.{pack_number, pack_in};
ghost use Rattle.fields.specs.Padded.{held};
ghost use Rattle.ticket.specs.Kind.{row_of, form_in, count_of, least_of, rest_of};
ghost use Rattle.ticket.specs.Memory.{timed_by};

use fields::{Layout, List, MOST_VALUES, Typ22r1, Typ22r2, Typ22r3, Typ23};
use rules::Reason;

// The kinds on the lists: an enum of what it names, which no type of the library stands for.
#[derive(Clone, Copy, PartialEq, Eq, Debug)]
pub enum Kind {
    Typ23,
    Typ22r1,
    Typ22r2,
    Typ22r3,
}

// The kind of the TYP and the format revision; none, as 22 says.
pub fn check_form(typ: u64, revision: u64) -> Option<Kind>
    ensures { result ≡ form_in typ revision }
{
    match (typ, revision) {
        (23, 2) => Some(Kind::Typ23),
        (22, 1) => Some(Kind::Typ22r1),
        (22, 2) => Some(Kind::Typ22r2),
        (22, 3) => Some(Kind::Typ22r3),
        _ => None,
    }
}

// A ticket's values, with zeros after them, and its ExpiryTime, which is one of them.
#[derive(Drop)]
pub struct Fields {
    pub values: [u64; MOST_VALUES],
    pub time: u64,
}

impl Kind {
    // The list of its places.
    pub fn layout(self) -> Layout
        ensures { result ≡ (row_of self).layout }
    {
        match self {
            Kind::Typ23 => Layout::Typ23,
            Kind::Typ22r1 => Layout::Typ22r1,
            Kind::Typ22r2 => Layout::Typ22r2,
            Kind::Typ22r3 => Layout::Typ22r3,
        }
    }

    // Where ExpiryTime stands among the values, from 0.
    fn expiry(self) -> usize
        ensures { result ≡ (row_of self).expiry - 1 }
    {
        match self {
            Kind::Typ23 => 8,
            Kind::Typ22r1 => 6,
            Kind::Typ22r2 => 6,
            Kind::Typ22r3 => 6,
        }
    }

    // How many fields it has.
    pub fn count(self) -> usize
        ensures { result ≡ count_of (row_of self).layout }
    {
        fields::count(self.layout())
    }

    // The least 4 × IPELength.
    pub fn least(self) -> usize
        ensures { result ≡ least_of (row_of self).layout }
    {
        4 * fields::bit_after(self.layout()).div_ceil(32)
    }

    // The first byte after its fields.
    pub fn rest(self) -> usize
        ensures { result ≡ rest_of (row_of self).layout }
    {
        fields::bit_after(self.layout()) / 8
    }

    fn timed(self, values: [u64; MOST_VALUES]) -> Fields
        ensures { result ≡ timed_by (row_of self) values }
    {
        Fields {
            values,
            time: values[self.expiry()],
        }
    }

    // The fields of the ticket of the kind that starts with the slice. Inlined, as what it calls: a second caller would take it out of line, and a read would cost
    // some 150 instructions more.
    #[inline(always)]
    pub fn fields_of(self, s: &[u8]) -> Fields
        requires { bit_after (row_of self).layout ≤ 8 * length s.now }
        ensures { result ≡ timed_by (row_of self) (held (fields s.now (list_of (row_of self).layout))) }
    {
        match self {
            Kind::Typ23 => self.timed(fields::values::<Typ23>(s)),
            Kind::Typ22r1 => self.timed(fields::values::<Typ22r1>(s)),
            Kind::Typ22r2 => self.timed(fields::values::<Typ22r2>(s)),
            Kind::Typ22r3 => self.timed(fields::values::<Typ22r3>(s)),
        }
    }

    // Stores a record's values in the ticket of the kind that starts with the slice; refused, nothing is stored. Inlined for the same reason.
    #[inline(always)]
    pub fn lay(self, s: &mut [u8], values: &[u64; MOST_VALUES]) -> Result<(), Reason>
        requires { bit_after (row_of self).layout ≤ 8 * length s.old }
        ensures value { said result ≡ pack_number (row_of self).layout (take (count_of (row_of self).layout) values.now) }
        ensures s_after { s.new ≡ pack_in (row_of self).layout (take (count_of (row_of self).layout) values.now) s.old }
    {
        match self {
            Kind::Typ23 => fields::lay::<Typ23>(s, values),
            Kind::Typ22r1 => fields::lay::<Typ22r1>(s, values),
            Kind::Typ22r2 => fields::lay::<Typ22r2>(s, values),
            Kind::Typ22r3 => fields::lay::<Typ22r3>(s, values),
        }
    }
}
