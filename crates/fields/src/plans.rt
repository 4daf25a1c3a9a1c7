// The lists of the kinds of ticket. A ticket is read and stored part by part, each part of whole bytes, by one routine for all lists, which is made anew for each.
ghost use Rattle.std.specs.Prelude.{◌≡◌, ◌+◌, ◌-◌, ◌*◌, ◌/◌, ◌%◌, ◌^◌, ◌≤◌, ◌<◌, length};
ghost use Rattle.rules.specs.Claim.{Means};
ghost use Rattle.rules.specs.First.{holds};
ghost use Rattle.rules.specs.Reasons.{said};
ghost use Rattle.fields.specs.Lists.{list_of, bit_after};
ghost use Rattle.fields.specs.Fields.{fields, fit};
ghost use Rattle.fields.specs.Packed.{pack_number, pack_in};
ghost use Rattle.fields.specs.Padded.{held};
ghost use Rattle.fields.specs.Together.{wide, together};
ghost use Rattle.fields.specs.Plans.{Plans, values_of};
ghost use Rattle.fields.specs.declared.Layout.{Layout};
ghost use Rattle.fields.specs.declared.Layout.TheVariants as layout;

use crate::{Span, each_fits};
use rules::Reason;

// The values of the longest list, and the bytes that its fields take.
pub const MOST_VALUES: usize = 25;

pub const MOST_BYTES: usize = 27;

// A part of a list: so many values, in so many bytes.
#[derive(Clone, Copy)]
pub struct Part(pub usize, pub usize);

// The places of a list, and the parts that are all of them.
#[derive(Clone, Copy)]
pub struct Plan {
    pub places: &'static [Span],
    pub parts: &'static [Part],
}

// A list of a kind of ticket. The routines below are made anew for each list, so that nothing of it is left to look up when they run.
pub trait List {
    ghost layout: { Layout };

    fn plan() -> Plan
        ensures { Plans layout result };
}

// TYP 23 revision 2.
pub struct Typ23;

impl List for Typ23 {
    ghost layout = { layout.Typ23 };

    fn plan() -> Plan {
        Plan {
            places: &[
                Span(16, 8),
                Span(24, 16),
                Span(40, 8),
                Span(48, 2),
                Span(50, 6),
                Span(56, 2),
                Span(58, 14),
                Span(72, 5),
                Span(77, 11),
                Span(88, 5),
                Span(93, 3),
                Span(96, 8),
                Span(104, 8),
                Span(112, 8),
                Span(120, 4),
                Span(124, 4),
                Span(128, 32),
                Span(160, 4),
                Span(164, 12),
                Span(176, 32),
                Span(208, 8),
                Span(216, 16),
            ],
            parts: &[Part(7, 7), Part(6, 5), Part(4, 6), Part(3, 6), Part(2, 3)],
        }
    }
}

// TYP 22 revision 1.
pub struct Typ22r1;

impl List for Typ22r1 {
    ghost layout = { layout.Typ22r1 };

    fn plan() -> Plan {
        Plan {
            places: &[
                Span(16, 8),
                Span(24, 16),
                Span(40, 16),
                Span(56, 2),
                Span(58, 6),
                Span(64, 14),
                Span(78, 11),
                Span(89, 1),
                Span(90, 6),
                Span(96, 3),
                Span(99, 5),
                Span(104, 24),
                Span(128, 8),
                Span(136, 8),
                Span(144, 8),
                Span(152, 8),
                Span(160, 8),
                Span(168, 4),
                Span(172, 4),
                Span(176, 16),
                Span(192, 4),
                Span(196, 12),
            ],
            parts: &[Part(5, 6), Part(6, 5), Part(5, 7), Part(6, 6)],
        }
    }
}

// TYP 22 revision 2.
pub struct Typ22r2;

impl List for Typ22r2 {
    ghost layout = { layout.Typ22r2 };

    fn plan() -> Plan {
        Plan {
            places: &[
                Span(16, 8),
                Span(24, 16),
                Span(40, 16),
                Span(56, 2),
                Span(58, 6),
                Span(64, 14),
                Span(78, 11),
                Span(89, 1),
                Span(90, 6),
                Span(96, 3),
                Span(99, 5),
                Span(104, 24),
                Span(128, 8),
                Span(136, 8),
                Span(144, 8),
                Span(152, 8),
                Span(160, 8),
                Span(168, 4),
                Span(172, 4),
                Span(176, 32),
                Span(208, 4),
                Span(212, 12),
            ],
            parts: &[Part(5, 6), Part(6, 5), Part(4, 6), Part(4, 3), Part(3, 6)],
        }
    }
}

// TYP 22 revision 3.
pub struct Typ22r3;

impl List for Typ22r3 {
    ghost layout = { layout.Typ22r3 };

    fn plan() -> Plan {
        Plan {
            places: &[
                Span(16, 8),
                Span(24, 16),
                Span(40, 16),
                Span(56, 2),
                Span(58, 6),
                Span(64, 14),
                Span(78, 11),
                Span(89, 1),
                Span(90, 6),
                Span(96, 3),
                Span(99, 5),
                Span(104, 2),
                Span(106, 14),
                Span(120, 5),
                Span(125, 11),
                Span(136, 8),
                Span(144, 8),
                Span(152, 8),
                Span(160, 8),
                Span(168, 8),
                Span(176, 4),
                Span(180, 4),
                Span(184, 32),
                Span(216, 4),
                Span(220, 12),
            ],
            parts: &[Part(5, 6), Part(6, 5), Part(4, 4), Part(7, 6), Part(3, 6)],
        }
    }
}

// The value at a place, of the number x that the bits before bit `end` carry.
fn value_in(x: u64, end: usize, p: Span) -> u64
    requires { (p.0 + p.1 ≤ end) × (end - (p.0 + p.1) < 64) × (p.1 < 64) }
    ensures { result ≡ x / 2 ^ (end - (p.0 + p.1)) % 2 ^ p.1 }
{
    bits::low(
        x >> (end - (usize::from(p.0) + usize::from(p.1))),
        usize::from(p.1),
    )
}

// The values of the ticket that starts with the slice, and zeros after them. Inlined before its loops are unrolled: a read costs some 30 instructions less.
#[inline(always)]
pub fn values<L: List>(s: &[u8]) -> [u64; MOST_VALUES]
    requires { bit_after L.layout ≤ 8 * length s.now }
    ensures { result ≡ held (fields s.now (list_of L.layout)) }
{
    let plan = L::plan();
    let mut values = [0u64; MOST_VALUES];
    let mut first: usize = 0;
    let mut from: usize = 2;
    for part in plan.parts {
        let next = first + part.0;
        let bytes = part.1;
        let x = bits::load(s, from, bytes);
        from += bytes;
        // by its number, which looks up the place too: over `values[first..next].iter_mut().enumerate()` that would be `first + i`
        for i in first..next {
            values[i] = value_in(x, 8 * from, plan.places[i]);
        }
        first = next;
    }
    values
}

// The `count` values from the value `first` on, from 0, as one number.
fn together<L: List>(values: &[u64; MOST_VALUES], first: usize, count: usize) -> u64
    requires means { Means (fit (list_of L.layout) (values_of L.layout values.now)) }
    requires count_bound { (first + count ≤ length (list_of L.layout)) × (wide (list_of L.layout) first count ≤ 56) }
    ensures { result ≡ together (list_of L.layout) (values_of L.layout values.now) first count }
{
    let places = L::plan().places;
    let mut x: u64 = 0;
    // by number: over the two slices the edit `first_value_again` has no value at hand to take again
    for i in first..first + count {
        x = (x << places[i].1) + values[i];
    }
    x
}

// Stores the values in the ticket that starts with the slice; refused, nothing is stored.
pub fn lay<L: List>(s: &mut [u8], values: &[u64; MOST_VALUES]) -> Result<(), Reason>
    requires { bit_after L.layout ≤ 8 * length s.old }
    ensures value { said result ≡ pack_number L.layout (values_of L.layout values.now) }
    ensures s_after { s.new ≡ pack_in L.layout (values_of L.layout values.now) s.old }
{
    let plan = L::plan();
    if !each_fits(plan.places, &values[..plan.places.len()]) {
        return Err(Reason::TooLarge);
    }
    let mut first: usize = 0;
    let mut from: usize = 2;
    for part in plan.parts {
        let count = part.0;
        let bytes = part.1;
        let x = together::<L>(values, first, count);
        bits::save(s, from, bytes, x);
        first += count;
        from += bytes;
    }
    Ok(())
}
