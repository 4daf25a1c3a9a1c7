// Lists of fields that meet end to end: one list for each record of the card, and the routines that read and store by a list.
#![tactic(auto)]

mod plans;

ghost use Rattle.std.specs.Prelude.{◌≡◌, ℕ, ◌+◌, ◌*◌, ◌<◌, ◌≤◌, length, replicate, IfOk};
ghost use Rattle.bits.specs.Bits.{field, store};
ghost use Rattle.fields.specs.Lists as lists;
ghost use Rattle.fields.specs.Lists.{list_of, bit_after, nth};
ghost use Rattle.rules.specs.First.{holds};
ghost use Rattle.rules.specs.Reasons.{said};
ghost use Rattle.fields.specs.Fields.{at, fields, stores, limit_of, fit};
ghost use Rattle.fields.specs.Packed.{pack_number, packed, pack_in};

pub use plans::{
    List, MOST_BYTES, MOST_VALUES, Plan, Typ22r1, Typ22r2, Typ22r3, Typ23, lay, values,
};
use rules::Reason;

// The first bit and the width of a field. That it is at most 56 bits wide is asked for by `at`, `store_at`, `largest` and the like: with a ghost field for it each
// of the 124 places of the lists would prove its own, where one test of each list does (proofs/Joined).
#[derive(Clone, Copy)]
pub struct Span(pub u16, pub u16);

// The records of the card: each has its own list. An enum of what it names, no number of a list; document 01 has a directory's head and a ticket's header as
// two records, whose lists `list_of` takes to be one; `Unlisted` is the list of ticket's `row_by`, which gives what is no kind a row with no field.
#[derive(Clone, Copy)]
pub enum Layout {
    Image,
    Shell,
    Entry,
    Head,
    Tail,
    Header,
    Typ23,
    Typ22r1,
    Typ22r2,
    Typ22r3,
    Unlisted,
}

// Where the fields of an image stand in its list: the length of the whole, the version, and the directory copy in force. Numbers
// and no enum: each is an index of the list.
pub const IMAGE_LENGTH: usize = 0;

pub const IMAGE_VERSION: usize = 1;

pub const IMAGE_COPY: usize = 2;

const IMAGE: &[Span] = &[Span(0, 16), Span(16, 8), Span(24, 8)];

const SHELL: &[Span] = &[
    Span(0, 6),
    Span(6, 6),
    Span(12, 4),
    Span(16, 24),
    Span(40, 16),
    Span(56, 28),
    Span(84, 4),
    Span(88, 8),
    Span(96, 8),
    Span(104, 8),
    Span(112, 2),
    Span(114, 14),
    Span(128, 8),
    Span(136, 8),
    Span(144, 8),
    Span(152, 8),
];

const ENTRY: &[Span] = &[
    Span(0, 1),
    Span(1, 13),
    Span(14, 5),
    Span(19, 5),
    Span(24, 1),
    Span(25, 1),
    Span(26, 14),
];

// Of the directory's first two bytes, and of a ticket's.
const HEAD: &[Span] = &[Span(0, 6), Span(6, 6), Span(12, 4)];

const TAIL: &[Span] = &[Span(0, 8), Span(8, 4), Span(12, 4), Span(16, 32)];

impl Layout {
    // The places of its fields.
    fn places(self) -> &'static [Span]
        ensures { result.now ≡ list_of self }
    {
        match self {
            Layout::Image => IMAGE,
            Layout::Shell => SHELL,
            Layout::Entry => ENTRY,
            Layout::Head => HEAD,
            Layout::Tail => TAIL,
            Layout::Header => HEAD,
            Layout::Typ23 => Typ23::plan().places,
            Layout::Typ22r1 => Typ22r1::plan().places,
            Layout::Typ22r2 => Typ22r2::plan().places,
            Layout::Typ22r3 => Typ22r3::plan().places,
            Layout::Unlisted => &[],
        }
    }
}

// How many fields the list has.
pub fn count(k: Layout) -> usize
    ensures { result ≡ length (list_of k) }
{
    k.places().len()
}

// The bit after the last place of the list.
pub fn bit_after(k: Layout) -> usize
    ensures { result ≡ bit_after k }
{
    match k {
        Layout::Image => 32,
        Layout::Shell => 160,
        Layout::Entry => 40,
        Layout::Head => 16,
        Layout::Tail => 48,
        Layout::Header => 16,
        Layout::Typ23 => 232,
        Layout::Typ22r1 => 208,
        Layout::Typ22r2 => 224,
        Layout::Typ22r3 => 232,
        Layout::Unlisted => 16,
    }
}

// The place of the field i, counted from 0. Each arm has an index of its own, beside `Layout::places`: of a layout that is known only when it runs, the slices
// make a table of addresses, which is data that can be written, and tests/size refuses it.
pub fn place(k: Layout, i: usize) -> Span
    requires { i < length (list_of k) }
    ensures { result ≡ nth (list_of k) i }
{
    match k {
        Layout::Image => IMAGE[i],
        Layout::Shell => SHELL[i],
        Layout::Entry => ENTRY[i],
        Layout::Head => HEAD[i],
        Layout::Tail => TAIL[i],
        Layout::Header => HEAD[i],
        Layout::Typ23 => Typ23::plan().places[i],
        Layout::Typ22r1 => Typ22r1::plan().places[i],
        Layout::Typ22r2 => Typ22r2::plan().places[i],
        Layout::Typ22r3 => Typ22r3::plan().places[i],
        Layout::Unlisted => Span(0, 0),
    }
}

// The number at a place. Asked with a place of a list by its own name, as `place(Layout::Entry, 2)`, nothing is left to look up in any caller.
pub fn at(s: &[u8], p: Span) -> u64
    requires { (p.1 ≤ 56) × (p.0 + p.1 ≤ 8 * length s.now) }
    ensures { result ≡ at s.now p }
{
    bits::get(s, usize::from(p.0), usize::from(p.1))
}

// The value of the field i. That the list's bits lie within the slice is asked for here and where a whole list is read or stored: a slice that went with its
// list and that fact would be made for one call each time, as of `&image[4..]`, and those that store could not take it.
// The same holds of the values' number, `length values ≡ length (list_of k)`.
pub fn value(s: &[u8], k: Layout, i: usize) -> u64
    requires { (i < length (list_of k)) × (bit_after k ≤ 8 * length s.now) }
    ensures { result ≡ field s.now (nth (list_of k) i).0 (nth (list_of k) i).1 }
{
    at(s, place(k, i))
}

// Stores the low digits of a value at a place.
pub fn store_at(s: &mut [u8], p: Span, v: u64)
    requires { (p.1 ≤ 56) × (p.0 + p.1 ≤ 8 * length s.old) }
    ensures { s.new ≡ store s.old p.0 p.1 v }
{
    bits::put(s, usize::from(p.0), usize::from(p.1), v)
}

// The largest number of a place.
pub fn largest(p: Span) -> u64
    requires { p.1 < 64 }
    ensures { result ≡ limit_of p }
{
    (1u64 << p.1) - 1
}

// The values of the whole list.
pub fn read(s: &[u8], k: Layout, out: &mut [u64])
    requires { (length out.old ≡ length (list_of k)) × (bit_after k ≤ 8 * length s.now) }
    ensures { out.new ≡ fields s.now (list_of k) }
{
    let places = k.places();
    // by the place's number: the library has no law of a loop over `iter_mut()` and `zip`
    for (i, value) in out.iter_mut().enumerate() {
        *value = at(s, places[i]);
    }
}

// Stores the values of the whole list.
pub fn write(s: &mut [u8], k: Layout, values: &[u64])
    requires { (length values.now ≡ length (list_of k)) × (bit_after k ≤ 8 * length s.old) }
    ensures { s.new ≡ stores s.old (list_of k) values.now }
{
    for (place, value) in k.places().iter().zip(values) {
        store_at(s, *place, *value);
    }
}

// Whether every value is at most the largest of its place. Each is looked at, whatever was found before, so that places of one width share a test: so a fold
// by `&`, where `all` would leave at the first that is too wide.
#[inline(always)]
fn each_fits(places: &[Span], values: &[u64]) -> bool
    requires { (length values.now ≡ length places.now) × ((i : ℕ) → (nth places.now i).1 < 64) }
    ensures { result ≡ holds (fit places.now values.now) }
{
    let mut ok = true;
    for (place, value) in places.iter().zip(values) {
        ok = ok & (*value <= largest(*place));
    }
    ok
}

// Whether every value is at most the largest of its field.
pub fn all_fit(k: Layout, values: &[u64]) -> bool
    requires { length values.now ≡ length (list_of k) }
    ensures { result ≡ holds (fit (list_of k) values.now) }
{
    each_fits(k.places(), values)
}

// Stores the values of the whole list where none is too wide; else nothing is stored.
pub fn pack(k: Layout, values: &[u64], out: &mut [u8]) -> Result<(), Reason>
    requires { (length values.now ≡ length (list_of k)) × (bit_after k ≤ 8 * length out.old) }
    ensures { (said result ≡ pack_number k values.now) × (out.new ≡ pack_in k values.now out.old) }
{
    if !all_fit(k, values) {
        return Err(Reason::TooLarge);
    }
    write(out, k, values);
    Ok(())
}

// The M bytes that hold the N values of a whole record.
pub fn packed<const N: usize, const M: usize>(
    k: Layout,
    values: &[u64; N],
) -> Result<[u8; M], Reason>
    requires { (N ≡ length (list_of k)) × (bit_after k ≤ 8 * M) }
    ensures number { said result ≡ pack_number k values.now }
    ensures bytes { IfOk result (λ b. b ≡ packed k M values.now) }
{
    let mut bytes = [0u8; M];
    pack(k, values, &mut bytes)?;
    Ok(bytes)
}

// The N values of a whole record.
pub fn unpacked<const N: usize>(k: Layout, bytes: &[u8]) -> [u64; N]
    requires { (N ≡ length (list_of k)) × (bit_after k ≤ 8 * length bytes.now) }
    ensures { result ≡ fields bytes.now (list_of k) }
{
    let mut values = [0u64; N];
    read(bytes, k, &mut values);
    values
}
