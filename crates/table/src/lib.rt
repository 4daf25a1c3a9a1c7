// The sector chain table between its elements and its bytes. From `u64`, and to a narrower type, there is no `From`: what each `as` takes is bounded.
// Of a refused result C is told zeros, by name in the definitions (`no_table`): so they stand in full, and no `Default` is derived.
#![tactic(auto)]

ghost use Rattle.std.specs.Prelude.{IfOk, ◌≡◌, ◌-◌, ◌*◌, ◌≤◌, ◌++◌, length, get_or, drop, replicate};
ghost use Rattle.rules.specs.First.{holds};
ghost use Rattle.rules.specs.Claim.{every, ◌≤?◌};
ghost use Rattle.rules.specs.Answer.{if_done};
ghost use Rattle.rules.specs.Reasons.{said};
ghost use Rattle.fields.specs.Fields.{fields, stores};
ghost use Rattle.table.specs.Table.{places};
ghost use Rattle.table.specs.Coded.{encode_number, encode_in, elements_in, decode_number, decode_of, coded_table};

use rules::{Reason, said};

// The elements of a chain table, SCT(1) first: how many, and zeros after them. The library has no heap, so the count stands beside the longest list.
#[derive(Clone, Copy)]
pub struct Table {
    pub count: usize,
    pub elements: [u8; 252],
}

// What C is told of a decoded table: it, or zeros.
#[repr(C)]
#[derive(Drop)]
pub struct Elements {
    pub number: usize,
    pub entry: usize,
    pub count: usize,
    pub elements: [u8; 252],
}

impl From<Result<Table, Reason>> for Elements {
    ghost from_gives = { λ r e. e ≡ coded_table r };

    fn from(done: Result<Table, Reason>) -> Elements {
        let number = said(&done);
        let Table { count, elements } = done.unwrap_or(Table {
            count: 0,
            elements: [0; 252],
        });
        Elements {
            number,
            entry: 0,
            count,
            elements,
        }
    }
}

// Whether every element is at most `most`.
fn all_below(elements: &[u64], most: u64) -> bool
    ensures { result ≡ holds (every (length elements.now) λ i. get_or elements.now i 0 ≤? most) }
{
    elements.iter().all(|x| *x <= most)
}

// The number of sectors; or the first of 6 and 21 that it and the bytes do not keep.
#[tactic(auto, using(std::proofs::lemmas::Bool::Decides::nat_tests), unfolding(crate::specs::Coded::decode_number, rules::specs::First::first))]
fn judge_bytes(s: u64, room: usize) -> Result<usize, Reason>
    ensures number { said result ≡ decode_number s room }
    ensures same { IfOk result (λ n. (n ≡ s) × (4 ≤ n) × (n ≤ 255)) }
{
    if s < 4 || 255 < s {
        return Err(Reason::WrongSize);
    }
    let sectors = s as usize;
    if room == chains::table_bytes(sectors) {
        Ok(sectors)
    } else {
        Err(Reason::WrongRoom)
    }
}

// The number of sectors; or the first of 6, 21 and 26 that it, the elements and the buffer do not keep.
#[tactic(auto, using(std::proofs::lemmas::Bool::Decides::nat_tests), unfolding(crate::specs::Coded::encode_number, crate::specs::Coded::decode_number, rules::specs::First::first))]
fn judge(s: u64, elements: &[u64], room: usize) -> Result<usize, Reason>
    ensures number { said result ≡ encode_number s elements.now room }
    ensures same { IfOk result (λ n. (n ≡ s) × (4 ≤ n) × (n ≤ 255)) }
{
    let sectors = judge_bytes(s, room)?;
    if elements.len() != sectors - 3 {
        return Err(Reason::WrongRoom);
    }
    if !all_below(elements, (1u64 << chains::psi(sectors)) - 1) {
        return Err(Reason::TooLarge);
    }
    Ok(sectors)
}

// The elements of psi bits each, one after the other from the first bit on, and zero bits after them.
fn pack_all(psi: usize, elements: &[u64], out: &mut [u8])
    requires { (psi ≤ 8) × (length elements.now ≤ 252) × (psi * length elements.now ≤ 8 * length out.old) }
    ensures { out.new ≡ stores (replicate (length out.old) 0) (places psi 0 (length elements.now)) elements.now }
{
    out.fill(0);
    for (i, element) in elements.iter().enumerate() {
        bits::put(out, psi * i, psi, *element);
    }
}

// Packs the elements of a table of s sectors into the buffer. Refused by 6, 21 or 26, nothing is altered.
pub fn encode_table(s: u64, elements: &[u64], out: &mut [u8]) -> Result<(), Reason>
    ensures { (said result ≡ encode_number s elements.now (length out.old)) × (out.new ≡ encode_in s elements.now out.old) }
{
    let sectors = judge(s, elements, out.len())?;
    pack_all(chains::psi(sectors), elements, out);
    Ok(())
}

// The elements of psi bits each, as many as there is room for.
fn unpack_all(psi: usize, bytes: &[u8], out: &mut [u8])
    requires { (psi ≤ 8) × (length out.old ≤ 252) × (psi * length out.old ≤ 8 * length bytes.now) }
    ensures { out.new ≡ fields bytes.now (places psi 0 (length out.old)) }
{
    for (i, element) in out.iter_mut().enumerate() {
        *element = bits::get(bytes, psi * i, psi) as u8;
    }
}

// The elements of a table of s sectors; or 6 or 21.
pub fn decode_table(s: u64, bytes: &[u8]) -> Result<Table, Reason>
    ensures { coded_table result ≡ decode_of s bytes.now }
{
    let sectors = judge_bytes(s, bytes.len())?;
    let count = sectors - 3;
    let psi = chains::psi(sectors);
    let mut elements = [0u8; 252];
    unpack_all(psi, bytes, &mut elements[..count]);
    Ok(Table { count, elements })
}
