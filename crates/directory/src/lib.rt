// The directory's entries and its two ends, between values and bytes. Its chain table is crate table's.
#![tactic(auto)]

ghost use Rattle.std.specs.Prelude.{◌≡◌};
ghost use Rattle.directory.specs.Records.{entry_bytes, entry_in, head_bytes, head_in, tail_bytes, tail_in};
ghost use Rattle.directory.specs.Coded.{coded_entry, coded_head, coded_tail};

use fields::Layout;
use rules::{Reason, said};

// EF, OID, TYP, PTYP, VGP, IINL, EXP.
#[repr(C)]
#[derive(Drop)]
pub struct Entry {
    pub values: [u64; 7],
}

// Where two of them stand. Numbers and no enum: each is an index of the list of places.
pub const TYP: usize = 2;

pub const EXP: usize = 6;

// What C is told of an encoded entry, head or tail: the number of a result, and its bytes or zeros. Three structs, since C has none with a size for parameter.
#[repr(C)]
#[derive(Drop)]
pub struct EntryBytes {
    pub number: usize,
    pub entry: usize,
    pub bytes: [u8; 5],
}

impl From<Result<[u8; 5], Reason>> for EntryBytes {
    ghost from_gives = { λ r s. s ≡ coded_entry r };

    fn from(done: Result<[u8; 5], Reason>) -> EntryBytes {
        let number = said(&done);
        let bytes = done.unwrap_or([0; 5]);
        EntryBytes {
            number,
            entry: 0,
            bytes,
        }
    }
}

// DIRLength, DIRBitMap, DIRFormatRevision.
#[repr(C)]
#[derive(Drop)]
pub struct Head {
    pub values: [u64; 3],
}

#[repr(C)]
#[derive(Drop)]
pub struct HeadBytes {
    pub number: usize,
    pub entry: usize,
    pub bytes: [u8; 2],
}

impl From<Result<[u8; 2], Reason>> for HeadBytes {
    ghost from_gives = { λ r s. s ≡ coded_head r };

    fn from(done: Result<[u8; 2], Reason>) -> HeadBytes {
        let number = said(&done);
        let bytes = done.unwrap_or([0; 2]);
        HeadBytes {
            number,
            entry: 0,
            bytes,
        }
    }
}

// DIRS#, KID, INS#, ISAMID.
#[repr(C)]
#[derive(Drop)]
pub struct Tail {
    pub values: [u64; 4],
}

#[repr(C)]
#[derive(Drop)]
pub struct TailBytes {
    pub number: usize,
    pub entry: usize,
    pub bytes: [u8; 6],
}

impl From<Result<[u8; 6], Reason>> for TailBytes {
    ghost from_gives = { λ r s. s ≡ coded_tail r };

    fn from(done: Result<[u8; 6], Reason>) -> TailBytes {
        let number = said(&done);
        let bytes = done.unwrap_or([0; 6]);
        TailBytes {
            number,
            entry: 0,
            bytes,
        }
    }
}

// The five bytes of an entry; or 26.
pub fn encode_entry(values: [u64; 7]) -> Result<[u8; 5], Reason>
    ensures { coded_entry result ≡ entry_bytes values }
{
    fields::packed(Layout::Entry, &values)
}

// The values that the five bytes hold.
pub fn decode_entry(bytes: [u8; 5]) -> Entry
    ensures { result ≡ entry_in bytes }
{
    let values = fields::unpacked::<7>(Layout::Entry, &bytes);
    Entry { values }
}

// The two bytes of the three leading values; or 26.
pub fn encode_head(values: [u64; 3]) -> Result<[u8; 2], Reason>
    ensures { coded_head result ≡ head_bytes values }
{
    fields::packed(Layout::Head, &values)
}

// The values that the two bytes hold.
pub fn decode_head(bytes: [u8; 2]) -> Head
    ensures { result ≡ head_in bytes }
{
    let values = fields::unpacked::<3>(Layout::Head, &bytes);
    Head { values }
}

// The six bytes from DIRS# to ISAMID; or 26.
pub fn encode_tail(values: [u64; 4]) -> Result<[u8; 6], Reason>
    ensures { coded_tail result ≡ tail_bytes values }
{
    fields::packed(Layout::Tail, &values)
}

// The values that the six bytes hold.
pub fn decode_tail(bytes: [u8; 6]) -> Tail
    ensures { result ≡ tail_in bytes }
{
    let values = fields::unpacked::<4>(Layout::Tail, &bytes);
    Tail { values }
}
