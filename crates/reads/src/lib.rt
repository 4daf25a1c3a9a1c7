// What the reads of a card answer: a value, or why it is refused; and C's structs of these answers. Refused, a struct has the number, the entry, and zeros in all
// else.
#![tactic(auto)]

mod of_card;
mod of_entry;
mod of_ticket;

ghost use Rattle.std.specs.Prelude.{◌≡◌};
ghost use Rattle.rules.specs.Refusals.{answered};

use chains::packed::Mark;
use fields::MOST_VALUES;
use rules::{Answer, Refusal};

// The mark of a chain, and its sectors in chain order, with zeros after them. The library has no heap, so the count stands beside the longest list.
#[derive(Clone, Copy)]
pub struct ChainSectors {
    pub mark: Mark,
    pub count: usize,
    pub sectors: [u8; 252],
}

// A ticket: the TYP of its entry, its header, the values of its kind and zeros after them, its end in minutes, its mark and the number of its sectors.
#[derive(Clone, Copy)]
pub struct Ticket {
    pub typ: u64,
    pub header: [u64; 3],
    pub values: [u64; MOST_VALUES],
    pub end: u64,
    pub mark: Mark,
    pub sectors: usize,
}

// Of a product: the first byte after the fixed fields, and the dataset's end.
#[derive(Clone, Copy)]
pub struct Extent {
    pub from: usize,
    pub end: usize,
}

// What reading the shell answers.
#[repr(C)]
#[derive(Drop)]
pub struct ShellRead {
    pub number: usize,
    pub entry: usize,
    pub values: [u64; 16],
}

// What reading the directory answers: DIRLength, DIRBitMap, DIRFormatRevision, DIRS#, KID, INS#, ISAMID.
#[repr(C)]
#[derive(Drop)]
pub struct DirectoryRead {
    pub number: usize,
    pub entry: usize,
    pub values: [u64; 7],
}

// What reading the chain table answers: its elements, SCT(1) first.
#[repr(C)]
#[derive(Drop)]
pub struct TableRead {
    pub number: usize,
    pub entry: usize,
    pub count: usize,
    pub elements: [u8; 252],
}

// What reading an entry answers: EF, OID, TYP, PTYP, VGP, IINL, EXP.
#[repr(C)]
#[derive(Drop)]
pub struct EntryRead {
    pub number: usize,
    pub entry: usize,
    pub values: [u64; 7],
}

// What reading a chain answers: its mark (fresh 0, used 1, blocked 2), and its sectors in chain order.
#[repr(C)]
#[derive(Drop)]
pub struct ChainRead {
    pub number: usize,
    pub entry: usize,
    pub mark: usize,
    pub count: usize,
    pub sectors: [u8; 252],
}

// What reading a ticket answers: the TYP of its entry, its header, the values of its kind and zeros after them, its end in minutes, its mark and the number of its sectors.
#[repr(C)]
#[derive(Drop)]
pub struct TicketRead {
    pub number: usize,
    pub entry: usize,
    pub typ: u64,
    pub header: [u64; 3],
    pub values: [u64; MOST_VALUES],
    pub end: u64,
    pub mark: usize,
    pub sectors: usize,
}

// What filling a buffer answers: the first byte after the fixed fields, and the dataset's end.
#[repr(C)]
#[derive(Drop)]
pub struct Filled {
    pub number: usize,
    pub entry: usize,
    pub from: usize,
    pub end: usize,
}

// The number and the entry of a read.
fn told<T: Copy>(read: Result<T, Refusal>) -> Answer
    ensures { result ≡ answered read }
{
    read.map(|_| ()).into()
}
