// A ticket's fields and its header between values and bytes.
ghost use Rattle.std.specs.Prelude.{◌≡◌, ◌∷◌, drop};
ghost use Rattle.ticket.specs.Ticket.{header_in, header_bytes, encode_of, decode_of};
ghost use Rattle.ticket.specs.Memory.{own, held_encoded, held_decoded};
ghost use Rattle.ticket.specs.Coded.{encoding, decoding, coded_header};

use crate::{Encoding, Fields, Header, Record, check_form};
use fields::{Layout, MOST_BYTES};
use rules::Reason;

// A ticket with its header of two bytes.
const WHOLE: usize = 2 + MOST_BYTES;

// The bytes after the ticket's header.
fn without_header(ticket: &[u8; WHOLE]) -> [u8; MOST_BYTES]
    ensures { result ≡ drop 2 ticket.now }
{
    let mut bytes = [0u8; MOST_BYTES];
    bytes.copy_from_slice(&ticket[2..2 + MOST_BYTES]);
    bytes
}

// A ticket with zeros for its header.
fn with_header(bytes: [u8; MOST_BYTES]) -> [u8; WHOLE]
    ensures { result ≡ (0 ∷ 0 ∷ bytes) }
{
    let mut ticket = [0u8; WHOLE];
    ticket[2..2 + MOST_BYTES].copy_from_slice(&bytes);
    ticket
}

// The bytes of a record; or 22 or 26.
pub fn encode(t: Record) -> Result<Encoding, Reason>
    ensures { encoding result ≡ held_encoded (encode_of (own t)) }
{
    let kind = check_form(t.typ, t.revision).ok_or(Reason::OtherKind)?;
    let mut ticket = [0u8; WHOLE];
    kind.lay(&mut ticket, &t.values)?;
    Ok(Encoding {
        count: kind.rest() - 2,
        bytes: without_header(&ticket),
    })
}

// The record of a TYP and revision that the bytes hold; or 22.
pub fn decode(typ: u64, revision: u64, bytes: [u8; MOST_BYTES]) -> Result<Record, Reason>
    ensures { decoding result ≡ held_decoded (decode_of typ revision bytes) }
{
    let kind = check_form(typ, revision).ok_or(Reason::OtherKind)?;
    let Fields { values, .. } = kind.fields_of(&with_header(bytes));
    Ok(Record {
        typ,
        revision,
        values,
    })
}

// The header that the two bytes hold.
pub fn decode_header(bytes: [u8; 2]) -> Header
    ensures { result ≡ header_in bytes }
{
    let values = fields::unpacked::<3>(Layout::Header, &bytes);
    Header { values }
}

// The two bytes of a header; or 26.
pub fn encode_header(values: [u64; 3]) -> Result<[u8; 2], Reason>
    ensures { coded_header result ≡ header_bytes values }
{
    fields::packed(Layout::Header, &values)
}
