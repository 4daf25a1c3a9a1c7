// The card library for C: calls, and nothing but calls. include/card.h says each in a sentence.
#![tactic(auto)]

ghost use Rattle.std.specs.Prelude.{◌≡◌, length};
ghost use Rattle.rules.specs.Answer.{says};
ghost use Rattle.shell.specs.Encode as shells;
ghost use Rattle.directory.specs.Records as records;
ghost use Rattle.table.specs.Coded as tables;
ghost use Rattle.ticket.specs.Ticket as tickets;
ghost use Rattle.ticket.specs.Memory.{own_of, own, held_changed, held_encoded, held_decoded};
ghost use Rattle.image.specs.Verdict.{verdict};
ghost use Rattle.reads.specs.Card.{read_shell, read_directory, read_table};
ghost use Rattle.reads.specs.Entry.{read_entry, read_chain};
ghost use Rattle.reads.specs.Ticket.{read_ticket, held_ticket, buffer_after, fill_of};
ghost use Rattle.steps.specs.Step.{write, write_all, set_mark};
ghost use Rattle.steps.specs.Steps.{answer, next};
ghost use Rattle.steps.specs.Flags.{touched_answer, touched_flags};
ghost use Rattle.dates.specs.Calendar.{date_of, stamp_of};

use card::{
    Answer, ChainRead, Changed, Dated, Decoded, DirectoryRead, Elements, Encoded, Entry,
    EntryBytes, EntryRead, Filled, Head, HeadBytes, Header, HeaderBytes, Record, Shell, ShellRead,
    Stamped, TableRead, Tail, TailBytes, TicketRead, Value,
};
use fields::{MOST_BYTES, MOST_VALUES};

// Whether the image is accepted.
#[unsafe(no_mangle)]
pub extern "C" fn card_check(image: &[u8]) -> Answer
    ensures { result ≡ verdict image.now }
{
    card::check(image).into()
}

#[unsafe(no_mangle)]
pub extern "C" fn card_read_shell(image: &[u8]) -> ShellRead
    ensures { result ≡ read_shell image.now }
{
    card::read_shell(image).into()
}

#[unsafe(no_mangle)]
pub extern "C" fn card_read_directory(image: &[u8]) -> DirectoryRead
    ensures { result ≡ read_directory image.now }
{
    card::read_directory(image).into()
}

#[unsafe(no_mangle)]
pub extern "C" fn card_read_table(image: &[u8]) -> TableRead
    ensures { result ≡ read_table image.now }
{
    card::read_table(image).into()
}

#[unsafe(no_mangle)]
pub extern "C" fn card_read_entry(image: &[u8], entry: usize) -> EntryRead
    ensures { result ≡ read_entry image.now entry }
{
    card::read_entry(image, entry).into()
}

#[unsafe(no_mangle)]
pub extern "C" fn card_read_chain(image: &[u8], entry: usize) -> ChainRead
    ensures { result ≡ read_chain image.now entry }
{
    card::read_chain(image, entry).into()
}

#[unsafe(no_mangle)]
pub extern "C" fn card_read_ticket(image: &[u8], entry: usize, buffer: &mut [u8]) -> TicketRead
    ensures value { result ≡ held_ticket (read_ticket image.now entry (length buffer.old)) }
    ensures buffer_after { buffer.new ≡ buffer_after image.now entry buffer.old }
{
    card::read_ticket(image, entry, buffer).into()
}

// Copies likewise; in the buffer, the first byte after the fixed fields and the dataset's end.
#[unsafe(no_mangle)]
pub extern "C" fn card_fill(image: &[u8], entry: usize, buffer: &mut [u8]) -> Filled
    ensures value { result ≡ fill_of image.now entry (length buffer.old) }
    ensures buffer_after { buffer.new ≡ buffer_after image.now entry buffer.old }
{
    card::fill(image, entry, buffer).into()
}

#[unsafe(no_mangle)]
pub extern "C" fn card_write_field(
    image: &mut [u8],
    entry: usize,
    field: usize,
    value: u64,
) -> Answer
    ensures value { result ≡ answer image.old (write entry field value) }
    ensures image_after { image.new ≡ next image.old (write entry field value) }
{
    card::write_field(image, entry, field, value).into()
}

#[unsafe(no_mangle)]
pub extern "C" fn card_write_record(
    image: &mut [u8],
    entry: usize,
    typ: u64,
    revision: u64,
    values: &[u64; MOST_VALUES],
) -> Answer
    ensures value { result ≡ answer image.old (write_all entry typ revision (own_of typ revision values.now)) }
    ensures image_after { image.new ≡ next image.old (write_all entry typ revision (own_of typ revision values.now)) }
{
    card::write_record(image, entry, typ, revision, values).into()
}

#[unsafe(no_mangle)]
pub extern "C" fn card_mark(image: &mut [u8], entry: usize, mark: usize) -> Answer
    ensures value { result ≡ answer image.old (set_mark entry mark) }
    ensures image_after { image.new ≡ next image.old (set_mark entry mark) }
{
    card::mark(image, entry, mark).into()
}

// Which entries differ between two images.
#[unsafe(no_mangle)]
pub extern "C" fn card_touched(before: &[u8], after: &[u8], flags: &mut [u8]) -> Answer
    ensures value { result ≡ touched_answer before.now after.now (length flags.old) }
    ensures flags_after { flags.new ≡ touched_flags before.now after.now flags.old }
{
    card::touched(before, after, flags).into()
}

// A field of a record, set and read.
#[unsafe(no_mangle)]
pub extern "C" fn card_record_set(
    typ: u64,
    revision: u64,
    values: &[u64; MOST_VALUES],
    field: usize,
    value: u64,
) -> Changed
    ensures { result ≡ held_changed (tickets.set_of (own (record { typ = typ; revision = revision; values = values.now })) field value) }
{
    let record = Record {
        typ,
        revision,
        values: *values,
    };
    let (done, next) = record.set(field, value);
    Changed::new(done, next)
}

#[unsafe(no_mangle)]
pub extern "C" fn card_record_value(
    typ: u64,
    revision: u64,
    values: &[u64; MOST_VALUES],
    field: usize,
) -> Value
    ensures { result ≡ tickets.value_of (own (record { typ = typ; revision = revision; values = values.now })) field }
{
    let of = Record {
        typ,
        revision,
        values: *values,
    };
    of.get(field).into()
}

// Records between values and bytes.
#[unsafe(no_mangle)]
pub extern "C" fn card_encode_shell(values: &[u64; 16], out: &mut [u8]) -> Answer
    ensures value { result ≡ says (shells.encode_number values.now (length out.old)) 0 }
    ensures out_after { out.new ≡ shells.encode_in values.now out.old }
{
    card::encode_shell(Shell { values: *values }, out).into()
}

#[unsafe(no_mangle)]
pub extern "C" fn card_decode_shell(bytes: &[u8; 20]) -> Shell
    ensures { result ≡ shells.decode_of bytes.now }
{
    card::decode_shell(*bytes)
}

#[unsafe(no_mangle)]
pub extern "C" fn card_encode_entry(values: &[u64; 7]) -> EntryBytes
    ensures { result ≡ records.entry_bytes values.now }
{
    card::encode_entry(*values).into()
}

#[unsafe(no_mangle)]
pub extern "C" fn card_decode_entry(bytes: &[u8; 5]) -> Entry
    ensures { result ≡ records.entry_in bytes.now }
{
    card::decode_entry(*bytes)
}

#[unsafe(no_mangle)]
pub extern "C" fn card_encode_head(values: &[u64; 3]) -> HeadBytes
    ensures { result ≡ records.head_bytes values.now }
{
    card::encode_head(*values).into()
}

#[unsafe(no_mangle)]
pub extern "C" fn card_decode_head(bytes: &[u8; 2]) -> Head
    ensures { result ≡ records.head_in bytes.now }
{
    card::decode_head(*bytes)
}

#[unsafe(no_mangle)]
pub extern "C" fn card_encode_tail(values: &[u64; 4]) -> TailBytes
    ensures { result ≡ records.tail_bytes values.now }
{
    card::encode_tail(*values).into()
}

#[unsafe(no_mangle)]
pub extern "C" fn card_decode_tail(bytes: &[u8; 6]) -> Tail
    ensures { result ≡ records.tail_in bytes.now }
{
    card::decode_tail(*bytes)
}

#[unsafe(no_mangle)]
pub extern "C" fn card_encode_table(s: u64, elements: &[u64], out: &mut [u8]) -> Answer
    ensures value { result ≡ says (tables.encode_number s elements.now (length out.old)) 0 }
    ensures out_after { out.new ≡ tables.encode_in s elements.now out.old }
{
    card::encode_table(s, elements, out).into()
}

#[unsafe(no_mangle)]
pub extern "C" fn card_decode_table(s: u64, bytes: &[u8]) -> Elements
    ensures { result ≡ tables.decode_of s bytes.now }
{
    card::decode_table(s, bytes).into()
}

#[unsafe(no_mangle)]
pub extern "C" fn card_encode_header(values: &[u64; 3]) -> HeaderBytes
    ensures { result ≡ tickets.header_bytes values.now }
{
    card::encode_header(*values).into()
}

#[unsafe(no_mangle)]
pub extern "C" fn card_decode_header(bytes: &[u8; 2]) -> Header
    ensures { result ≡ tickets.header_in bytes.now }
{
    card::decode_header(*bytes)
}

#[unsafe(no_mangle)]
pub extern "C" fn card_encode_ticket(
    typ: u64,
    revision: u64,
    values: &[u64; MOST_VALUES],
) -> Encoded
    ensures { result ≡ held_encoded (tickets.encode_of (own (record { typ = typ; revision = revision; values = values.now }))) }
{
    card::encode_ticket(Record {
        typ,
        revision,
        values: *values,
    })
    .into()
}

#[unsafe(no_mangle)]
pub extern "C" fn card_decode_ticket(typ: u64, revision: u64, bytes: &[u8; MOST_BYTES]) -> Decoded
    ensures { result ≡ held_decoded (tickets.decode_of typ revision bytes.now) }
{
    card::decode_ticket(typ, revision, *bytes).into()
}

// Dates.
#[unsafe(no_mangle)]
pub extern "C" fn card_date_of(stamp: u64) -> Dated
    ensures { result ≡ date_of stamp }
{
    card::date(stamp).into()
}

#[unsafe(no_mangle)]
pub extern "C" fn card_stamp_of(year: u64, month: u64, day: u64) -> Stamped
    ensures { result ≡ stamp_of year month day }
{
    card::stamp(year, month, day).into()
}
