// Reading a ticket: the checks, and then the copy into the lent buffer. Refused, the buffer keeps its bytes.
#![tactic(auto)]

mod checks;
mod copy;

ghost use Rattle.std.specs.Prelude.{◌≡◌, ◌+◌, ◌^◌, ◌<◌, Ok, length};
ghost use Rattle.reads.specs.Given.{ticket_given, filled_given};
ghost use Rattle.reads.specs.Ticket.{read_ticket, held_ticket, fill_of, buffer_after, rest, rest_at};
ghost use Rattle.readticket.specs.Checks.{judged, judged_in, told_of};

use checks::Sound;
use reads::{Extent, Ticket};
use rules::Refusal;
use ticket::Fields;
use verdict::Bounded;

// Copies the product of a ticket that has passed the checks into the buffer.
fn take(image: &[u8], entry: usize, buffer: &mut [u8]) -> Result<Sound, Refusal>
    ensures value { judged result ≡ judged_in image.now entry (length buffer.old) }
    ensures buffer_after { buffer.new ≡ buffer_after image.now entry buffer.old }
{
    let found = verdict::product(image, entry)?;
    let sound = checks::judge(&found, buffer.len())?;
    copy::copy_product(&found, buffer);
    Ok(sound)
}

// What is read of it.
fn told(sound: Sound, read: Fields) -> Ticket
    requires { (sound.stated.day < 2 ^ 32) × (read.time < 2 ^ 32) }
    ensures { ticket_given (Ok result) ≡ told_of sound read }
{
    let stated = sound.stated;
    let values = read.values;
    Ticket {
        typ: stated.typ,
        header: [stated.blocks, stated.map, stated.revision],
        values,
        end: ticket::end(stated.day, read.time),
        mark: sound.mark,
        sectors: sound.sectors,
    }
}

// Copies the product of a ticket into the buffer, and reads the ticket.
pub fn read_ticket(image: &[u8], entry: usize, buffer: &mut [u8]) -> Result<Ticket, Refusal>
    ensures value { ticket_given result ≡ held_ticket (read_ticket image.now entry (length buffer.old)) }
    ensures buffer_after { buffer.new ≡ buffer_after image.now entry buffer.old }
{
    let sound = take(image, entry, buffer)?;
    let card = Bounded { image }.measured();
    let start = card.sector_at(entry);
    let first = &image[start..];
    Ok(told(sound, sound.kind.fields_of(first)))
}

// Copies likewise; the answer is where the bytes after the fixed fields begin, and where the dataset ends. From u64 there is no `From`; IPELength has six bits.
pub fn fill(image: &[u8], entry: usize, buffer: &mut [u8]) -> Result<Extent, Refusal>
    ensures value { filled_given result ≡ fill_of image.now entry (length buffer.old) }
    ensures buffer_after { buffer.new ≡ buffer_after image.now entry buffer.old }
{
    let sound = take(image, entry, buffer)?;
    let end = 4 * (sound.stated.blocks as usize);
    Ok(Extent {
        from: sound.kind.rest(),
        end,
    })
}

// Copies likewise, and hands back the dataset bytes after the fixed fields, as a part of that buffer; refused, the empty part.
pub fn rest<'a>(image: &[u8], entry: usize, buffer: &'a mut [u8]) -> &'a mut [u8]
    ensures result_value { result.now ≡ rest image.now entry (length buffer.old) }
    ensures ref_ptr_value { (result.ref_ptr.0 ≡ buffer.entry.ref_ptr.0) × (result.ref_ptr.1 ≡ rest_at image.now entry (length buffer.old) + buffer.entry.ref_ptr.1) }
{
    let Ok(Extent { from, end }) = fill(image, entry, buffer) else {
        return &mut buffer[0..0];
    };
    &mut buffer[from..end]
}
