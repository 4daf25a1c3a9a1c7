// Commands that lend a buffer to a read of a ticket.
ghost use Rattle.std.specs.Prelude.{◌≡◌};
ghost use Rattle.reads.specs.Ticket.{buffer_after};
ghost use Rattle.console.specs.Lends.{lent_to, Lent, of_none};

use crate::commands::Lend;
use crate::{FILLING, values};
use card::{Filled, Refusal, Ticket};
use text::prints;
use ticket::IPE_FORMAT_REVISION;

// None where the line is not understood, since the buffer has no such bytes.
pub(crate) fn lend(rt: &impl Print, asked: Lend, image: &[u8], buffer: &mut [u8]) -> Option<()>
    ensures { Lent asked image.now buffer.old buffer.new }
{
    let all = buffer.len();
    match asked {
        Lend::Ticket(j) => ticket(rt, image, j, all, buffer),
        Lend::TicketIn(j, size) => ticket(rt, image, j, size, buffer),
        Lend::Rest(j) => rest(rt, image, j, all, buffer),
        Lend::RestIn(j, size) => rest(rt, image, j, size, buffer),
        Lend::Buffer(size) => shown(rt, size, buffer),
    }
}

fn ticket(rt: &impl Print, image: &[u8], j: usize, size: usize, buffer: &mut [u8]) -> Option<()>
    ensures { buffer.new ≡ lent_to image.now j size buffer.old }
{
    if buffer.len() < size {
        return None;
    }
    buffer.fill(FILLING);
    told(rt, card::read_ticket(image, j, &mut buffer[..size]));
    Some(())
}

// What a read of a ticket answered: its TYP, its header, the values of its kind, and what follows from them.
fn told(rt: &impl Print, read: Result<Ticket, Refusal>) {
    match read {
        Ok(ticket) => taken(rt, ticket),
        Err(refusal) => prints::plain(rt, refusal.reason.number(), refusal.entry),
    }
}

fn taken(rt: &impl Print, t: Ticket) {
    let n = values::count(t.typ, t.header[IPE_FORMAT_REVISION]);
    let header = prints::Values(&t.header);
    let fields = prints::Values(&t.values[..n]);
    let mark = t.mark.number();
    prints::line(
        rt,
        format_args!(
            "0 0 {}{header}{fields} {} {mark} {}",
            t.typ, t.end, t.sectors
        ),
    );
}

// The part of the buffer that is handed back.
fn rest(rt: &impl Print, image: &[u8], j: usize, size: usize, buffer: &mut [u8]) -> Option<()> {
    if buffer.len() < size {
        return None;
    }
    buffer.fill(FILLING);
    rest_in(rt, image, j, &mut buffer[..size]);
    Some(())
}

fn rest_in(rt: &impl Print, image: &[u8], j: usize, buffer: &mut [u8]) {
    let part = card::rest(image, j, buffer);
    if !part.is_empty() {
        prints::line(rt, prints::Hex(part));
        return;
    }
    // By C's struct and its number: what is printed is what C is told, and `of_none` of specs/ takes that number.
    let r = Filled::from(card::fill(image, j, buffer));
    prints::line(rt, of_none(r.number));
}

// What stands for no bytes: a dash where they are refused, and where they are taken another sign.
fn of_none(number: usize) -> char
    ensures { result ≡ of_none number }
{
    if number == 0 { '=' } else { '-' }
}

// The first bytes of the buffer, as the last read left it.
fn shown(rt: &impl Print, size: usize, buffer: &[u8]) -> Option<()> {
    prints::line(rt, prints::Hex(buffer.get(..size)?));
    Some(())
}
