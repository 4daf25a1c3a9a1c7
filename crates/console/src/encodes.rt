// Commands that encode values.
ghost use Rattle.std.specs.Prelude.{◌≡◌};
ghost use Rattle.console.specs.Commands.{numbers_from};

use crate::FILLING;
use crate::answers::encoded;
use crate::commands::{Encode, Numbers};
use card::{Answer, Encoded, Shell};
use text::prints;

// The largest buffer that a command lends.
const LENT: usize = 4096;

// None where the line is not understood. Where no array is answered C's structs stand between: what is printed is what C is told, zeros on a refusal, and
// the count beside the list.
pub(crate) fn encode(rt: &impl Print, asked: Encode, numbers: &Numbers) -> Option<()> {
    match asked {
        Encode::Entry => encoded(rt, card::encode_entry(numbers.part(0))),
        Encode::Head => encoded(rt, card::encode_head(numbers.part(0))),
        Encode::Tail => encoded(rt, card::encode_tail(numbers.part(0))),
        Encode::Header => encoded(rt, card::encode_header(numbers.part(0))),
        Encode::Ticket(typ, revision) => {
            let r = Encoded::from(card::encode_ticket(numbers.record(typ, revision, 2)));
            // By `min`: that the count is within its list is said by the definition of `encode_ticket`, and not by the type.
            let n = r.count.min(r.bytes.len());
            prints::encoded(rt, r.number, r.entry, &r.bytes[..n]);
        }
        Encode::Shell(n) => return shell(rt, shell_of(numbers), n),
        Encode::Table(s, n) => return table(rt, s, numbers.rest(2)?, n),
    }
    Some(())
}

// The shell whose values are the sixteen numbers after the first.
fn shell_of(numbers: &Numbers) -> Shell
    ensures { result.values ≡ numbers_from 16 1 numbers.now.list }
{
    Shell {
        values: numbers.part(1),
    }
}

// Into a buffer of so many bytes, if there is one.
fn shell(rt: &impl Print, t: Shell, n: usize) -> Option<()> {
    if LENT < n {
        return None;
    }
    let mut space = [FILLING; LENT];
    let buffer = &mut space[..n];
    let r = Answer::from(card::encode_shell(t, buffer));
    prints::encoded(rt, r.number, r.entry, buffer);
    Some(())
}

// The same. The elements are the numbers after S and the buffer's size.
fn table(rt: &impl Print, s: u64, elements: &[u64], n: usize) -> Option<()> {
    if LENT < n {
        return None;
    }
    let mut space = [FILLING; LENT];
    let buffer = &mut space[..n];
    let r = Answer::from(card::encode_table(s, elements, buffer));
    prints::encoded(rt, r.number, r.entry, buffer);
    Some(())
}
