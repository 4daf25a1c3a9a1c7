// Commands on bytes that a line gives in hexadecimal: those of a test program.
ghost use Rattle.std.specs.Prelude.{◌≡◌, ◌≤◌, length, take, drop, eqb, replicate, is_some, IfSome, option_map};
ghost use Rattle.text.specs.Numbers.{number_of};
ghost use Rattle.text.specs.Words.{word_end, after_blank};
ghost use Rattle.text.specs.Hex.{hex_count};
ghost use Rattle.console.specs.Makes.{filled_by};

use crate::commands::Decode;
use crate::{looks, values};
use card::{Decoded, Elements};
use text::{hex, prints, words};

// The most bytes that a line gives.
const MOST_BYTES: usize = 70000;

// `rest` is what stands after the word and a blank; None where it is not understood. Where a record or a list is printed C's structs stand between: what is
// printed is what C is told, zeros on a refusal, and the count beside the list.
pub(crate) fn decode(rt: &impl Print, asked: Decode, rest: &[u8]) -> Option<()> {
    match asked {
        Decode::Crc => return crc(rt, rest),
        Decode::Entry => decoded(rt, card::decode_entry(exactly(rest)?).values),
        Decode::Head => decoded(rt, card::decode_head(exactly(rest)?).values),
        Decode::Tail => decoded(rt, card::decode_tail(exactly(rest)?).values),
        Decode::Header => decoded(rt, card::decode_header(exactly(rest)?).values),
        Decode::Ticket => return ticket(rt, rest),
        Decode::Shell => decoded(rt, card::decode_shell(exactly(rest)?).values),
        Decode::Table => return table(rt, rest),
    }
    Some(())
}

// The values that were decoded.
fn decoded<const N: usize>(rt: &impl Print, values: [u64; N]) {
    prints::valued(rt, 0, 0, &values);
}

// The bytes that a word means, if they are so many.
fn exactly<const N: usize>(word: &[u8]) -> Option<[u8; N]>
    ensures many { is_some result ≡ eqb (hex_count word.now) N }
    ensures value { IfSome result (λ bytes. bytes ≡ filled_by word.now (replicate N 0)) }
{
    let mut bytes = [0u8; N];
    if hex::count(word) != Some(N) {
        return None;
    }
    hex::read(word, &mut bytes);
    Some(bytes)
}

// How many bytes a word means, if a line may give so many.
fn many(word: &[u8]) -> Option<usize>
    ensures { IfSome result (λ n. n ≤ 70000) }
{
    hex::count(word).filter(|n| *n <= MOST_BYTES)
}

fn crc(rt: &impl Print, word: &[u8]) -> Option<()> {
    let n = many(word)?;
    let mut bytes = [0u8; MOST_BYTES];
    hex::read(word, &mut bytes);
    prints::line(rt, crc::crc(&bytes[..n]));
    Some(())
}

// TYP, the revision, and the bytes of the record.
fn ticket(rt: &impl Print, words: &[u8]) -> Option<()> {
    let (typ, words) = first_number(words)?;
    let (revision, word) = first_number(words)?;
    hex::count(word).filter(|n| values::are_bytes(typ, revision, *n))?;
    let mut bytes = [0u8; fields::MOST_BYTES];
    hex::read(word, &mut bytes);
    let r = Decoded::from(card::decode_ticket(typ, revision, bytes));
    values::told(rt, r.number, r.entry, r.next);
    Some(())
}

// What a line begins with, if that is a number; and what follows the word and a blank.
fn first_number(line: &[u8]) -> Option<(u64, &[u8])>
    ensures number { option_map (λ lead. lead.0) result ≡ number_of (take (word_end line.now 0) line.now) }
    ensures left { IfSome result (λ lead. lead.1.now ≡ drop (after_blank line.now (word_end line.now 0)) line.now) }
{
    let end = words::first(line);
    let number = text::decimal(&line[..end])?;
    let start = words::after(line, end);
    Some((number, &line[start..]))
}

// S, and the bytes of the table.
fn table(rt: &impl Print, words: &[u8]) -> Option<()> {
    let (s, word) = first_number(words)?;
    let n = many(word)?;
    let mut bytes = [0u8; MOST_BYTES];
    hex::read(word, &mut bytes);
    let r = Elements::from(card::decode_table(s, &bytes[..n]));
    looks::counted(rt, r.number, r.entry, r.elements, r.count);
    Some(())
}
