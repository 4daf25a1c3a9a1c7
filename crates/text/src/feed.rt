// The lines of standard input, one at a time, each a part of a lent buffer.
ghost use Rattle.std.specs.Prelude.{◌≡◌, ◌-◌, ◌≤◌, length, replicate};
ghost use Rattle.text.specs.Lines.{at_first, line_of, moved, Reading, Turn};

use std::io::Read;

const LINE_END: u8 = b'\n';

// Room for a line and its end: a line that fills it is too long.
const ROOM: usize = 262144;

// A part of the buffer: the bytes from `start` to `end`.
#[derive(Clone, Copy)]
pub struct Span {
    pub start: usize,
    pub end: usize,
}

// What a turn leaves: where a line stands, if one is given; the bytes from `at` to `filled`, still to be looked at; whether they are the
// rest of a line too long for the buffer; whether the input has ended.
#[derive(Clone, Copy)]
pub struct Feed {
    pub line: Option<Span>,
    pub at: usize,
    pub filled: usize,
    pub passing: bool,
    pub ended: bool,
}

// A buffer to lend.
pub fn room() -> [u8; ROOM]
    ensures { result ≡ replicate 262144 0 }
{
    [0; ROOM]
}

// The line that stands there.
pub fn line(input: &[u8], at: Span) -> &[u8]
    requires { (at.start ≤ at.end) × (at.end ≤ length input.now) }
    ensures { result.now ≡ line_of input.now at }
{
    &input[at.start..at.end]
}

// Before the first turn.
pub fn none() -> Feed
    ensures { result ≡ at_first }
{
    Feed {
        line: None,
        at: 0,
        filled: 0,
        passing: false,
        ended: false,
    }
}

// Gives the next line if a whole one was read, else reads once. A line that fills the buffer is given as an empty one, and its rest is passed over.
pub fn next<R: Read>(reader: &mut R, input: &mut [u8], f: Feed) -> Feed
    ensures { Turn input.old f input.new result }
{
    let filled = f.filled.min(input.len());
    let at = f.at.min(filled);
    let end = at + crate::find(&input[at..filled], LINE_END);
    if end < filled {
        return Feed {
            line: (!f.passing).then_some(Span { start: at, end }),
            at: end + 1,
            filled,
            passing: false,
            ended: false,
        };
    }
    if f.passing {
        return more(reader, input, 0, true);
    }
    let held = shift(input, at, filled);
    if held == input.len() {
        return Feed {
            line: Some(Span { start: 0, end: 0 }),
            at: 0,
            filled: 0,
            passing: true,
            ended: false,
        };
    }
    more(reader, input, held, false)
}

// Reads once, after the bytes held; at the end of the input these are the last line.
fn more<R: Read>(reader: &mut R, input: &mut [u8], held: usize, passing: bool) -> Feed
    requires { held ≤ length input.old }
    ensures { Reading input.old held passing input.new result }
{
    let n = read(reader, &mut input[held..]);
    if n == 0 {
        return Feed {
            line: (0 < held).then_some(Span {
                start: 0,
                end: held,
            }),
            at: 0,
            filled: 0,
            passing: false,
            ended: true,
        };
    }
    Feed {
        line: None,
        at: 0,
        filled: held + n,
        passing,
        ended: false,
    }
}

// Reads once, and counts the bytes: none at the end of the input, and none where the read fails.
fn read<R: Read>(reader: &mut R, into: &mut [u8]) -> usize
    ensures { result ≤ length into.old }
{
    reader.read(into).unwrap_or(0)
}

// Moves the bytes between two places to the front, and counts them.
fn shift(input: &mut [u8], from: usize, to: usize) -> usize
    requires { (from ≤ to) × (to ≤ length input.old) }
    ensures { (result ≡ to - from) × (input.new ≡ moved from (to - from) input.old) }
{
    let n = to - from;
    // By index: the wrong answer `first_byte_moved_again` changes one byte's place, and `copy_within` names none.
    for i in 0..n {
        input[i] = input[from + i];
    }
    n
}
