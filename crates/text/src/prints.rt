// Answers on standard output, each line by one call; where output fails, the program goes on.
ghost use Rattle.std.specs.Prelude.{◌≡◌, ◌*◌, ◌<◌, ◌≤◌, length, Some};
ghost use Rattle.io.specs.Digits.{hex_digit_ascii};
ghost use Rattle.text.specs.Printed.{each_spelled, pairs_spelled, bytes_spelled};

use std::{fmt, str};

// Values, each after a blank.
#[derive(Drop)]
pub struct Values<'a>(pub &'a [u64]);

impl fmt::Display for Values<'_> {
    ghost output = { λ x. Some (each_spelled x.0.now) };

    fn fmt<W: fmt::Write>(&self, f: &mut fmt::Formatter<W>) -> fmt::Result {
        for &n in self.0 {
            write!(f, " {n}")?;
        }
        Ok(())
    }
}

// Small values, such as sectors, each after a blank.
#[derive(Drop)]
pub struct Small<'a>(pub &'a [u8]);

impl fmt::Display for Small<'_> {
    ghost output = { λ x. Some (each_spelled x.0.now) };

    fn fmt<W: fmt::Write>(&self, f: &mut fmt::Formatter<W>) -> fmt::Result {
        for &b in self.0 {
            write!(f, " {b}")?;
        }
        Ok(())
    }
}

// Bytes in hexadecimal, `-` where there are none.
#[derive(Drop)]
pub struct Hex<'a>(pub &'a [u8]);

// How many bytes of them are written at once.
const PART: usize = 64;

impl fmt::Display for Hex<'_> {
    ghost output = { λ x. Some (bytes_spelled x.0.now) };

    fn fmt<W: fmt::Write>(&self, f: &mut fmt::Formatter<W>) -> fmt::Result {
        if self.0.is_empty() {
            return write!(f, "-");
        }
        let mut space = [0u8; 2 * PART];
        for part in self.0.chunks(PART) {
            f.write_str(spell(part, &mut space))?;
        }
        Ok(())
    }
}

// The digits of bytes, put at the front of the space.
fn spell<'a>(bytes: &[u8], space: &'a mut [u8]) -> &'a str
    requires { 2 * length bytes.now ≤ length space.old }
    ensures { result.now ≡ pairs_spelled bytes.now }
{
    for (i, &b) in bytes.iter().enumerate() {
        space[2 * i] = glyph(b / 16);
        space[2 * i + 1] = glyph(b % 16);
    }
    let Ok(digits) = str::from_utf8(&space[..2 * bytes.len()]) else {
        unreachable!();
    };
    digits
}

// The digit of a number below 16.
fn glyph(d: u8) -> u8
    requires { d < 16 }
    ensures { result ≡ hex_digit_ascii d }
{
    if d < 10 { b'0' + d } else { b'a' - 10 + d }
}

// A line.
pub fn line<R: Print, D: fmt::Display + Drop>(rt: &R, text: D) {
    let _ = rt.println(text);
}

// The answer to a line that is not understood.
pub fn unknown<R: Print>(rt: &R) {
    line(rt, "?");
}

// A whole answer: the number and the entry. This and the two below take them apart, since this crate stands on none of the card, and so has no `Refusal`.
pub fn plain<R: Print>(rt: &R, number: usize, entry: usize) {
    line(rt, format_args!("{number} {entry}"));
}

// A whole answer: the number, the entry and values.
pub fn valued<R: Print>(rt: &R, number: usize, entry: usize, list: &[u64]) {
    line(rt, format_args!("{number} {entry}{}", Values(list)));
}

// A whole answer: the number, the entry and bytes.
pub fn encoded<R: Print>(rt: &R, number: usize, entry: usize, list: &[u8]) {
    line(rt, format_args!("{number} {entry} {}", Hex(list)));
}
