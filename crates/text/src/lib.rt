// Text: the words and numbers of a line, answers on standard output, and the lines of standard input.
#![tactic(auto)]

pub mod feed;
pub mod hex;
pub mod prints;
pub mod words;

ghost use Rattle.std.specs.Prelude.{◌≡◌, ◌==◌, position, ◌+◌, ◌≤◌, ◌<◌, length, unwrap_or, IfSome};
ghost use Rattle.text.specs.Bytes.{index_of};
ghost use Rattle.text.specs.Words.{word_end};
ghost use Rattle.text.specs.Numbers.{number_of};
ghost use Rattle.text.specs.Hex.{meant, pair_of};
ghost use Rattle.text.specs.Written.{written, next};

const BLANK: u8 = b' ';

// The end of the word that starts at byte `at`.
pub fn end(line: &[u8], at: usize) -> usize
    requires { at ≤ length line.now }
    ensures { (result ≡ word_end line.now at) × (at ≤ result) × (result ≤ length line.now) }
{
    at + find(&line[at..], BLANK)
}

// The place of the first byte `b`, and the length where there is none.
fn find(s: &[u8], b: u8) -> usize
    ensures { (result ≡ index_of b s.now) × (result ≤ length s.now) }
{
    place(s, b).unwrap_or(s.len())
}

// The same, if there is one.
fn place(s: &[u8], b: u8) -> Option<usize>
    ensures { result ≡ position (λ x. x == b) s.now }
{
    s.iter().position(|x| *x == b)
}

// The number that a word of digits means, if it means one. By hand, since `parse` takes a plus sign too.
pub fn decimal(word: &[u8]) -> Option<u64>
    ensures { result ≡ number_of word.now }
{
    if word.is_empty() {
        return None;
    }
    let mut n: u64 = 0;
    for &b in word {
        let b'0'..=b'9' = b else {
            return None;
        };
        let digit = b - b'0';
        let d = u64::from(digit);
        if (u64::MAX - d) / 10 < n {
            return None;
        }
        n = n * 10 + d;
    }
    Some(n)
}

// What a hexadecimal digit means, if it is one.
fn digit(b: u8) -> Option<u8>
    ensures meant { unwrap_or result 16 ≡ meant b }
    ensures below { IfSome result (λ d. d < 16) }
{
    match b {
        b'0'..=b'9' => Some(b - b'0'),
        b'a'..=b'f' => Some(b - b'a' + 10),
        _ => None,
    }
}

// The byte that two hexadecimal digits mean, if they mean one.
pub fn pair(a: u8, b: u8) -> Option<u8>
    ensures { result ≡ pair_of a b }
{
    let high = digit(a)?;
    let low = digit(b)?;
    Some(16 * high + low)
}

// Writes the text from byte `at` on, where it fits, and gives the place after it.
pub fn put(out: &mut [u8], at: usize, text: &[u8]) -> usize
    ensures { (result ≡ next out.old at text.now) × (out.new ≡ written out.old at text.now) }
{
    let n = text.len();
    if out.len() < at {
        return at;
    }
    if out.len() - at < n {
        return at;
    }
    let end = at + n;
    out[at..end].copy_from_slice(text);
    end
}
