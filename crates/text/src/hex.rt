// Bytes that a command gives in hexadecimal; a dash stands for none.
ghost use Rattle.std.specs.Prelude.{◌≡◌, ◌<◌, length, take, unwrap_or, IfSome};
ghost use Rattle.text.specs.Words.{fronted, none};
ghost use Rattle.text.specs.Hex.{bytes_in, hex_count};

// How many bytes a word means, if it is hexadecimal.
pub fn count(word: &[u8]) -> Option<usize>
    ensures counted { unwrap_or result none ≡ hex_count word.now }
    ensures below { IfSome result (λ n. n < none) }
{
    if word == b"-".as_slice() {
        return Some(0);
    }
    let (pairs, left) = word.as_chunks::<2>();
    if pairs.is_empty() {
        return None;
    }
    if !left.is_empty() {
        return None;
    }
    for digits in pairs {
        crate::pair(digits[0], digits[1])?;
    }
    Some(pairs.len())
}

// Puts the bytes that a word means into the buffer, as far as both go.
pub fn read(word: &[u8], into: &mut [u8])
    ensures { into.new ≡ fronted (take (length into.old) (bytes_in word.now)) into.old }
{
    let pairs = word.as_chunks::<2>().0;
    let n = pairs.len().min(into.len());
    // By index: the wrong answers `bytes_over_the_first` and `larger_for_smaller` change the place and the number, and `zip` names neither.
    for (i, digits) in pairs[..n].iter().enumerate() {
        into[i] = crate::pair(digits[0], digits[1]).unwrap_or(0);
    }
}
