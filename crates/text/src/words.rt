// The words of a command line: which command it is, and its numbers.
ghost use Rattle.std.specs.Prelude.{◌≤◌, ◌≡◌, length, unwrap_or, IfSome};
ghost use Rattle.text.specs.Words.{word_end, after_blank, numbers_of, count_of, fronted, none};

// The most numbers that a command takes: S, a length and three hundred elements.
pub const MOST: usize = 302;

// Reads the numbers of a line, the words after its first, and counts them, if every word is a number and the list has room for them.
pub fn numbers(line: &[u8], list: &mut [u64]) -> Option<usize>
    ensures read { (unwrap_or result none ≡ count_of (length list.old) line.now) × (list.new ≡ fronted (numbers_of (length list.old) line.now) list.old) }
    ensures within { IfSome result (λ n. n ≤ length list.old) }
{
    let mut at = first(line);
    let mut count = 0;
    // A `while`, and no `split`: the laws go by places (`word_end`), and the wrong answer `blank_read_with_the_number` begins a number one place early.
    while at < line.len() {
        if count == list.len() {
            return None;
        }
        let start = at + 1;
        let end = crate::end(line, start);
        list[count] = crate::decimal(&line[start..end])?;
        count += 1;
        at = end;
    }
    Some(count)
}

// Where the first word of a line ends. A place and no slice, as `word_end` is one.
pub fn first(line: &[u8]) -> usize
    ensures { (result ≡ word_end line.now 0) × (result ≤ length line.now) }
{
    crate::end(line, 0)
}

// Where what follows the byte `at`, a blank, begins; the end of the line where there is no more. A place and no slice, as `after_blank` is one.
pub fn after(line: &[u8], at: usize) -> usize
    ensures { (result ≡ after_blank line.now at) × (result ≤ length line.now) }
{
    if at < line.len() { at + 1 } else { line.len() }
}
