// Digits of four bits, up to sixteen at a time: whether they are decimal, and whether the last is their check digit.
#![tactic(auto)]

ghost use Rattle.std.specs.Prelude.{◌≡◌, ◌+◌, ◌%◌, ◌<◌, eqb};
ghost use Rattle.rules.specs.Claim.{Means};
ghost use Rattle.rules.specs.First.{holds};
ghost use Rattle.digits.specs.Digits.{decimal, digits_of, luhn};
ghost use Rattle.digits.specs.Words.{digit_bytes, added, pairs};

// Whether the digits of which v is made are decimal: one is above 9 where its bit 8 stands with its bit 4 or its bit 2.
pub fn decimal(v: u64) -> bool
    ensures { result ≡ holds (decimal 16 v) }
{
    (v & (v << 1 | v << 2) & 0x8888_8888_8888_8888) == 0
}

// Byte by byte a digit of x, and one of y doubled: the digits of a double above 9 add up to 9 less than it.
fn added(x: u64, y: u64) -> u64
    requires { Means (digit_bytes 8 x) × Means (digit_bytes 8 y) }
    ensures { result ≡ added 8 x y }
{
    let above = (y + 0x0303_0303_0303_0303) >> 3 & 0x0101_0101_0101_0101;
    x + 2 * y - 9 * above
}

// Byte by byte its second digit, and its first one doubled.
fn pairs(v: u64) -> u64
    requires { Means (decimal 16 v) }
    ensures { result ≡ pairs 8 v }
{
    added(v & 0x0f0f_0f0f_0f0f_0f0f, v >> 4 & 0x0f0f_0f0f_0f0f_0f0f)
}

// Whether the two digits of `high` and the sixteen of `low` end in their check digit: divided by 255, a word and the sum of its bytes leave the same.
// No struct of both: it would be made for this one call.
pub fn ends_right(high: u64, low: u64) -> bool
    requires { (high < 256) × Means (decimal 16 high) × Means (decimal 16 low) }
    ensures { result ≡ eqb ((luhn (digits_of 16 low) + luhn (digits_of 16 high)) % 10) 0 }
{
    (pairs(low) + pairs(high)) % 255 % 10 == 0
}
