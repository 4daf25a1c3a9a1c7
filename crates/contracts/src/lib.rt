// What the contracts are worth: no published call asks anything first, and none leaves a choice (proofs/Once, and OnceC for C). Its code holds the two names of
// crate `card` that the C library has not to their contracts: calls, and nothing but calls.
#![tactic(auto)]

ghost use Rattle.std.specs.Prelude.{◌≡◌, ◌+◌, length};
ghost use Rattle.image.specs.Check.{check_of, checked};
ghost use Rattle.reads.specs.Ticket.{rest, rest_at};

use card::{Refusal, Shape};

// Whether an image is accepted, and its shape.
pub fn check(image: &[u8]) -> Result<Shape, Refusal>
    ensures { checked result ≡ check_of image.now }
{
    card::check(image)
}

// The part of a buffer that holds the dataset bytes after the fixed fields.
pub fn rest<'a>(image: &[u8], entry: usize, buffer: &'a mut [u8]) -> &'a mut [u8]
    ensures result_value { result.now ≡ rest image.now entry (length buffer.old) }
    ensures ref_ptr_value { (result.ref_ptr.0 ≡ buffer.entry.ref_ptr.0) × (result.ref_ptr.1 ≡ rest_at image.now entry (length buffer.old) + buffer.entry.ref_ptr.1) }
{
    card::rest(image, entry, buffer)
}
