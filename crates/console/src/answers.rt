// What a call answered, on standard output: the number and the entry, zeros where it is taken; and values, zeros where it is refused.
ghost use Rattle.std.specs.Prelude.{◌≡◌, replicate};
ghost use Rattle.std.specs.Result.{result_unwrap_or};
ghost use Rattle.rules.specs.Answer.{says};
ghost use Rattle.rules.specs.Reasons.{said};
ghost use Rattle.rules.specs.Refusals.{answered};

use card::{Answer, Reason, Refusal};
use text::prints;

// The number and the entry alone.
pub(crate) fn plain<T: Drop>(rt: &impl Print, done: Result<T, Refusal>) {
    let Answer { number, entry } = Answer::from(done);
    prints::plain(rt, number, entry);
}

// With values.
pub(crate) fn valued<const N: usize>(rt: &impl Print, done: Result<[u64; N], Refusal>) {
    let (Answer { number, entry }, values) = with_values(done);
    prints::valued(rt, number, entry, &values);
}

// With bytes; the refusal names no entry.
pub(crate) fn encoded<const N: usize>(rt: &impl Print, done: Result<[u8; N], Reason>) {
    let (Answer { number, entry }, bytes) = with_bytes(done);
    prints::encoded(rt, number, entry, &bytes);
}

// What is printed of values.
fn with_values<const N: usize>(done: Result<[u64; N], Refusal>) -> (Answer, [u64; N])
    ensures { (result.0 ≡ answered done.entry) × (result.1 ≡ result_unwrap_or done.entry (replicate N 0)) }
{
    let (number, entry, values) = match done {
        Ok(values) => (0, 0, values),
        Err(refusal) => (refusal.reason.number(), refusal.entry, [0; N]),
    };
    (Answer { number, entry }, values)
}

// What is printed of bytes.
fn with_bytes<const N: usize>(done: Result<[u8; N], Reason>) -> (Answer, [u8; N])
    ensures { (result.0 ≡ says (said done.entry) 0) × (result.1 ≡ result_unwrap_or done.entry (replicate N 0)) }
{
    let (number, bytes) = match done {
        Ok(bytes) => (0, bytes),
        Err(reason) => (reason.number(), [0; N]),
    };
    (Answer { number, entry: 0 }, bytes)
}
