// Which entries differ between two images.
#![tactic(auto)]

mod pair;

ghost use Rattle.std.specs.Prelude.{◌≡◌, length};
ghost use Rattle.rules.specs.First.{first};
ghost use Rattle.rules.specs.Reasons.{said};
ghost use Rattle.rules.specs.Refusals.{answered};
ghost use Rattle.steps.specs.Flags.{touched_answer, touched_flags};
ghost use Rattle.touched.specs.Together.{shape_rules};

use image::Shape;
use pair::Pair;
use rules::{Reason, Refusal, need};

// 90 and 91.
#[tactic(auto, using(std::proofs::lemmas::Bool::Decides::nat_tests), unfolding(rules::specs::First::first))]
fn compare_shapes(g: &Shape, h: &Shape, flags: usize) -> Result<(), Reason>
    ensures { said result ≡ first (shape_rules g.now h.now flags) }
{
    if h.sectors != g.sectors || h.size != g.size || h.entries != g.entries || h.copy != g.copy {
        return Err(Reason::OtherShape);
    }
    need(Reason::WrongFlags, flags == g.entries)
}

// Which entries differ between two images: flag j - 1 is 1 where entry j is touched, else 0. Refused: the first image's own numbers, the second's,
// 90 (images of another S, B, e# or copy), 91 (flags that are not e# bytes); the flags are then as they were.
pub fn touched(before: &[u8], after: &[u8], flags: &mut [u8]) -> Result<(), Refusal>
    ensures { (answered result ≡ touched_answer before.now after.now (length flags.old)) × (flags.new ≡ touched_flags before.now after.now flags.old) }
{
    let before = verdict::accepted(before)?;
    compare_shapes(&before.shape, &verdict::check(after)?, flags.len())?;
    Pair { before, after }.flag(flags);
    Ok(())
}
