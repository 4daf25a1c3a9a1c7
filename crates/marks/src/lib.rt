// The mark of a product's chain: does its own checking, and stores through the part of the image that is the directory sector in force.
#![tactic(auto)]

ghost use Rattle.std.specs.Prelude.{◌≡◌, ◌-◌, ◌≤◌};
ghost use Rattle.bits.specs.Bits.{store};
ghost use Rattle.chains.specs.Chain.{Sector};
ghost use Rattle.chains.specs.Psi.{Ψ};
ghost use Rattle.image.specs.Image.{S};
ghost use Rattle.image.specs.Shape.{Shaped};
ghost use Rattle.image.specs.Product.{element_at};
ghost use Rattle.rules.specs.Refusals.{answered};
ghost use Rattle.steps.specs.Step.{set_mark};
ghost use Rattle.steps.specs.Steps.{answer, next};

use chains::Place;
use image::Shape;
use rules::{Reason, Refusal};

// Stores the element of a chain's last sector, in the part of the image that is the directory sector in force. The shape stands beside the image, which a
// `Measured` would only look at.
fn store_mark(image: &mut [u8], g: Shape, last: usize, mark: usize)
    requires shaped { Shaped image.old g }
    requires sector { Sector g.sectors last }
    requires le_mark { (1 ≤ mark) × (mark ≤ 2) }
    ensures { image.new ≡ store image.old (element_at image.old last) (Ψ (S image.old)) (S image.old - mark) }
{
    let size = g.size;
    let from = g.directory;
    let to = from + size;
    let table = Place {
        first: 16 + 40 * g.entries,
        psi: g.psi,
        sectors: g.sectors,
    };
    table.put(&mut image[from..to], last, g.sectors - mark)
}

// Marks a product's chain: 1 for used, 2 for blocked. Refused: the image's own numbers, 20, 28, 27. Any number may be given, and 28 is promised for those that
// mean nothing: a narrower type asks more of callers.
pub fn mark(image: &mut [u8], entry: usize, mark: usize) -> Result<(), Refusal>
    ensures { (answered result ≡ answer image.old (set_mark entry mark)) × (image.new ≡ next image.old (set_mark entry mark)) }
{
    let found = verdict::product(image, entry)?;
    if mark < 1 || 2 < mark {
        return Err(Reason::NoMark.at(entry));
    }
    let last = found.chain.last;
    let link = found.card.element(last);
    let shape = found.card.shape;
    // by the numbers that the table holds, of which the mark asked for is one; a mark that is there already is not stored again
    if link == shape.sectors - mark {
        return Ok(());
    }
    if link == shape.sectors - 2 {
        return Err(Reason::Blocked.at(entry));
    }
    store_mark(image, shape, last, mark);
    Ok(())
}
