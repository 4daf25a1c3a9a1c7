// What is found of an image, as a value that keeps it: an accepted image and its shape; the product of an entry, after 20; and its kind, after 22 and 23.
ghost use Rattle.std.specs.Prelude.{◌≡◌, IfOk};
ghost use Rattle.image.specs.Check.{check_of};
ghost use Rattle.image.specs.Found.{found_of};
ghost use Rattle.image.specs.Product.{product_at};
ghost use Rattle.verdict.specs.Products.{measured_checked, product_found, kind_found, kind_in};

use crate::Bounded;
use directory::TYP;
use image::{Measured, Product};
use rules::{Reason, Refusal};
use ticket::{IPE_FORMAT_REVISION, IPE_LENGTH, Kind};

// An accepted image, with its shape. This and the two calls below are inlined: what they answer is many words, which are taken apart again and so go through no
// memory.
#[inline(always)]
pub fn accepted(image: &[u8]) -> Result<Measured<'_>, Refusal>
    ensures checked { measured_checked result ≡ check_of image.now }
    ensures asked { IfOk result (λ m. m.image.now ≡ image.now) }
{
    let shape = crate::check(image)?;
    Ok(Measured { image, shape })
}

// The product of an entry: the image's own numbers first, then 20.
#[inline(always)]
pub fn product(image: &[u8], entry: usize) -> Result<Product<'_>, Refusal>
    ensures found { product_found result ≡ found_of image.now entry }
    ensures asked { IfOk result (λ p. (p.card.image.now ≡ image.now) × (p.entry ≡ entry)) }
{
    let chain = crate::find(image, entry)?;
    let card = Bounded { image }.measured();
    Ok(Product { card, entry, chain })
}

// The kind of a product: 22, then 23. From u64 there is no `From`; IPELength has six bits.
#[inline(always)]
pub fn kind(found: &Product) -> Result<Kind, Refusal>
    ensures { kind_found result ≡ kind_in (product_at found.now.card.image.now found.now.entry) found.now.entry }
{
    let typ = found.entry_field(TYP);
    let revision = found.header_field(IPE_FORMAT_REVISION);
    let Some(kind) = ticket::check_form(typ, revision) else {
        return Err(Reason::OtherKind.at(found.entry));
    };
    let blocks = found.header_field(IPE_LENGTH);
    let Some(_) = ticket::check_extent(kind, blocks as usize, found.size()) else {
        return Err(Reason::WrongExtent.at(found.entry));
    };
    Ok(kind)
}
