// Writes on a product, of one field or of all: each does its own checking, and stores through the part of the image that is the product's first sector.
#![tactic(auto)]

ghost use Rattle.std.specs.Prelude.{◌≡◌, [], ◌∷◌, ◌+◌, ◌*◌, ◌≤◌, take};
ghost use Rattle.fields.specs.Lists.{list_of};
ghost use Rattle.fields.specs.Fields.{stores, shifted};
ghost use Rattle.fields.specs.Packed.{pack_number};
ghost use Rattle.rules.specs.Answer.{if_done};
ghost use Rattle.rules.specs.Reasons.{said};
ghost use Rattle.rules.specs.Refusals.{answered};
ghost use Rattle.ticket.specs.Kind.{row_of, count_of};
ghost use Rattle.ticket.specs.Memory.{own_of};
ghost use Rattle.image.specs.Image.{sector_at};
ghost use Rattle.image.specs.Shape.{Shaped};
ghost use Rattle.image.specs.Product.{product_at};
ghost use Rattle.steps.specs.Step.{write, write_all};
ghost use Rattle.steps.specs.Steps.{answer, next};
ghost use Rattle.writes.specs.Same.{same_kind};

use chains::packed::Mark;
use directory::TYP;
use fields::{MOST_VALUES, Span};
use image::{Product, Shape, sector_from};
use rules::{Reason, Refusal};
use ticket::{IPE_FORMAT_REVISION, Kind};

// Whether a product is of this TYP and revision. The numbers are compared and not the kinds: `verdict::kind` would give a product's own 23 before the 22 of a
// record of another kind.
fn is_kind(found: &Product, typ: u64, revision: u64) -> bool
    ensures { result ≡ same_kind (product_at found.now.card.image.now found.now.entry) typ revision }
{
    let t = found.entry_field(TYP);
    let f = found.header_field(IPE_FORMAT_REVISION);
    (typ == t) & (revision == f)
}

// Stores a value at a place of the product, in the part of the image that is its first sector. The shape stands beside the image, which a `Measured` would
// only look at, and the part's ends are reckoned here, since what is lent on to be written can't come from a method; so in `store_record`.
fn store_field(image: &mut [u8], g: Shape, entry: usize, p: Span, value: u64)
    requires shaped { Shaped image.old g }
    requires le { (1 ≤ entry) × (entry ≤ g.entries) × (p.1 ≤ 56) × (p.0 + p.1 ≤ 256) }
    ensures { image.new ≡ stores image.old (shifted (8 * sector_at image.old entry) (p ∷ [])) (value ∷ []) }
{
    let from = sector_from(g.size, entry);
    let to = from + g.size;
    fields::store_at(&mut image[from..to], p, value)
}

// Stores all fields of the product, in the part of the image that is its first sector; or 26, and nothing is stored.
fn store_record(
    image: &mut [u8],
    g: Shape,
    entry: usize,
    k: Kind,
    values: &[u64; MOST_VALUES],
) -> Result<(), Reason>
    requires shaped { Shaped image.old g }
    requires le { (1 ≤ entry) × (entry ≤ g.entries) }
    ensures value { said result ≡ pack_number (row_of k).layout (take (count_of (row_of k).layout) values.now) }
    ensures image_after { image.new ≡ if_done (pack_number (row_of k).layout (take (count_of (row_of k).layout) values.now)) (stores image.old (shifted (8 * sector_at image.old entry) (list_of (row_of k).layout)) (take (count_of (row_of k).layout) values.now)) image.old }
{
    let from = sector_from(g.size, entry);
    let to = from + g.size;
    k.lay(&mut image[from..to], values)
}

// Writes a field of a ticket. Refused: the image's own numbers, 20, 27, 22, 23, 25, 26. Any number may be given for a field, and 25 is promised for those that mean
// nothing.
pub fn write_field(image: &mut [u8], entry: usize, field: usize, value: u64) -> Result<(), Refusal>
    ensures { (answered result ≡ answer image.old (write entry field value)) × (image.new ≡ next image.old (write entry field value)) }
{
    let found = verdict::product(image, entry)?;
    if found.mark() == Mark::Blocked {
        return Err(Reason::Blocked.at(entry));
    }
    let kind = verdict::kind(&found)?;
    let place = ticket::check_field(kind, field, value).map_err(|reason| reason.at(entry))?;
    let shape = found.card.shape;
    store_field(image, shape, entry, place, value);
    Ok(())
}

// Writes all fields of a ticket, as a record of the TYP and revision has them, whose values are lent: copying them costs more than the rest of the
// write. Refused: the image's own numbers, 20, 27, 22, 23, 26. 27 is told here and in `write_field`, in two forms: the edits `blocked_written` and
// `blocked_field_written` each have their own place.
pub fn write_record(
    image: &mut [u8],
    entry: usize,
    typ: u64,
    revision: u64,
    values: &[u64; MOST_VALUES],
) -> Result<(), Refusal>
    ensures { (answered result ≡ answer image.old (write_all entry typ revision (own_of typ revision values.now))) × (image.new ≡ next image.old (write_all entry typ revision (own_of typ revision values.now))) }
{
    let found = verdict::product(image, entry)?;
    let mark = found.mark();
    if mark == Mark::Blocked {
        return Err(Reason::Blocked.at(entry));
    }
    if !is_kind(&found, typ, revision) {
        return Err(Reason::OtherKind.at(entry));
    }
    let kind = verdict::kind(&found)?;
    let shape = found.card.shape;
    store_record(image, shape, entry, kind, values).map_err(|reason| reason.at(entry))
}
