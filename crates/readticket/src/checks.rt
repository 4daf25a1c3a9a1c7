// The checks of a ticket read: 21, 22, 23 in this order, after the image's own and 20.
ghost use Rattle.std.specs.Prelude.{◌≡◌};
ghost use Rattle.readticket.specs.Checks.{stated_in, judged, judged_in};

use chains::packed::Mark;
use directory::{EXP, TYP};
use image::Product;
use rules::{Reason, Refusal};
use ticket::{IPE_BIT_MAP, IPE_FORMAT_REVISION, IPE_LENGTH, Kind};

// What an entry states of its product, TYP and EXP; and what the product's first sector does, its header's three values.
#[derive(Clone, Copy)]
pub struct Stated {
    pub typ: u64,
    pub day: u64,
    pub blocks: u64,
    pub map: u64,
    pub revision: u64,
}

fn stated_of(found: &Product) -> Stated
    ensures { result ≡ stated_in found.now.card.image.now found.now.entry }
{
    Stated {
        typ: found.entry_field(TYP),
        day: found.entry_field(EXP),
        blocks: found.header_field(IPE_LENGTH),
        map: found.header_field(IPE_BIT_MAP),
        revision: found.header_field(IPE_FORMAT_REVISION),
    }
}

// A ticket that has passed the checks: what is stated of it, its kind, the length of its chain, and its mark.
#[derive(Clone, Copy)]
pub struct Sound {
    pub stated: Stated,
    pub kind: Kind,
    pub sectors: usize,
    pub mark: Mark,
}

// 21, and then 22 and 23, of a product that was found.
pub fn judge(found: &Product, room: usize) -> Result<Sound, Refusal>
    ensures { judged result ≡ judged_in found.now.card.image.now found.now.entry room }
{
    let size = found.size();
    if room < size {
        return Err(Reason::WrongRoom.at(found.entry));
    }
    let kind = verdict::kind(found)?;
    Ok(Sound {
        stated: stated_of(found),
        kind,
        sectors: found.chain.count,
        mark: found.mark(),
    })
}
