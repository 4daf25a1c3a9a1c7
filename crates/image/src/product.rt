// A product of an accepted image, and what its entry, its first sector and its chain say.
ghost use Rattle.std.specs.Prelude.{◌≡◌, true, length};
ghost use Rattle.chains.specs.Chain.{last_of};
ghost use Rattle.image.specs.Image.{sectors};
ghost use Rattle.image.specs.Verdict.{is_product, verdict};

use crate::{Chain, Measured};
use chains::packed::Mark;

// An entry that is a product, with what was found of its chain.
#[derive(Clone, Copy)]
pub struct Product<'a> {
    pub card: Measured<'a>,
    pub entry: usize,
    pub chain: Chain,
    ghost accepted: { (verdict card.image.now).number ≡ 0 },
    ghost is_there: { is_product card.image.now entry ≡ true },
    ghost last_is: { chain.last ≡ last_of (sectors card.image.now entry) },
    ghost count_is: { chain.count ≡ length (sectors card.image.now entry) },
}

impl<'a> Product<'a> {
    ghost use Rattle.std.specs.Prelude.{◌<◌, drop};
    ghost use Rattle.chains.specs.Ended.{mark_number};
    ghost use Rattle.fields.specs.declared.Layout.TheVariants as layout;
    ghost use Rattle.fields.specs.Fields.{value_at};
    ghost use Rattle.image.specs.Image.{entry_at, mark, product};

    // The field i of its entry.
    pub fn entry_field(&self, i: usize) -> u64
        requires { i < 7 }
        ensures { result ≡ value_at layout.Entry i (drop (entry_at self.now.card.image.now self.now.entry) self.now.card.image.now) }
    {
        self.card.entry_field(self.entry, i)
    }

    // The field i of its header.
    pub fn header_field(&self, i: usize) -> u64
        requires { i < 3 }
        ensures { result ≡ value_at layout.Header i (product self.now.card.image.now self.now.entry) }
    {
        self.card.header_field(self.entry, i)
    }

    // Its size in bytes.
    pub fn size(&self) -> usize
        ensures { result ≡ length (product self.now.card.image.now self.now.entry) }
    {
        self.chain.count * self.card.shape.size
    }

    // Its mark.
    pub fn mark(&self) -> Mark
        ensures { mark_number result ≡ mark self.now.card.image.now self.now.entry }
    {
        self.card.mark(self.chain.last)
    }
}
