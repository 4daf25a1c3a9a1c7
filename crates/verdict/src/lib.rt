// The verdict on an image: the numbers 1 to 8, 12, and 9 to 11, in this order, and, for a call on one product, 20.
#![tactic(auto)]

mod entry;
mod measure;

ghost use Rattle.std.specs.Prelude.{◌≡◌, ◌≤◌};
ghost use Rattle.rules.specs.Lowest.{lowest, some_of};
ghost use Rattle.image.specs.Image.{e#};
ghost use Rattle.image.specs.Verdict.{is_product, broken_at, shares_at};
ghost use Rattle.image.specs.Check.{check_of, checked};
ghost use Rattle.image.specs.Found.{found_of, found, last_at, count_at};
ghost use Rattle.verdict.specs.Passed.{Unsound, ended, passed, passed_of, unsound_of};

pub use entry::{accepted, kind, product};
use image::{Chain, Measured, Shape};
pub use measure::Bounded;
use rules::{Reason, Refusal};

// Whether entry j is not empty: TYP's byte is looked at first.
pub fn present(card: &Measured, j: usize) -> bool
    requires { (1 ≤ j) × (j ≤ card.now.shape.entries) }
    ensures { result ≡ is_product card.now.image.now j }
{
    let k = card.entry_at(j);
    let image = card.image;
    if image[k + 2] != 0 {
        return true;
    }
    // no early exit among the four others: fewer branches. By two loads, of four bytes and of one, an empty entry costs eight instructions more
    !((image[k] == 0) & (image[k + 1] == 0) & (image[k + 3] == 0) & (image[k + 4] == 0))
}

// 10: the lowest entry whose chain is broken. The walks together are allowed S-3 elements, which is enough since they look at no sector twice.
fn first_broken(card: &Measured) -> Option<usize>
    ensures { result ≡ some_of (lowest (e# card.now.image.now) (broken_at card.now.image.now)) }
{
    let mut owner = [0u8; 256];
    let mut left = card.shape.sectors - 3;
    for k in 1..card.shape.entries + 1 {
        if present(card, k) {
            let Some(after) = card.table().follow(k, left, &mut owner) else {
                return Some(k);
            };
            left = after;
        }
    }
    None
}

// What a pass over the chains finds of one entry, as one number, so that it is kept and answered in a register: the last sector of its chain, and 256 for each of
// its sectors; 0 where the entry is no product.
#[derive(Clone, Copy)]
struct Told(usize);

impl Told {
    ghost use Rattle.verdict.specs.Passed.{chain_told};

    // The chain, if it is a product's.
    fn chain(self) -> Option<Chain>
        ensures { result ≡ chain_told self.0 }
    {
        let last = self.0 % 256;
        if last == 0 {
            return None;
        }
        Some(Chain {
            last,
            count: self.0 / 256,
        })
    }
}

// What a pass over the chains ends with: what it found of one entry; 10 at the lowest entry whose chain is broken; or 11 at the lowest that shares. Of one number
// each: so it is answered in registers, as `Result<Told, Refusal>` is not.
#[derive(Clone, Copy)]
enum Outcome {
    Sound(Told),
    Broken(usize),
    Shares(usize),
}

impl Bounded<'_> {
    // Why the pass over the chains stops at entry k: 10 at the lowest entry whose chain is broken, else 11 at k. It reads the shape anew: handed on, its nine
    // numbers would go through memory on every card.
    fn unsound(&self, k: usize) -> Outcome
        ensures { ended result ≡ Unsound (unsound_of (lowest (e# self.now.image.now) (broken_at self.now.image.now)) k) }
    {
        match first_broken(&self.measured()) {
            Some(j) => Outcome::Broken(j),
            None => Outcome::Shares(k),
        }
    }

    // 10 and 11, in one pass over the entries; else what it finds of the entry asked for, of which 0 is none. The walks together are allowed S-3 elements, which is
    // enough while no two chains share a sector; `spare` counts one more, as an end does.
    fn pass(&self, entry: usize) -> Outcome
        ensures { ended result ≡ passed_of (lowest (e# self.now.image.now) (broken_at self.now.image.now)) (lowest (e# self.now.image.now) (shares_at self.now.image.now)) (last_at self.now.image.now entry) (count_at self.now.image.now entry) }
    {
        let card = self.measured();
        let table = card.table();
        // bytes and no bools, and 0 for no entry: the laws of this pass and of `follow` keep one kind of list, and an `Option` would be tested for each product
        let mut seen = [0u8; 256];
        let mut spare = 256 * (card.shape.sectors - 2);
        let mut told = 0;
        for k in 1..card.shape.entries + 1 {
            if present(&card, k) {
                let Some(end) = table.walk(k, spare - 256) else {
                    return self.unsound(k);
                };
                if seen[end.last] != 0 {
                    return self.unsound(k);
                }
                seen[end.last] = 1;
                if k == entry {
                    told = end.last + (spare - end.allowed);
                }
                spare = end.allowed;
            }
        }
        Outcome::Sound(Told(told))
    }

    // The same with the refusal: inlined, so that it is made in its caller's answer.
    #[inline(always)]
    fn chains(&self, entry: usize) -> Result<Told, Refusal>
        ensures { passed result ≡ passed_of (lowest (e# self.now.image.now) (broken_at self.now.image.now)) (lowest (e# self.now.image.now) (shares_at self.now.image.now)) (last_at self.now.image.now entry) (count_at self.now.image.now entry) }
    {
        match self.pass(entry) {
            Outcome::Sound(told) => Ok(told),
            Outcome::Broken(j) => Err(Reason::BrokenChain.at(j)),
            Outcome::Shares(k) => Err(Reason::SharedSector.at(k)),
        }
    }
}

// Whether an image is acceptable: the number and entry that document 01 gives, or its shape.
pub fn check(image: &[u8]) -> Result<Shape, Refusal>
    ensures { checked result ≡ check_of image.now }
{
    measure::number(image)?;
    let bounded = Bounded { image };
    bounded.chains(0)?;
    Ok(bounded.measured().shape)
}

// The product of an entry: the image's own numbers first, then 20.
pub fn find(image: &[u8], entry: usize) -> Result<Chain, Refusal>
    ensures { found result ≡ found_of image.now entry }
{
    measure::number(image)?;
    let told = Bounded { image }.chains(entry)?;
    told.chain().ok_or(Reason::NoProduct.at(entry))
}
