// Two accepted images of one shape, compared entry by entry.
ghost use Rattle.touched.specs.Together.{OneShape};

use chains::packed::{Link, Table};
use image::Measured;

// Two accepted images of one shape, but for the shell's dataset.
#[derive(Clone, Copy)]
pub struct Pair<'a, 'b> {
    pub before: Measured<'a>,
    pub after: &'b [u8],
    ghost one_shape: { OneShape before.image.now after.now before.shape },
}

impl Pair<'_, '_> {
    ghost use Rattle.std.specs.Prelude.{◌≡◌, ◌-◌, ◌≤◌, ◌&&◌, eqb, length};
    ghost use Rattle.chains.specs.Chain.{Sector};
    ghost use Rattle.chains.specs.Walk.{link};
    ghost use Rattle.image.specs.Image.{S, element, sector};
    ghost use Rattle.steps.specs.Flags.{alike, kept, flags_to};
    ghost use Rattle.touched.specs.Together.{linked, chains_same};

    // Whether sector i and its element are the same in both.
    fn same_sector(&self, i: usize) -> bool
        requires { Sector self.now.before.shape.sectors i }
        ensures { result ≡ (alike (sector self.now.before.image.now i) (sector self.now.after.now i) && eqb (element self.now.before.image.now i) (element self.now.after.now i)) }
    {
        let Measured { image, shape } = self.before;
        let from = self.before.sector_at(i);
        let to = from + shape.size;
        let before = self.before.table();
        let after = Table {
            bytes: self.after,
            place: before.place,
        };
        image[from..to] == self.after[from..to] && before.element(i) == after.element(i)
    }

    // The sector after sector i in the first one's chain; none where it ends.
    fn next(&self, i: usize) -> Option<usize>
        requires { Sector self.now.before.shape.sectors i }
        ensures { result ≡ linked (link (S self.now.before.image.now) i (element self.now.before.image.now i)) }
    {
        let x = self.before.table().element(i);
        match Link::of(self.before.shape.sectors, i, x) {
            Link::Next(y) => Some(y),
            Link::Last => None,
            Link::Broken => None,
        }
    }

    // Whether the chains from sector j on are the same in both, up to S - 3 sectors of them.
    fn same_chain(&self, j: usize) -> bool
        requires { Sector self.now.before.shape.sectors j }
        ensures { result ≡ chains_same self.now.before.image.now self.now.after.now j (self.now.before.shape.sectors - 3) }
    {
        let mut i = j;
        for _passed in 0..self.before.shape.sectors - 3 {
            if !self.same_sector(i) {
                return false;
            }
            match self.next(i) {
                Some(x) => i = x,
                None => return true,
            }
        }
        true
    }

    // Whether entry j is as it was.
    fn same_entry(&self, j: usize) -> bool
        requires { (1 ≤ j) × (j ≤ self.now.before.shape.entries) }
        ensures { result ≡ kept self.now.before.image.now self.now.after.now j }
    {
        let at = 8 * self.before.entry_at(j);
        if bits::get(self.before.image, at, 40) != bits::get(self.after, at, 40) {
            return false;
        }
        !verdict::present(&self.before, j) || self.same_chain(j)
    }

    // A flag for each entry: 1 where it is touched, else 0.
    pub fn flag(&self, flags: &mut [u8])
        requires { length flags.old ≡ self.now.before.shape.entries }
        ensures { flags.new ≡ flags_to self.now.before.image.now self.now.after.now self.now.before.shape.entries }
    {
        for (k, flag) in flags.iter_mut().enumerate() {
            *flag = u8::from(!self.same_entry(k + 1));
        }
    }
}
