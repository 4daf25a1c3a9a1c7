// An image with the numbers by which everything in it is found, and what stands where by them.
// The number of a sector or of an entry is bounded by a `requires`, here and above: as a type of its own it would carry the image's S, be made of each element
// that is read, and be taken apart again for C and for the specification, and so be no plainer.
ghost use Rattle.image.specs.Shape.{Shaped};

use crate::{Shape, sector_from};
use chains::packed::{Mark, Table};
use chains::{Place, mark_of};
use fields::Layout;

// An image that keeps the rules 1 to 6, and its shape.
#[derive(Clone, Copy)]
pub struct Measured<'a> {
    pub image: &'a [u8],
    pub shape: Shape,
    ghost shaped: { Shaped image.now shape },
}

impl<'a> Measured<'a> {
    ghost use Rattle.std.specs.Prelude.{◌≡◌, ◌≤◌, ◌<◌, drop};
    ghost use Rattle.chains.specs.Chain.{Sector};
    ghost use Rattle.chains.specs.Ended.{mark_number};
    ghost use Rattle.chains.specs.Packed.{mark_said};
    ghost use Rattle.fields.specs.declared.Layout.TheVariants as layout;
    ghost use Rattle.fields.specs.Fields.{value_at};
    ghost use Rattle.image.specs.Facts.{Present};
    ghost use Rattle.image.specs.Image.{S, element, entry_at, product};
    ghost use Rattle.image.specs.Shape.{entry_place, sector_place, table_of};

    // Here and in the two below by its own numbers: handed to the functions of any shape, the nine of them cost three instructions an empty entry.
    // The byte where sector i starts.
    pub fn sector_at(&self, i: usize) -> usize
        requires { i ≤ 255 }
        ensures { result ≡ sector_place self.now.shape i }
    {
        sector_from(self.shape.size, i)
    }

    // The byte where entry j of the directory in force starts.
    pub fn entry_at(&self, j: usize) -> usize
        requires { (1 ≤ j) × (j ≤ 255) }
        ensures { result ≡ entry_place self.now.shape j }
    {
        self.shape.directory + 2 + 5 * (j - 1)
    }

    // The chain table, where the walks find it.
    pub fn table(&self) -> Table<'a>
        ensures bytes { result.bytes.now ≡ self.now.image.now }
        ensures place { result.place ≡ table_of self.now.shape }
    {
        let place = Place {
            first: 8 * self.shape.table,
            psi: self.shape.psi,
            sectors: self.shape.sectors,
        };
        Table {
            bytes: self.image,
            place,
        }
    }

    // The element of sector i. Four bytes are read, since fourteen or more follow the table; moved up and then down they leave the element. Its plain
    // form is `Table::element`. From u64 or to a narrower type there is no `From`; each `as` is bounded by what is read.
    pub fn element(&self, i: usize) -> usize
        requires { Sector (S self.now.image.now) i }
        ensures { result ≡ element self.now.image.now i }
    {
        let g = self.shape;
        let first = g.psi * (i - 1);
        let four = bits::load(self.image, g.table + first / 8, 4) as u32;
        ((four << (first % 8)) >> (32 - g.psi)) as usize
    }

    // The mark of a chain that ends in sector `last`.
    pub fn mark(&self, last: usize) -> Mark
        requires { Sector (S self.now.image.now) last }
        ensures { mark_number result ≡ mark_said (S self.now.image.now) last (element self.now.image.now last) }
    {
        mark_of(self.shape.sectors, last, self.element(last))
    }

    // The field i of entry j.
    pub fn entry_field(&self, j: usize, i: usize) -> u64
        requires { (1 ≤ j) × (j ≤ self.now.shape.entries) × (i < 7) }
        ensures { result ≡ value_at layout.Entry i (drop (entry_at self.now.image.now j) self.now.image.now) }
    {
        let at = self.entry_at(j);
        fields::at(&self.image[at..], fields::place(Layout::Entry, i))
    }

    // The field i of product j's header.
    pub fn header_field(&self, j: usize, i: usize) -> u64
        requires present { Present self.now.image.now j }
        requires i_bound { i < 3 }
        ensures { result ≡ value_at layout.Header i (product self.now.image.now j) }
    {
        let at = self.sector_at(j);
        fields::at(&self.image[at..], fields::place(Layout::Header, i))
    }
}
