// The image: where each thing stands in it, the rules of document 01 in their order, and what an accepted image is. This crate holds the
// definitions, their laws, and the code of the places; `verdict` holds the code of the rules.
#![tactic(auto)]

mod measured;
mod product;

ghost use Rattle.std.specs.Prelude.{◌≡◌, ◌+◌, ◌*◌, ◌≤◌, ◌<◌};
ghost use Rattle.image.specs.Shape.{sector_place, entry_place, table_of};

use chains::Place;
pub use measured::Measured;
pub use product::Product;

// The numbers by which everything in an image is found.
#[derive(Clone, Copy)]
pub struct Shape {
    pub copy: usize,
    pub dataset: usize,
    pub size: usize,
    pub sectors: usize,
    pub entries: usize,
    pub bytes: usize,
    pub psi: usize,
    pub directory: usize,
    pub table: usize,
}

// What is found of a product: the last sector of its chain, and the number of its sectors.
#[derive(Clone, Copy)]
pub struct Chain {
    pub last: usize,
    pub count: usize,
}

// The byte where sector i starts, of sectors of `size` bytes each; past the last sector, the bytes of the whole image.
pub fn sector_from(size: usize, i: usize) -> usize
    requires { (i ≤ 255) × (size ≤ 255) }
    ensures { (result ≡ 4 + i * size) × (result < 65536) }
{
    4 + i * size
}

// The byte where sector i starts.
pub fn sector_at(g: Shape, i: usize) -> usize
    requires { (i ≤ 255) × (g.size ≤ 255) }
    ensures { result ≡ sector_place g i }
{
    sector_from(g.size, i)
}

// The byte where entry j of the directory in force starts.
pub fn entry_at(g: Shape, j: usize) -> usize
    requires { (1 ≤ j) × (j ≤ 255) × (g.directory ≤ 65536) }
    ensures { result ≡ entry_place g j }
{
    g.directory + 2 + 5 * (j - 1)
}

// Where the walks find the chain table.
pub fn table_of(g: Shape) -> Place
    requires { g.table ≤ 65536 }
    ensures { result ≡ table_of g }
{
    Place {
        first: 8 * g.table,
        psi: g.psi,
        sectors: g.sectors,
    }
}
