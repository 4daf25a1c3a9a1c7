// Copying a product's bytes to the front of a lent buffer.
ghost use Rattle.std.specs.Prelude.{◌≡◌, ◌+◌, ◌-◌, ◌*◌, ◌≤◌, length};
ghost use Rattle.bits.specs.Bits.{field, store};
ghost use Rattle.chains.specs.Chain.{Sector};
ghost use Rattle.image.specs.Image.{S, element, product};
ghost use Rattle.reads.specs.Asked.{over};

use image::{Measured, Product};

// Copies the thirty-two bytes from byte `at` on, all read before the first is written, so that the compiler moves sixteen at once.
// So a sector of 255 bytes takes 58 instructions; by `copy_from_slice` of a block 151, and by one of the whole sector, which calls memcpy, 107.
fn copy_block(from: &[u8], to: &mut [u8], at: usize)
    requires { (at + 32 ≤ length from.now) × (at + 32 ≤ length to.old) }
    ensures { to.new ≡ store to.old (8 * at) 256 (field from.now (8 * at) 256) }
{
    let a = bits::load(from, at, 8);
    let b = bits::load(from, at + 8, 8);
    let c = bits::load(from, at + 16, 8);
    let d = bits::load(from, at + 24, 8);
    bits::save(to, at, 8, a);
    bits::save(to, at + 8, 8, b);
    bits::save(to, at + 16, 8, c);
    bits::save(to, at + 24, 8, d)
}

// Copies a whole slice, of thirty-two bytes or more, onto another of its length: two blocks a turn, and then the last two, some of their bytes
// once more.
fn copy(from: &[u8], to: &mut [u8])
    requires { (length from.now ≡ length to.old) × (32 ≤ length from.now) }
    ensures { to.new ≡ from.now }
{
    let n = from.len();
    let mut i: usize = 0;
    // A `while`: a range by steps of 64 is left from two places, and what is copied is then to be shown for each.
    while i + 64 < n {
        copy_block(from, to, i);
        copy_block(from, to, i + 32);
        i += 64;
    }
    copy_block(from, to, n.saturating_sub(64));
    copy_block(from, to, n - 32)
}

// The element of sector i: a byte where it has eight bits, so that a long chain is copied in fewer instructions, and else by the one load of `Measured::element`, where
// `Table::element` takes two.
fn next(card: &Measured, i: usize) -> usize
    requires { Sector (S card.now.image.now) i }
    ensures { result ≡ element card.now.image.now i }
{
    let g = card.shape;
    if g.psi == 8 {
        return usize::from(card.image[g.table + (i - 1)]);
    }
    card.element(i)
}

// Copies a product to the front of the buffer, sector by sector in chain order. `k` counts the sectors and says where each goes: by `chunks_exact_mut` the
// product's part of the buffer would first be measured out, by a product of the two, and then be divided into sectors again.
pub fn copy_product(found: &Product, buffer: &mut [u8])
    requires { found.now.chain.count * found.now.card.shape.size ≤ length buffer.old }
    ensures { buffer.new ≡ over (product found.now.card.image.now found.now.entry) buffer.old }
{
    let size = found.card.shape.size;
    let mut i = found.entry;
    for k in 0..found.chain.count {
        let from = found.card.sector_at(i);
        let from_end = from + size;
        let to = k * size;
        let to_end = to + size;
        copy(&found.card.image[from..from_end], &mut buffer[to..to_end]);
        i = next(&found.card, i);
    }
}
