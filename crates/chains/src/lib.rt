// The sector chain table: its size and place, and the walks over it, wherever it stands in a slice. From u32 or u64, and to a narrower type, there is no `From`:
// what `as` takes is below 256.
#![tactic(auto)]

pub mod packed;

ghost use Rattle.std.specs.Prelude.{◌≡◌, ◌≤◌};
ghost use Rattle.bits.specs.Bits.{store};
ghost use Rattle.chains.specs.Chain.{Sector};
ghost use Rattle.chains.specs.Psi.{Ψ, table_bytes};
ghost use Rattle.chains.specs.Ended.{mark_number};
ghost use Rattle.chains.specs.Packed.{Inside, element_at, mark_said};

use packed::Mark;

// Where a chain table lies: the bit where it starts, the bits of an element, and the number of sectors.
#[derive(Clone, Copy)]
pub struct Place {
    pub first: usize,
    pub psi: usize,
    pub sectors: usize,
}

impl Place {
    // Stores the low digits of x as the element of sector i, and not a bit beside it.
    pub fn put(self, bytes: &mut [u8], i: usize, x: usize)
        requires inside { Inside bytes.old self }
        requires sector { Sector self.sectors i }
        ensures { bytes.new ≡ store bytes.old (element_at self.first self.psi i) self.psi x }
    {
        bits::put(bytes, self.first + self.psi * (i - 1), self.psi, x as u64)
    }
}

// Ψ, from the leading zeros of s - 1.
pub fn psi(s: usize) -> usize
    requires { (4 ≤ s) × (s ≤ 255) }
    ensures { (result ≡ Ψ s) × (result ≤ 8) }
{
    let below = s as u32 - 1;
    (32 - u32::leading_zeros(below)) as usize
}

// SCTL, the bytes of the table of s sectors.
pub fn table_bytes(s: usize) -> usize
    requires { s ≤ 255 }
    ensures { result ≡ table_bytes s }
{
    if s < 4 {
        return 0;
    }
    (psi(s) * (s - 3)).div_ceil(8)
}

// The mark of the element x, which ends a chain at sector i of s. No method: crate card passes the enum on, and a published call asks nothing.
pub fn mark_of(s: usize, i: usize, x: usize) -> Mark
    requires { 1 ≤ s }
    ensures { mark_number result ≡ mark_said s i x }
{
    if x == i {
        return Mark::Fresh;
    }
    if x == s - 1 {
        Mark::Used
    } else {
        Mark::Blocked
    }
}
