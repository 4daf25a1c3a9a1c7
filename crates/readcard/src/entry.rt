// Reading one entry, and its chain.
ghost use Rattle.std.specs.Prelude.{◌≡◌, ◌≤◌, length};
ghost use Rattle.image.specs.Image.{sectors};
ghost use Rattle.reads.specs.Asked.{over};
ghost use Rattle.reads.specs.Entry.{read_entry, read_chain};
ghost use Rattle.reads.specs.Given.{entry_given, chain_given};

use fields::Layout;
use image::Product;
use reads::ChainSectors;
use rules::Refusal;

pub fn read_entry(image: &[u8], entry: usize) -> Result<[u64; 7], Refusal>
    ensures { entry_given result ≡ read_entry image.now entry }
{
    let found = verdict::product(image, entry)?;
    let at = found.card.entry_at(entry);
    Ok(fields::unpacked::<7>(Layout::Entry, &image[at..]))
}

// Lists the sectors of a product's chain at the front of `out`. To a narrower type there is no `From`; the `as` is bounded, since a sector is a byte.
fn list_sectors(found: &Product, out: &mut [u8])
    requires { found.now.chain.count ≤ length out.old }
    ensures { out.new ≡ over (sectors found.now.card.image.now found.now.entry) out.old }
{
    let t = found.card.table();
    let mut i = found.entry;
    for sector in &mut out[..found.chain.count] {
        *sector = i as u8;
        i = t.element(i);
    }
}

pub fn read_chain(image: &[u8], entry: usize) -> Result<ChainSectors, Refusal>
    ensures { chain_given result ≡ read_chain image.now entry }
{
    let found = verdict::product(image, entry)?;
    let mut sectors = [0u8; 252];
    list_sectors(&found, &mut sectors);
    Ok(ChainSectors {
        mark: found.mark(),
        count: found.chain.count,
        sectors,
    })
}
