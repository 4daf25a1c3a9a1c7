// Reading the card: its shell, its directory and its chain table, and in `entry` one entry and its chain. Each call checks the image itself.
#![tactic(auto)]

mod entry;

ghost use Rattle.std.specs.Prelude.{◌≡◌, ◌++◌, ◌+◌, ◌-◌, ◌≤◌, length, drop};
ghost use Rattle.fields.specs.Fields.{fields};
ghost use Rattle.fields.specs.Lists as lists;
ghost use Rattle.reads.specs.Asked.{over};
ghost use Rattle.reads.specs.Card.{elements, read_shell, read_directory, read_table};
ghost use Rattle.reads.specs.Given.{shell_given, directory_given, table_given};

pub use entry::{read_chain, read_entry};
use fields::Layout;
use image::Measured;
use rules::Refusal;
use table::Table;

pub fn read_shell(image: &[u8]) -> Result<[u64; 16], Refusal>
    ensures { shell_given result ≡ read_shell image.now }
{
    verdict::check(image)?;
    let shell = shell::shell_in(&image[4..]);
    let values = shell.values;
    Ok(values)
}

// The directory's three leading values, from byte `first` on, and its four last, from byte `last` on.
fn directory_values(image: &[u8], first: usize, last: usize) -> [u64; 7]
    requires { (first + 2 ≤ length image.now) × (last + 6 ≤ length image.now) }
    ensures { result ≡ fields (drop first image.now) lists.head ++ fields (drop last image.now) lists.tail }
{
    let mut v = [0u64; 7];
    fields::read(&image[first..], Layout::Head, &mut v[0..3]);
    fields::read(&image[last..], Layout::Tail, &mut v[3..7]);
    v
}

pub fn read_directory(image: &[u8]) -> Result<[u64; 7], Refusal>
    ensures { directory_given result ≡ read_directory image.now }
{
    let g = verdict::check(image)?;
    Ok(directory_values(image, g.directory, g.table + g.bytes))
}

// Lists the table's elements at the front of `out`. To a narrower type there is no `From`; the `as` is bounded, since an element has eight bits at most.
fn list_elements(card: &Measured, out: &mut [u8])
    requires { card.now.shape.sectors - 3 ≤ length out.old }
    ensures { out.new ≡ over (elements card.now.image.now) out.old }
{
    // By `card.element` a list of elements of eight bits takes ten instructions an element.
    let t = card.table();
    for (k, element) in out[..card.shape.sectors - 3].iter_mut().enumerate() {
        *element = t.element(k + 1) as u8;
    }
}

pub fn read_table(image: &[u8]) -> Result<Table, Refusal>
    ensures { table_given result ≡ read_table image.now }
{
    let card = verdict::accepted(image)?;
    let mut elements = [0u8; 252];
    list_elements(&card, &mut elements);
    Ok(Table {
        count: card.shape.sectors - 3,
        elements,
    })
}
