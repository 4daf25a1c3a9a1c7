// Commands that look at the image.
use crate::commands::Look;
use crate::{answers, listing};
use card::{ChainRead, TableRead};
use text::prints;

// Where a list is printed C's structs stand between: what is printed is what C is told, zeros on a refusal, and the count beside the list.
pub(crate) fn look(rt: &impl Print, asked: Look, image: &[u8]) {
    match asked {
        Look::Check => answers::plain(rt, card::check(image)),
        Look::Bytes => prints::line(rt, prints::Hex(image)),
        Look::List => listing::list(rt, image),
        Look::Shell => answers::valued(rt, card::read_shell(image)),
        Look::Directory => answers::valued(rt, card::read_directory(image)),
        Look::Table => {
            let r = TableRead::from(card::read_table(image));
            counted(rt, r.number, r.entry, r.elements, r.count);
        }
        Look::Entry(j) => answers::valued(rt, card::read_entry(image, j)),
        Look::Chain(j) => chain(rt, image, j),
    }
}

// The number, the entry and the first `count` of the sectors. By `min` here and below: that a count is within its list is said by the call's definition,
// and not by the type.
pub(crate) fn counted(rt: &impl Print, number: usize, entry: usize, list: [u8; 252], count: usize) {
    let first = prints::Small(&list[..count.min(list.len())]);
    prints::line(rt, format_args!("{number} {entry}{first}"));
}

// The mark, the number of sectors, and the sectors.
fn chain(rt: &impl Print, image: &[u8], j: usize) {
    let r = ChainRead::from(card::read_chain(image, j));
    let list = prints::Small(&r.sectors[..r.count.min(r.sectors.len())]);
    prints::line(
        rt,
        format_args!("{} {} {} {}{list}", r.number, r.entry, r.mark, r.count),
    );
}
