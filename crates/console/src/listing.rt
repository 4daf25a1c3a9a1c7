// The listing of a card on standard output: its header line and a line for each product, or why it is refused.
use card::{Mark, Reason, Refusal, Shape};
use directory::TYP;
use text::prints;

// The largest image that can be accepted.
pub const LARGEST_ACCEPTED: usize = 60439;

// Over the largest image nothing is looked at: document 01 has it refused with 1, entry 0.
pub fn list(rt: &impl Print, image: &[u8]) {
    if LARGEST_ACCEPTED < image.len() {
        refused(rt, Refusal::from(Reason::WrongLength));
        return;
    }
    match card::check(image) {
        Ok(g) => {
            header(rt, g);
            products(rt, image, g.entries);
        }
        Err(refusal) => refused(rt, refusal),
    }
}

fn refused(rt: &impl Print, refusal: Refusal) {
    let number = refusal.reason.number();
    prints::line(rt, format_args!("refused {number} {}", refusal.entry));
}

// S, B, e# and the copy in force.
fn header(rt: &impl Print, g: Shape) {
    let copy = if g.copy == 0 { "A" } else { "B" };
    prints::line(
        rt,
        format_args!("card {} {} {} {copy}", g.sectors, g.size, g.entries),
    );
}

fn products(rt: &impl Print, image: &[u8], entries: usize) {
    for j in 1..=entries {
        product(rt, image, j);
    }
}

// The line of an entry: its number, TYP, mark and sectors; nothing where it is no product.
fn product(rt: &impl Print, image: &[u8], j: usize) {
    let Ok(entry) = card::read_entry(image, j) else {
        return;
    };
    let Ok(chain) = card::read_chain(image, j) else {
        return;
    };
    // By `min`: that the count is within its list is said by the definition of `read_chain`, and not by the type.
    let list = prints::Small(&chain.sectors[..chain.count.min(chain.sectors.len())]);
    prints::line(
        rt,
        format_args!("{j} {} {}{list}", entry[TYP], mark(chain.mark)),
    );
}

// These words are the program's and not the library's, so `Mark` has no `Display`.
fn mark(m: Mark) -> &'static str {
    match m {
        Mark::Fresh => "fresh",
        Mark::Used => "used",
        Mark::Blocked => "blocked",
    }
}
