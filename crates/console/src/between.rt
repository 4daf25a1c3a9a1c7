// Which products differ between two images.
use std::fmt;
use text::prints;

// Room for a flag of each entry: e# is a byte.
const ENTRIES: usize = 255;

// The entries that are flagged, each after a blank.
#[derive(Drop)]
struct Flagged<'a>(&'a [u8]);

impl fmt::Display for Flagged<'_> {
    fn fmt<W: fmt::Write>(&self, f: &mut fmt::Formatter<W>) -> fmt::Result {
        for (i, flag) in self.0.iter().enumerate() {
            if *flag != 0 {
                write!(f, " {}", i + 1)?;
            }
        }
        Ok(())
    }
}

// How many entries an accepted image has, and 0 for any other.
fn entries(image: &[u8]) -> usize {
    card::check(image).map_or(0, |shape| shape.entries)
}

// Answers with the entries that were touched between an image before and one after.
pub(crate) fn touched(rt: &impl Print, before: &[u8], after: &[u8]) {
    let mut space = [0u8; ENTRIES];
    let n = entries(before).min(ENTRIES);
    let flags = &mut space[..n];
    match card::touched(before, after, flags) {
        Ok(()) => prints::line(rt, format_args!("0 0{}", Flagged(flags))),
        Err(refusal) => prints::plain(rt, refusal.reason.number(), refusal.entry),
    }
}
