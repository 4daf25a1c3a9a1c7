// Commands by which an image is made by parts and kept: those of a test program.
ghost use Rattle.std.specs.Prelude.{◌≡◌, ◌≤◌, length};
ghost use Rattle.text.specs.Words.{fronted};
ghost use Rattle.text.specs.Numbers.{number_of};
ghost use Rattle.console.specs.Makes.{place_of, overwritten, zeros_in, zeros_state, kept_in, kept_state, placed_in, image_made, kept_made, state_made, sizes_of};

use crate::commands::Make;
use crate::{Bench, between};
use text::{hex, prints, words};

impl Bench {
    // `rest` is what stands after the command's word and a blank. None where the line is not understood.
    pub(crate) fn make(&mut self, rt: &impl Print, asked: Make, rest: &[u8]) -> Option<()>
        ensures sizes { sizes_of self.new ≡ state_made asked self.old.image.bytes self.old.kept.bytes (sizes_of self.old) }
        ensures image { self.new.image.bytes ≡ image_made asked rest.now self.old.image.bytes (sizes_of self.old) }
        ensures kept { self.new.kept.bytes ≡ kept_made asked self.old.image.bytes self.old.kept.bytes (sizes_of self.old) }
        ensures lent { self.new.buffer ≡ self.old.buffer }
    {
        match asked {
            Make::Zeros(size) => return self.zeros(rt, size),
            Make::Keep => self.keep(rt),
            // The kept image is the one before.
            Make::Touched => between::touched(rt, self.kept.whole(), self.image.whole()),
            Make::At => return self.place(rt, rest),
        }
        Some(())
    }

    // The image becomes so many zeros.
    fn zeros(&mut self, rt: &impl Print, size: usize) -> Option<()>
        ensures sizes { sizes_of self.new ≡ zeros_state size self.old.image.bytes (sizes_of self.old) }
        ensures image { self.new.image.bytes ≡ zeros_in size self.old.image.bytes }
        ensures kept { self.new.kept ≡ self.old.kept }
        ensures lent { self.new.buffer ≡ self.old.buffer }
    {
        if self.image.bytes.len() <= size {
            return None;
        }
        self.image.bytes[..size].fill(0);
        self.image.size = size;
        prints::line(rt, size);
        Some(())
    }

    // The image is copied to the kept image.
    fn keep(&mut self, rt: &impl Print)
        ensures sizes { sizes_of self.new ≡ kept_state self.old.image.bytes self.old.kept.bytes (sizes_of self.old) }
        ensures image { self.new.image ≡ self.old.image }
        ensures kept { self.new.kept.bytes ≡ kept_in self.old.image.bytes self.old.kept.bytes (sizes_of self.old) }
        ensures lent { self.new.buffer ≡ self.old.buffer }
    {
        let n = self.image.len();
        lay(&self.image.bytes[..n], &mut self.kept.bytes);
        self.kept.size = n;
        prints::line(rt, "ok");
    }

    // Bytes overwrite the image from a place on.
    fn place(&mut self, rt: &impl Print, rest: &[u8]) -> Option<()>
        ensures sizes { sizes_of self.new ≡ sizes_of self.old }
        ensures image { self.new.image.bytes ≡ placed_in rest.now self.old.image.bytes (sizes_of self.old) }
        ensures kept { self.new.kept ≡ self.old.kept }
        ensures lent { self.new.buffer ≡ self.old.buffer }
    {
        let end = words::first(rest);
        let start = words::after(rest, end);
        let n = self.image.len();
        overwrite(rt, &rest[..end], &rest[start..], &mut self.image.bytes[..n])
    }
}

// Copies bytes to the front of a buffer.
fn lay(bytes: &[u8], into: &mut [u8])
    requires { length bytes.now ≤ length into.old }
    ensures { into.new ≡ fronted bytes.now into.old }
{
    into[..bytes.len()].copy_from_slice(bytes);
}

// The bytes must lie within the image; else the line is not understood.
fn overwrite(rt: &impl Print, at: &[u8], word: &[u8], image: &mut [u8]) -> Option<()>
    ensures { image.new ≡ overwritten (place_of (number_of at.now)) word.now image.old }
{
    let n = hex::count(word)?;
    // By `as`: from u64 there is no `From`, and a number stays as it is, as the contract says.
    let from = text::decimal(at)? as usize;
    if image.len() < n {
        return None;
    }
    if image.len() - n < from {
        return None;
    }
    hex::read(word, &mut image[from..from + n]);
    prints::line(rt, "ok");
    Some(())
}
