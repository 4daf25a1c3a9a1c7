// The numbers 1 to 9 and 12, and the shape of an image that keeps their rules. From u64 there is no `From`: what `as` takes is a field of sixteen bits at most.
ghost use Rattle.std.specs.Prelude.{IfOk, ◌≡◌, true, ◌+◌, ◌*◌, ◌%◌, ◌^◌, ◌≤◌, ◌<◌, length, drop, eqb};
ghost use Rattle.crc.specs.Crc as sum;
ghost use Rattle.bits.specs.Bits.{field};
ghost use Rattle.fields.specs.Fields.{value_at};
ghost use Rattle.fields.specs.Lists as lists;
ghost use Rattle.fields.specs.Lists.{nth};
ghost use Rattle.fields.specs.declared.Layout.TheVariants as layout;
ghost use Rattle.rules.specs.First.{first};
ghost use Rattle.rules.specs.Reasons.{said};
ghost use Rattle.image.specs.Image.{shell_values, SECR, before_SECR, table_pad};
ghost use Rattle.image.specs.Bounds.{Bounds};
ghost use Rattle.image.specs.Rules.{head_rules, size_rules, content_rules, rules};
ghost use Rattle.shell.specs.Encode.{isrn_rules};

use fields::{IMAGE_COPY, IMAGE_LENGTH, IMAGE_VERSION, Layout};
use image::{Measured, Shape, sector_from};
use rules::Reason;
use shell::{ENTRY_COUNT, SECTOR_BYTES, SECTOR_COUNT, SHELL_BIT_MAP, SHELL_LENGTH, TABLE_LENGTH};

// An image of 36 bytes or more, as rule 4 has it: its head and the fields of its shell are there.
#[derive(Clone, Copy)]
struct Headed<'a> {
    image: &'a [u8],
    ghost long: { 36 ≤ length image.now },
}

// Numbers 1 to 4.
#[tactic(auto, using(std::proofs::lemmas::Bool::Decides::nat_tests), unfolding(rules::specs::First::first, image::specs::Image::stated, image::specs::Image::version, image::specs::Image::copy))]
fn head(image: &[u8]) -> Result<Headed<'_>, Reason>
    ensures number { said result ≡ first (head_rules image.now) }
    ensures same { IfOk result (λ h. h.image.now ≡ image.now) }
{
    let n = image.len();
    if n < 4 || fields::value(image, Layout::Image, IMAGE_LENGTH) as usize != n {
        return Err(Reason::WrongLength);
    }
    if fields::value(image, Layout::Image, IMAGE_VERSION) != 1 {
        return Err(Reason::WrongVersion);
    }
    if 1 < fields::value(image, Layout::Image, IMAGE_COPY) {
        return Err(Reason::WrongCopy);
    }
    if n < 36 {
        return Err(Reason::NoShell);
    }
    Ok(Headed { image })
}

impl Headed<'_> {
    // The field i of its shell, as a size.
    fn size(&self, i: usize) -> usize
        requires { i < 16 }
        ensures { (result ≡ value_at layout.Shell i (drop 4 self.now.image.now)) × (result < 2 ^ (nth lists.shell i).1) }
    {
        fields::value(&self.image[4..], Layout::Shell, i) as usize
    }

    // Numbers 5 and 6.
    #[tactic(auto, using(std::proofs::lemmas::Bool::Decides::nat_tests, crate::proofs::Short::entry_count), unfolding(rules::specs::First::first, image::specs::Image::B, image::specs::Image::S, image::specs::Image::SCTL, image::specs::Image::shell_values, image::specs::Image::dataset, fields::specs::Fields::fields))]
    fn judge_sizes(&self) -> Result<(), Reason>
        ensures { said result ≡ first (size_rules self.now.image.now) }
    {
        let dataset = 4 * self.size(SHELL_LENGTH);
        shell::form(self.size(SHELL_BIT_MAP) as u64, dataset)?;
        let b = self.size(SECTOR_BYTES);
        let s = self.size(SECTOR_COUNT);
        let e = self.size(ENTRY_COUNT);
        let t = self.size(TABLE_LENGTH);
        if s < 4 || b < 32 || e < 1 || s - 3 < e || t != chains::table_bytes(s) {
            return Err(Reason::WrongSize);
        }
        if b < 16 + 5 * e + t || b < dataset || self.image.len() != sector_from(b, s) {
            return Err(Reason::WrongSize);
        }
        Ok(())
    }

    // 8 and 12 of the ISRN, whose digits stand in bytes 6 to 14.
    fn judge_isrn(&self) -> Result<(), Reason>
        ensures { said result ≡ first (isrn_rules (shell_values self.now.image.now)) }
    {
        let image = self.image;
        shell::judge_isrn(
            bits::load(image, 6, 1),
            bits::load(image, 7, 4) * 0x1_0000_0000 + bits::load(image, 11, 4),
        )
    }
}

// Whether the `count` bytes from byte `from` on are all zero: the first two, and then four by four, by their place: that takes 1.5 instructions less a turn than a part.
fn zeros(image: &[u8], from: usize, count: usize) -> bool
    requires { (from + count ≤ length image.now) × (count % 4 ≡ 2) }
    ensures { result ≡ eqb (field image.now (8 * from) (8 * count)) 0 }
{
    if bits::load(image, from, 2) != 0 {
        return false;
    }
    for k in 0..count / 4 {
        if bits::load(image, from + 2 + 4 * k, 4) != 0 {
            return false;
        }
    }
    true
}

// An image that keeps the rules 1 to 6, so that everything in it lies within it. It holds none of the numbers by which that is found: whoever needs some of them
// reads them anew, which costs less than handing nine numbers on.
#[derive(Clone, Copy)]
pub struct Bounded<'a> {
    pub image: &'a [u8],
    pub ghost bounds: { Bounds image.now },
}

impl<'a> Bounded<'a> {
    // With the numbers by which everything in it is found.
    pub fn measured(&self) -> Measured<'a>
        ensures { result.image.now ≡ self.now.image.now }
    {
        let image = self.image;
        let headed = Headed { image };
        let copy = fields::value(image, Layout::Image, IMAGE_COPY) as usize;
        let dataset = 4 * headed.size(SHELL_LENGTH);
        let size = headed.size(SECTOR_BYTES);
        let sectors = headed.size(SECTOR_COUNT);
        let entries = headed.size(ENTRY_COUNT);
        let bytes = headed.size(TABLE_LENGTH);
        let directory = sector_from(size, sectors - 2 + copy);
        Measured {
            image,
            shape: Shape {
                copy,
                dataset,
                size,
                sectors,
                entries,
                bytes,
                psi: chains::psi(sectors),
                directory,
                table: directory + 2 + 5 * entries,
            },
        }
    }
}

// Whether SECR is that of the bytes before it.
fn secr_right(card: &Measured) -> bool
    ensures { result ≡ eqb (SECR card.now.image.now) (sum.crc (before_SECR card.now.image.now)) }
{
    let image = card.image;
    let end = 2 + card.shape.dataset;
    u16::from_be_bytes([image[end], image[end + 1]]) == crc::crc(&image[4..end])
}

// The bits after the chain table's last element.
fn table_pad(card: &Measured) -> usize
    ensures { result ≡ table_pad card.now.image.now }
{
    let g = card.shape;
    let used = g.psi * (g.sectors - 3);
    bits::closing(card.image, g.table + g.bytes - 1, 8 * g.bytes - used) as usize
}

// Numbers 7, 8, 12 and 9: a digit and the padding have the same number, and the check digit comes after both.
#[tactic(auto, using(std::proofs::lemmas::Bool::Decides::nat_tests, crate::proofs::Short::pad_bytes, crate::proofs::Short::whole_blocks), unfolding(rules::specs::First::first))]
fn content(card: &Measured) -> Result<(), Reason>
    ensures { said result ≡ first (content_rules card.now.image.now) }
{
    let image = card.image;
    if !secr_right(card) {
        return Err(Reason::WrongSecr);
    }
    if !zeros(image, 24, card.shape.dataset - 22) {
        return Err(Reason::WrongDigit);
    }
    let pad = table_pad(card);
    Headed { image }.judge_isrn()?;
    if pad != 0 {
        return Err(Reason::WrongTable);
    }
    Ok(())
}

// The rules 1 to 9 and 12, each by itself, in their order. Out of line, so that `number` saves no registers for it.
#[inline(never)]
fn judged(image: &[u8]) -> Result<(), Reason>
    ensures { said result ≡ first (rules image.now) }
{
    head(image)?.judge_sizes()?;
    content(&Bounded { image }.measured())
}

// The same. Where a dataset of 24 bytes keeps all rules, as most do, that is seen in fewer steps: no matter which rule is looked at first, one look for
// several, and whatever fails is judged as above. The one look that is a call comes last, when nothing has to be kept for later.
pub fn number(image: &[u8]) -> Result<(), Reason>
    ensures { said result ≡ first (rules image.now) }
{
    let n = image.len();
    if n < 36 {
        return judged(image);
    }
    let headed = Headed { image };
    let copy = bits::load(image, 3, 1) as usize;
    let blocks = headed.size(SHELL_LENGTH);
    let map = headed.size(SHELL_BIT_MAP);
    let b = headed.size(SECTOR_BYTES);
    let s = headed.size(SECTOR_COUNT);
    let e = headed.size(ENTRY_COUNT);
    let t = headed.size(TABLE_LENGTH);
    if blocks != 6 || bits::load(image, 24, 2) != 0 {
        return judged(image);
    }
    if crc::of_22(image, 4) != bits::load(image, 26, 2) || map != 0 {
        return judged(image);
    }
    if bits::load(image, 0, 2) as usize != n || bits::load(image, 2, 1) != 1 || 1 < copy {
        return judged(image);
    }
    if b < 32 {
        return judged(image);
    }
    if e < 1 || s < e + 3 {
        return judged(image);
    }
    let used = chains::psi(s) * (s - 3);
    // no `div_ceil`, which takes two instructions more
    if t != (used + 7) / 8 || b < 16 + 5 * e + t || n != sector_from(b, s) {
        return judged(image);
    }
    let last = sector_from(b, s - 2 + copy) + 1 + 5 * e + t;
    if bits::closing(image, last, 8 * t - used) == 0 && headed.judge_isrn().is_ok() {
        Ok(())
    } else {
        judged(image)
    }
}
