// A chain table in the bytes that hold it, and the walks over it. From u64, and to a narrower type, there is no `From`: what `as` takes is below 256. A sector's number is
// bounded by a `requires`: image measured.rt says why it has no type of its own.
ghost use Rattle.std.specs.Prelude.{◌≡◌, ◌%◌, ◌≤◌, ◌<◌};
ghost use Rattle.chains.specs.Packed.{Inside};

use crate::Place;

// A chain table in its bytes. It lies within them.
#[derive(Clone, Copy)]
pub struct Table<'a> {
    pub bytes: &'a [u8],
    pub place: Place,
    pub ghost inside: { Inside bytes.now place },
}

// What a walk finds at the end of a chain: its last sector, and 256 for each element that was still allowed where it was met, its own among them.
#[derive(Clone, Copy, PartialEq, Eq, Debug)]
pub struct End {
    pub last: usize,
    pub allowed: usize,
    pub ghost last_small: { last < 256 },
    pub ghost allowed_least: { 256 ≤ allowed },
    pub ghost allowed_whole: { allowed % 256 ≡ 0 },
}

// What an element says: the next sector of its chain; that its sector is the last; or that the chain is broken.
#[derive(Clone, Copy, PartialEq, Eq, Debug)]
pub enum Link {
    Next(usize),
    Last,
    Broken,
}

impl Link {
    ghost use Rattle.std.specs.Prelude.{◌≡◌};
    ghost use Rattle.chains.specs.Chain.{Sector};
    ghost use Rattle.chains.specs.Walk.{link};
    ghost use Rattle.chains.specs.Ended.{link_told};

    // Of the element x of sector i of s.
    pub fn of(s: usize, i: usize, x: usize) -> Link
        requires { Sector s i }
        ensures { result ≡ link_told (link s i x) }
    {
        if i == x {
            return Link::Last;
        }
        if (x == 0) | (s - 3 < x) {
            if (x == 0) | (s - 1 < x) {
                return Link::Broken;
            }
            return Link::Last;
        }
        Link::Next(x)
    }
}

// What the element that ends a chain says of it.
#[derive(Clone, Copy, PartialEq, Eq, Debug)]
pub enum Mark {
    Fresh,
    Used,
    Blocked,
}

impl Mark {
    ghost use Rattle.std.specs.Prelude.{◌≡◌};
    ghost use Rattle.chains.specs.Ended.{mark_number};

    // Its number on the card and in every answer.
    pub fn number(self) -> u8
        ensures { result ≡ mark_number self }
    {
        self as u8
    }
}

impl Table<'_> {
    ghost use Rattle.std.specs.Prelude.{◌≡◌, ◌<◌, ◌/◌, ◌%◌};
    ghost use Rattle.chains.specs.Chain.{Sector};
    ghost use Rattle.chains.specs.Walk.{walk};
    ghost use Rattle.chains.specs.Owners.{stop, follow};
    ghost use Rattle.chains.specs.Packed.{element_in, last_left};
    ghost use Rattle.chains.specs.Ended.{end_told, left_said};

    // The element of sector i.
    pub fn element(&self, i: usize) -> usize
        requires sector { Sector self.now.place.sectors i }
        ensures { result ≡ element_in self.now.bytes.now self.now.place.first self.now.place.psi i }
    {
        let t = self.place;
        if t.psi == 8 {
            return usize::from(self.bytes[t.first / 8 + (i - 1)]);
        }
        bits::ending(self.bytes, t.first + t.psi * i, t.psi) as usize
    }

    // The walk from sector i, with 256 in `allowed` for each element still allowed: none where the chain is broken. It counts in 256s, so that the loop keeps
    // one number for them and the sector, and not two.
    pub fn walk(&self, i: usize, allowed: usize) -> Option<End>
        requires sector { Sector self.now.place.sectors i }
        requires allowed_bound { (allowed < 65536) × (allowed % 256 ≡ 0) }
        ensures { end_told result ≡ last_left (allowed / 256) (walk (element_in self.now.bytes.now self.now.place.first self.now.place.psi) self.now.place.sectors i (allowed / 256)) }
    {
        let told = self.walk_told(i, allowed);
        if told == 0 {
            return None;
        }
        let last = told % 256;
        Some(End {
            last,
            allowed: told - last,
        })
    }

    // The same as one number, the last sector and what was allowed where it was met; 0 where the chain is broken. The compiler makes a loop of this recursion and
    // of none that answers an Option or two words.
    fn walk_told(&self, i: usize, allowed: usize) -> usize
        requires sector { Sector self.now.place.sectors i }
        requires allowed_bound { (allowed < 65536) × (allowed % 256 ≡ 0) }
        ensures { result ≡ last_left (allowed / 256) (walk (element_in self.now.bytes.now self.now.place.first self.now.place.psi) self.now.place.sectors i (allowed / 256)) }
    {
        if allowed == 0 {
            return 0;
        }
        match Link::of(self.place.sectors, i, self.element(i)) {
            Link::Next(x) => self.walk_told(x, allowed - 256),
            Link::Last => i + allowed,
            Link::Broken => 0,
        }
    }

    // The walk of entry k that looks at no sector twice, with `left` elements still allowed: the elements allowed after it; none where the chain is
    // broken. Each sector that it meets first gets k for its owner; 0 is no entry, so none.
    pub fn follow(&self, k: usize, left: usize, owner: &mut [u8; 256]) -> Option<usize>
        requires sector { Sector self.now.place.sectors k }
        ensures { stop (left_said result) owner.new ≡ follow (element_in self.now.bytes.now self.now.place.first self.now.place.psi) self.now.place.sectors k left owner.old k }
    {
        let mut i = k;
        let mut n = left;
        // A `while`: the next sector is what was just read, and no range says so.
        while owner[i] == 0 {
            if n == 0 {
                return None;
            }
            n -= 1;
            owner[i] = k as u8;
            match Link::of(self.place.sectors, i, self.element(i)) {
                Link::Next(x) => i = x,
                Link::Last => return Some(n),
                Link::Broken => return None,
            }
        }
        if owner[i] == k as u8 {
            return None;
        }
        Some(n)
    }
}
