// The desk and the test program: each line of standard input is answered on standard output, from an image.
#![tactic(auto)]

mod answers;
mod between;
mod changes;
mod commands;
mod decodes;
mod encodes;
mod files;
mod lends;
mod listing;
mod looks;
mod makes;
mod values;

ghost use Rattle.std.specs.Prelude.{◌≡◌, ◌≤◌, min, length, take, IfSome};
ghost use Rattle.console.specs.Obeys.{bench_held, after_command, LentBy, after_line, LentByLine, after_turn, Answered, Ran};

use commands::{Command, Numbers};
pub use listing::{LARGEST_ACCEPTED, list};
use std::io::Read;
use std::rt::Files;
use text::{feed, prints, words};

// The largest image; its buffer has room for one byte more.
const LARGEST: usize = 65535;

const ROOM: usize = LARGEST + 1;

// What a lent buffer is filled with before a call.
const FILLING: u8 = 0xA5;

// A buffer, and how many bytes at its front are an image. No invariant bounds `size`, so each look takes the smaller of the two: `run` is given any size
// (`Ran`), and under a bound the wrong answer `kept_as_long_as_the_image` would be right.
#[derive(Drop)]
struct Image {
    bytes: [u8; ROOM],
    size: usize,
}

impl Image {
    // How long the image is.
    fn len(&self) -> usize
        ensures { (result ≡ min self.now.size (length self.now.bytes)) × (result ≤ length self.now.bytes) }
    {
        self.size.min(self.bytes.len())
    }

    // The image.
    fn whole(&self) -> &[u8]
        ensures { result.now ≡ take (min self.now.size (length self.now.bytes)) self.now.bytes }
    {
        &self.bytes[..self.len()]
    }
}

// What a program holds: the image, the kept image, the buffer that commands lend, and whether the commands are those of a test program: a bool and no enum
// of the two, since `command_of` and `State` of specs/ have it so.
#[derive(Drop)]
struct Bench {
    image: Image,
    kept: Image,
    buffer: [u8; ROOM],
    all: bool,
}

// The desk on the image of a file.
pub fn desk<F: Files + Print, R: Read>(rt: &F, reader: &mut R, path: &[u8]) {
    let mut image = io::large_buffer();
    match files::load(rt, path, &mut image) {
        Some(size) if size <= LARGEST => {
            run(rt, reader, image, size, false);
        }
        _ => {
            let _ = rt.print("not an image file of up to 65535 bytes that can be read: ");
            let _ = rt.write_all(path);
            prints::line(rt, "");
        }
    }
}

// The test program: every command of the desk but those on files, and those by which an image is made and bytes are decoded.
pub fn trial<F: Files + Print, R: Read>(rt: &F, reader: &mut R) {
    run(rt, reader, io::large_buffer(), 0, true);
}

fn run<F: Files + Print, R: Read>(
    rt: &F,
    reader: &mut R,
    image: [u8; ROOM],
    size: usize,
    all: bool,
) -> Bench
    ensures { Ran all size image result.image.bytes }
{
    let mut input = feed::room();
    let mut bench = Bench {
        image: Image { bytes: image, size },
        kept: Image {
            bytes: io::large_buffer(),
            size: 0,
        },
        buffer: io::large_buffer(),
        all,
    };
    bench.answers(rt, reader, &mut input);
    bench
}

impl Bench {
    // Answers every line of standard input.
    fn answers<F: Files + Print, R: Read>(&mut self, rt: &F, reader: &mut R, input: &mut [u8])
        ensures { Answered input.old (bench_held self.old) input.new (bench_held self.new) }
    {
        let mut f = feed::none();
        // A range as good as endless: a loop with no last turn, `rt.forever()`, needs the bound `Wait`, which no function of this project has.
        for _turn in 0..u64::MAX {
            f = feed::next(reader, input, f);
            self.given(rt, input, f);
            let is_over = f.ended;
            if is_over {
                return;
            }
        }
    }

    // Answers the line that a turn gives, if it gives one.
    fn given<F: Files + Print>(&mut self, rt: &F, input: &[u8], f: feed::Feed)
        requires { IfSome f.line (λ at. (at.start ≤ at.end) × (at.end ≤ length input.now)) }
        ensures { bench_held self.new ≡ after_turn input.now f (bench_held self.old) }
    {
        if let Some(at) = f.line {
            self.answer(rt, feed::line(input, at));
        }
    }

    // Answers a line: a question mark where it is not understood.
    fn answer<F: Files + Print>(&mut self, rt: &F, line: &[u8])
        ensures held { bench_held self.new ≡ after_line line.now (bench_held self.old) }
        ensures lent { LentByLine line.now (bench_held self.old) self.old.buffer self.new.buffer }
    {
        let end = words::first(line);
        let start = words::after(line, end);
        let read = commands::of_line(line, self.all);
        let done = self.obey(rt, read.command, &read.numbers, &line[start..]);
        if done.is_none() {
            prints::unknown(rt);
        }
    }

    // Does what is asked; `rest` is what stands after the command's word and a blank. None where the line is not understood.
    fn obey<F: Files + Print>(
        &mut self,
        rt: &F,
        asked: Command,
        numbers: &Numbers,
        rest: &[u8],
    ) -> Option<()>
        ensures held { bench_held self.new ≡ after_command asked numbers.now.list rest.now (bench_held self.old) }
        ensures lent { LentBy asked (bench_held self.old) self.old.buffer self.new.buffer }
    {
        match asked {
            Command::Look(look) => looks::look(rt, look, self.image.whole()),
            Command::Lend(lend) => {
                return lends::lend(rt, lend, self.image.whole(), &mut self.buffer);
            }
            Command::Change(change) => {
                let n = self.image.len();
                changes::change(rt, change, numbers, &mut self.image.bytes[..n]);
            }
            Command::Reckon(reckon) => values::reckon(rt, reckon, numbers),
            Command::Encode(encode) => return encodes::encode(rt, encode, numbers),
            Command::Make(make) => return self.make(rt, make, rest),
            Command::Decode(decode) => return decodes::decode(rt, decode, rest),
            Command::File(file) => return files::answer(rt, file, rest, self.image.whole()),
            Command::Unknown => return None,
        }
        Some(())
    }
}
