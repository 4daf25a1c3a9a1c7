// Image files: one is read whole, and one is written beside its place and then put there.
use crate::commands::File;
use crate::{LARGEST, between};
use std::fs::{OpenFile, OpenOptions};
use std::io::{Read, Write};
use std::rt::Files;
use std::{fs, str};
use text::{prints, words};

// Reads a file that is shorter than the buffer, and gives its size, if it can be read and is shorter.
pub(crate) fn load<F: Files>(rt: &F, path: &[u8], into: &mut [u8]) -> Option<usize> {
    let name = str::from_utf8(path).ok()?;
    let mut file = fs::open(rt, name).ok()?;
    load_from(&mut file, into)
}

fn load_from<R: Read>(file: &mut R, into: &mut [u8]) -> Option<usize> {
    let mut n = 0;
    // A `while`: each step is as long as the read made it. `read_exact` does not count the bytes of a shorter file, and `io::read_full` tells no failure.
    while n < into.len() {
        let more = file.read(&mut into[n..]).ok()?;
        if more == 0 {
            return Some(n);
        }
        n += more;
    }
    None
}

// Writes a new file beside the path, which nothing may stand at, and renames it; None where that fails, and the path is as it was.
fn save<F: Files>(rt: &F, path: &[u8], image: &[u8]) -> Option<()> {
    let mut space = io::buffer();
    let name: &mut [u8] = &mut space;
    let dot = text::put(name, 0, path);
    let end = text::put(name, dot, b".new").min(name.len());
    if end <= path.len() {
        return None;
    }
    save_by(rt, &name[..end], path, image)
}

fn save_by<F: Files>(rt: &F, name: &[u8], path: &[u8], image: &[u8]) -> Option<()> {
    let beside = str::from_utf8(name).ok()?;
    let place = str::from_utf8(path).ok()?;
    let file = OpenOptions::new()
        .write(true)
        .create_new(true)
        .open(rt, beside)
        .ok()?;
    let done = written(file, image).and_then(|_| fs::rename(rt, beside, place).ok());
    if done.is_none() {
        let _ = fs::remove_file(rt, beside);
    }
    done
}

// Writes the whole image to a file, has it on the disk, and closes the file.
fn written<W: Write + OpenFile + Drop>(mut file: W, image: &[u8]) -> Option<()> {
    let done = file.write_all(image);
    file.sync_all().ok()?;
    done.ok()
}

// Answers the desk's commands on files, each with one word after it that names the file; None where there is no such word.
pub(crate) fn answer<F: Files + Print>(
    rt: &F,
    asked: File,
    path: &[u8],
    image: &[u8],
) -> Option<()> {
    if path.is_empty() || words::first(path) < path.len() {
        return None;
    }
    match asked {
        File::Save => save_to(rt, path, image),
        File::Touched => touched_since(rt, path, image),
    }
    Some(())
}

fn save_to<F: Files + Print>(rt: &F, path: &[u8], image: &[u8]) {
    let answer = match save(rt, path, image) {
        Some(()) => "saved",
        None => "not saved",
    };
    prints::line(rt, answer);
}

// The file's image is the one before.
fn touched_since<F: Files + Print>(rt: &F, path: &[u8], image: &[u8]) {
    let mut before = io::large_buffer();
    match load(rt, path, &mut before) {
        Some(size) if size <= LARGEST => between::touched(rt, &before[..size], image),
        _ => prints::line(rt, "not read"),
    }
}
