// The commands: which one a line is, and with which numbers.
ghost use Rattle.std.specs.Prelude.{◌+◌, ◌≤◌, ◌≡◌, cond, replicate, unwrap_or, slice_index, IfSome};
ghost use Rattle.fields.specs.Padded.{most};
ghost use Rattle.text.specs.Words.{numbers_of, count_of, fronted, none};
ghost use Rattle.console.specs.declared.commands.Command.TheVariants.{Unknown};
ghost use Rattle.console.specs.Commands.{command_in, common as Commands·common, trial as Commands·trial, Finds, OfDesk, command_of, command_of_line, numbers_from};

use crate::values;
use card::Record;
use std::str;
use text::words;
use text::words::MOST;

// What a line asks for. The numbers that a command has beyond three stand in the line's `Numbers`. These enums are commands, and each is matched once.
// `Unknown` is one of them and no `None`: specs/Commands has it for a line that is no other command, and specs/Obeys says that it leaves all as it was.
#[derive(Drop)]
pub enum Command {
    Look(Look),
    Lend(Lend),
    Change(Change),
    Reckon(Reckon),
    Encode(Encode),
    Make(Make),
    Decode(Decode),
    File(File),
    Unknown,
}

// To look at the image.
#[derive(Drop)]
pub enum Look {
    Check,
    Bytes,
    List,
    Shell,
    Directory,
    Table,
    Entry(usize),
    Chain(usize),
}

// To lend a buffer, whole or so many bytes of it, to a read of a ticket; or to show it.
#[derive(Drop)]
pub enum Lend {
    Ticket(usize),
    TicketIn(usize, usize),
    Rest(usize),
    RestIn(usize, usize),
    Buffer(usize),
}

// To change the image: a step on one product. A record has its TYP and revision.
#[derive(Drop)]
pub enum Change {
    Field(usize, usize, u64),
    Record(usize, u64, u64),
    Mark(usize, usize),
}

// To reckon with dates, or with a record of values: its TYP and revision, and the field.
#[derive(Drop)]
pub enum Reckon {
    Date(u64),
    Stamp(u64, u64, u64),
    Set(u64, u64, usize),
    Value(u64, u64, usize),
}

// To encode values.
#[derive(Drop)]
pub enum Encode {
    Entry,
    Head,
    Tail,
    Header,
    Ticket(u64, u64),
    Shell(usize),
    Table(u64, usize),
}

// To make an image by parts, keep it, or tell which entries differ from the kept one.
#[derive(Drop)]
pub enum Make {
    Zeros(usize),
    Keep,
    Touched,
    At,
}

// To decode bytes.
#[derive(Drop)]
pub enum Decode {
    Crc,
    Entry,
    Head,
    Tail,
    Header,
    Ticket,
    Shell,
    Table,
}

// To write the image to a file, or to tell which entries differ from the image in one.
#[derive(Drop)]
pub enum File {
    Save,
    Touched,
}

// The numbers of a line: how many stand after its first word, if all words there are numbers, and these, zeros after them.
#[derive(Drop)]
pub struct Numbers {
    pub count: Option<usize>,
    pub list: [u64; MOST],
}

impl Numbers {
    // So many of them, from place `first` on; zeros where the line has no more.
    pub(crate) fn part<const N: usize>(&self, first: usize) -> [u64; N]
        requires { first + N ≤ 302 }
        ensures { result ≡ numbers_from N first self.now.list }
    {
        let mut v = [0u64; N];
        v.copy_from_slice(&self.list[first..first + N]);
        v
    }

    // The record whose values stand from place `first` on.
    pub(crate) fn record(&self, typ: u64, revision: u64, first: usize) -> Record
        requires { first + most ≤ 302 }
        ensures { (result.typ ≡ typ) × (result.revision ≡ revision) × (result.values ≡ numbers_from most first self.now.list) }
    {
        Record {
            typ,
            revision,
            values: self.part(first),
        }
    }

    // All of them from place `first` on, if there are so many.
    pub(crate) fn rest(&self, first: usize) -> Option<&[u64]> {
        self.list.get(first..self.count?)
    }
}

// A line as it was read.
#[derive(Drop)]
pub struct Read {
    pub command: Command,
    pub numbers: Numbers,
}

// Reads a line of the test program (`all`) or of the desk. A bool and no enum of the two, since `command_of` and `State` of specs/ have it so.
pub(crate) fn of_line(text: &[u8], all: bool) -> Read
    ensures read { (result.command ≡ command_of_line all text.now) × (unwrap_or result.numbers.count none ≡ count_of 302 text.now) × (result.numbers.list ≡ fronted (numbers_of 302 text.now) (replicate 302 0)) }
    ensures within { IfSome result.numbers.count (λ n. n ≤ 302) }
{
    let end = words::first(text);
    let mut list = [0u64; MOST];
    let count = words::numbers(text, &mut list);
    let numbers = Numbers { count, list };
    Read {
        command: named(all, &text[..end], &numbers),
        numbers,
    }
}

// The command of a word, so many numbers, and the first three of them: one of the test program (`all`) or of the desk.
fn named(all: bool, word: &[u8], numbers: &Numbers) -> Command
    ensures { result ≡ command_of all word.now (unwrap_or numbers.now.count none) (slice_index numbers.now.list 0) (slice_index numbers.now.list 1) (slice_index numbers.now.list 2) }
{
    match str::from_utf8(word) {
        Ok(word) => found(all, word, numbers),
        Err(_) => Command::Unknown,
    }
}

// A command with values, where they are as many as they are to be; else the line is not understood.
fn suited(suits: bool, command: Command) -> Command
    ensures { result ≡ cond suits command Unknown }
{
    if suits { command } else { Command::Unknown }
}

// One that is the test program's (`all`) or the desk's.
fn found(all: bool, word: &str, numbers: &Numbers) -> Command
    ensures { result ≡ command_of all word.now (unwrap_or numbers.now.count none) (slice_index numbers.now.list 0) (slice_index numbers.now.list 1) (slice_index numbers.now.list 2) }
{
    match common(word, numbers) {
        Some(command) => command,
        None if all => trial(word, numbers),
        None => desk(word),
    }
}

// One that both programs have, if it is one. By `as usize`: from u64 there is no `From`, and a number stays as it is, as the contract says, since usize has 64 bits.
fn common(word: &str, numbers: &Numbers) -> Option<Command>
    ensures { Finds result Commands·common word.now (unwrap_or numbers.now.count none) (slice_index numbers.now.list 0) (slice_index numbers.now.list 1) (slice_index numbers.now.list 2) }
{
    let Numbers {
        count,
        list: [a, b, n, ..],
    } = *numbers;
    match (word, count) {
        ("check", Some(0)) => Some(Command::Look(Look::Check)),
        ("bytes", Some(0)) => Some(Command::Look(Look::Bytes)),
        ("list", Some(0)) => Some(Command::Look(Look::List)),
        ("shell", Some(0)) => Some(Command::Look(Look::Shell)),
        ("directory", Some(0)) => Some(Command::Look(Look::Directory)),
        ("table", Some(0)) => Some(Command::Look(Look::Table)),
        ("entry", Some(1)) => Some(Command::Look(Look::Entry(a as usize))),
        ("chain", Some(1)) => Some(Command::Look(Look::Chain(a as usize))),
        ("ticket", Some(1)) => Some(Command::Lend(Lend::Ticket(a as usize))),
        ("ticket", Some(2)) => Some(Command::Lend(Lend::TicketIn(a as usize, b as usize))),
        ("rest", Some(1)) => Some(Command::Lend(Lend::Rest(a as usize))),
        ("rest", Some(2)) => Some(Command::Lend(Lend::RestIn(a as usize, b as usize))),
        ("buffer", Some(1)) => Some(Command::Lend(Lend::Buffer(a as usize))),
        ("field", Some(3)) => Some(Command::Change(Change::Field(a as usize, b as usize, n))),
        ("record", _) => Some(suited(
            values::suit(b, n, 3, count),
            Command::Change(Change::Record(a as usize, b, n)),
        )),
        ("mark", Some(2)) => Some(Command::Change(Change::Mark(a as usize, b as usize))),
        ("date", Some(1)) => Some(Command::Reckon(Reckon::Date(a))),
        ("stamp", Some(3)) => Some(Command::Reckon(Reckon::Stamp(a, b, n))),
        ("set", _) => Some(suited(
            values::suit(a, b, 4, count),
            Command::Reckon(Reckon::Set(a, b, n as usize)),
        )),
        ("encode-entry", Some(7)) => Some(Command::Encode(Encode::Entry)),
        ("encode-head", Some(3)) => Some(Command::Encode(Encode::Head)),
        ("encode-tail", Some(4)) => Some(Command::Encode(Encode::Tail)),
        ("encode-header", Some(3)) => Some(Command::Encode(Encode::Header)),
        ("encode-ticket", _) => Some(suited(
            values::suit(a, b, 2, count),
            Command::Encode(Encode::Ticket(a, b)),
        )),
        ("encode-shell", Some(17)) => Some(Command::Encode(Encode::Shell(a as usize))),
        ("encode-table", _) => Some(Command::Encode(Encode::Table(a, b as usize))),
        _ => None,
    }
}

// One that the test program has besides.
fn trial(word: &str, numbers: &Numbers) -> Command
    ensures { result ≡ command_in Commands·trial word.now (unwrap_or numbers.now.count none) (slice_index numbers.now.list 0) (slice_index numbers.now.list 1) (slice_index numbers.now.list 2) }
{
    let Numbers {
        count,
        list: [a, b, n, ..],
    } = *numbers;
    match (word, count) {
        ("image", Some(1)) => Command::Make(Make::Zeros(a as usize)),
        ("keep", Some(0)) => Command::Make(Make::Keep),
        ("touched", Some(0)) => Command::Make(Make::Touched),
        ("at", _) => Command::Make(Make::At),
        ("value", _) => suited(
            values::suit(a, b, 3, count),
            Command::Reckon(Reckon::Value(a, b, n as usize)),
        ),
        ("crc", _) => Command::Decode(Decode::Crc),
        ("decode-entry", _) => Command::Decode(Decode::Entry),
        ("decode-head", _) => Command::Decode(Decode::Head),
        ("decode-tail", _) => Command::Decode(Decode::Tail),
        ("decode-header", _) => Command::Decode(Decode::Header),
        ("decode-ticket", _) => Command::Decode(Decode::Ticket),
        ("decode-shell", _) => Command::Decode(Decode::Shell),
        ("decode-table", _) => Command::Decode(Decode::Table),
        _ => Command::Unknown,
    }
}

// One that the desk has besides.
fn desk(word: &str) -> Command
    ensures { OfDesk result word.now }
{
    match word {
        "save" => Command::File(File::Save),
        "touched" => Command::File(File::Touched),
        _ => Command::Unknown,
    }
}
