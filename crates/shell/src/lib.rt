// The shell record: its sixteen values, and the dataset that holds them with zero padding and SECR.
#![tactic(auto)]

ghost use Rattle.std.specs.Prelude.{◌≡◌, ◌-◌, ◌*◌, ◌≤◌, ◌<◌, length};
ghost use Rattle.rules.specs.First.{first};
ghost use Rattle.rules.specs.Reasons.{said};
ghost use Rattle.shell.specs.Shell.{ShellLength, dataset_of, form_rules, body_of, encoded_shell};
ghost use Rattle.shell.specs.Encode.{Fitting, isrn_rules, word_rules, decode_of, encode_number, encode_in};

use digits::{decimal, ends_right};
use fields::Layout;
use rules::Reason;

// The sixteen values in the order of document 01.
#[repr(C)]
#[derive(Drop)]
pub struct Shell {
    pub values: [u64; 16],
}

// Where some of them stand. Numbers and no enum: each is an index, here and in the list of places.
pub const SHELL_LENGTH: usize = 0;

pub const SHELL_BIT_MAP: usize = 1;

const IIN: usize = 3;

const OID: usize = 4;

const ISSN: usize = 5;

const CHD: usize = 6;

pub const SECTOR_BYTES: usize = 12;

pub const SECTOR_COUNT: usize = 13;

pub const ENTRY_COUNT: usize = 14;

pub const TABLE_LENGTH: usize = 15;

// Whether ShellBitMap and the bytes of the dataset are as they must be.
#[tactic(auto, using(std::proofs::lemmas::Bool::Decides::nat_tests), unfolding(rules::specs::First::first))]
pub fn form(map: u64, bytes: usize) -> Result<(), Reason>
    ensures { said result ≡ first (form_rules map bytes) }
{
    if map != 0 || bytes < 22 {
        return Err(Reason::WrongShell);
    }
    Ok(())
}

// Whether the digits of the ISRN are decimal and the last is their check digit: `high` is the first two, and `low` the sixteen others. No struct
// of both: each of two callers would make one for this one call.
#[tactic(auto, using(std::proofs::lemmas::Bool::Decides::nat_tests, crate::proofs::Words::digit_tested), unfolding(rules::specs::First::first))]
pub fn judge_isrn(high: u64, low: u64) -> Result<(), Reason>
    requires { high < 256 }
    ensures { said result ≡ first (word_rules high low) }
{
    if !decimal(high) || !decimal(low) {
        return Err(Reason::WrongDigit);
    }
    if !ends_right(high, low) {
        return Err(Reason::WrongCheckDigit);
    }
    Ok(())
}

// The values of the shell that starts with the slice.
pub fn shell_in(s: &[u8]) -> Shell
    requires { 160 ≤ 8 * length s.now }
    ensures { result ≡ decode_of s.now }
{
    let values = fields::unpacked::<16>(Layout::Shell, s);
    Shell { values }
}

// The values that the twenty bytes hold.
pub fn decode(bytes: [u8; 20]) -> Shell
    ensures { result ≡ decode_of bytes }
{
    shell_in(&bytes)
}

impl Shell {
    // The bytes of the dataset: ShellLength counts blocks of four. From `u64` there is no `From`: it is bounded by the contract.
    fn dataset(&self) -> usize
        requires { ShellLength self.now.values < 64 }
        ensures { result ≡ dataset_of self.now.values }
    {
        4 * (self.values[SHELL_LENGTH] as usize)
    }

    // The ISRN in words: its first two digits, and the sixteen others, as `judge_isrn` takes them.
    fn isrn(&self) -> (u64, u64)
        requires { Fitting self.now.values }
        ensures { (result.0 < 256) × (first (word_rules result.0 result.1) ≡ first (isrn_rules self.now.values)) }
    {
        let v = &self.values;
        let low = v[IIN] % 0x1_0000 * 0x1_0000_0000_0000
            + v[OID] * 0x1_0000_0000
            + v[ISSN] * 0x10
            + v[CHD];
        (v[IIN] / 0x1_0000, low)
    }

    // Whether the values keep their rules, and the dataset has room in `room` bytes.
    #[tactic(auto, using(std::proofs::lemmas::Bool::Decides::nat_tests, crate::proofs::Rules::fitting), unfolding(crate::specs::Encode::encode_number, rules::specs::First::first))]
    fn judge(&self, room: usize) -> Result<(), Reason>
        ensures { said result ≡ encode_number self.now.values room }
    {
        let v = &self.values;
        if !fields::all_fit(Layout::Shell, v) {
            return Err(Reason::TooLarge);
        }
        let bytes = self.dataset();
        form(v[SHELL_BIT_MAP], bytes)?;
        let (high, low) = self.isrn();
        judge_isrn(high, low)?;
        if room < bytes {
            return Err(Reason::WrongRoom);
        }
        Ok(())
    }

    // The dataset before SECR: the sixteen values and zero padding.
    #[tactic(auto, unfolding(crate::specs::Shell::body_of))]
    fn write_body(&self, s: &mut [u8])
        requires { (20 ≤ length s.old) × (length s.old ≡ dataset_of self.now.values - 2) }
        ensures { s.new ≡ body_of self.now.values }
    {
        s.fill(0);
        fields::write(s, Layout::Shell, &self.values);
    }

    // The dataset: the bytes before SECR, and SECR.
    fn write_dataset(&self, s: &mut [u8])
        requires { (22 ≤ length s.old) × (length s.old ≡ dataset_of self.now.values) }
        ensures { s.new ≡ encoded_shell self.now.values }
    {
        let end = s.len() - 2;
        self.write_body(&mut s[..end]);
        let [high, low] = crc::crc(&s[..end]).to_be_bytes();
        s[end..].copy_from_slice(&[high, low]);
    }

    // Judges the values, and writes the dataset of those that are taken. Tried as one function with `encode`: the edit `refusal_told_as_done` then changes the
    // call that the answers name, and can't be told at the answer.
    #[tactic(auto, using(crate::proofs::Rules::taken))]
    fn write(&self, out: &mut [u8]) -> Result<(), Reason>
        ensures { (said result ≡ encode_number self.now.values (length out.old)) × (out.new ≡ encode_in self.now.values out.old) }
    {
        self.judge(out.len())?;
        let extent = self.dataset();
        self.write_dataset(&mut out[..extent]);
        Ok(())
    }
}

// Writes the dataset of the values into the buffer; later bytes stay. Refused by 26, 5, 8, 12 or 21, nothing is altered.
pub fn encode(s: Shell, out: &mut [u8]) -> Result<(), Reason>
    ensures { (said result ≡ encode_number s.values (length out.old)) × (out.new ≡ encode_in s.values out.old) }
{
    s.write(out)
}
