// A trial of damaged captures: every capture that differs from a given one in a single byte gets an answer.
#![tactic(auto)]

mod tally;

ghost use Rattle.std.specs.Prelude.{◌≡◌, ◌<◌, length, bit_xor, slice_index, slice_set};
ghost use Rattle.refusal.specs.Numbers.{told};
ghost use Rattle.solid.specs.Reading.{reading};
ghost use Rattle.report.specs.Texts.{Found};

use crate::tally::Tally;
use refusal::Refusal;
use report::{Accepted, examine};
use std::{env, fs, io};

// How a byte is changed: its lowest bit, its highest, all of them.
const CHANGES: [u8; 3] = [1, 128, 255];

// What is found of the bytes with one of them changed, which is then changed back.
// That they are as they were is said of each call here and below, since no type can say it.
fn changed(bytes: &mut [u8], at: usize, change: u8) -> Result<Accepted, Refusal>
    requires { at < length bytes.old }
    ensures finding { let damaged = slice_set bytes.old at (bit_xor (slice_index bytes.old at) change) in
        told result ≡ Found (reading damaged) damaged }
    ensures back { bytes.new ≡ bytes.old }
{
    let kept = bytes[at];
    bytes[at] = kept ^ change;
    let finding = examine(bytes);
    bytes[at] = kept;
    finding
}

// Notes what is found of each change of one byte.
fn note_changes(tally: &mut Tally, bytes: &mut [u8], at: usize)
    requires { at < length bytes.old }
    ensures { bytes.new ≡ bytes.old }
{
    for change in CHANGES {
        tally.note(changed(bytes, at, change));
    }
}

// Every change of one byte: by places, since all bytes are examined while one is changed.
fn tried(bytes: &mut [u8]) -> Tally
    ensures { bytes.new ≡ bytes.old }
{
    let mut tally = Tally::new();
    for at in 0..bytes.len() {
        note_changes(&mut tally, bytes, at);
    }
    tally
}

fn main(rt: HostRuntime) -> io::Result<()> {
    for name in env::args(&rt)?.skip(1) {
        let mut bytes = fs::read(&rt, name.as_str())?;
        let changes = bytes.len().saturating_mul(CHANGES.len());
        let tally = tried(&mut bytes);
        println!(rt; "{name}: {changes} changes: {tally}")?;
    }
    Ok(())
}
