// The finding on some bytes, and the line that is printed of a file.
ghost use Rattle.std.specs.Prelude.{◌≡◌, ◌++◌, ◌≤◌, length, Ok, IfOk, string_bytes, codes};
ghost use Rattle.refusal.specs.Numbers.{told};
ghost use Rattle.rows.specs.Captures.{capture};
ghost use Rattle.solid.specs.Questions.{solid_rows};
ghost use Rattle.solid.specs.Reading.{reading};
ghost use Rattle.report.specs.Texts.{words, Found};

use crate::accepted::Accepted;
use refusal::Refusal;
use rows::LONGEST;
use solid::Solid;
use std::alloc::{AllocError, Global};

// Saves a solid again and compares with the bytes that it came from. Apart from the reading, so that the place for the saved bytes
// is made only where there is something to save; an array, since examining a capture must not run out of memory.
fn saved_again(solid: &Solid, bytes: &[u8]) -> Result<Accepted, Refusal>
    requires came { capture (solid_rows solid.now) ≡ bytes.now }
    requires room { length bytes.now ≤ LONGEST }
    ensures { told result ≡ Found (Ok (solid_rows solid.now)) bytes.now }
{
    let mut buffer = [0u8; LONGEST];
    let saved = solid.save(&mut buffer)?;
    Ok(Accepted {
        counts: solid.counts(),
        saved,
        same: &buffer[..saved] == bytes,
    })
}

// Reads a capture, saves its solid again and compares.
pub fn examine(bytes: &[u8]) -> Result<Accepted, Refusal>
    ensures { told result ≡ Found (reading bytes.now) bytes.now }
{
    let mut solid = Solid::new();
    solid.read(bytes)?;
    saved_again(&solid, bytes)
}

// How the program is used.
pub fn usage() -> &'static str
    ensures { result.now ≡ codes "usage: capture FILE ..." }
{
    "usage: capture FILE ..."
}

// The line of a file whose bytes were read.
pub fn line(
    heap: Global,
    name: &str,
    finding: Result<Accepted, Refusal>,
) -> Result<String, AllocError>
    ensures { IfOk result (λ s. string_bytes s ≡ name.now ++ (codes ": " ++ words finding)) }
{
    match finding {
        Ok(accepted) => format!(in heap; "{name}: {accepted}"),
        Err(cause) => {
            let number = cause.number();
            format!(in heap; "{name}: refused {number}: {cause}")
        }
    }
}

// The line of a file that cannot be read.
pub fn unreadable(heap: Global, name: &str, why: &str) -> Result<String, AllocError>
    ensures { IfOk result (λ s. string_bytes s ≡ name.now ++ (codes ": cannot be read: " ++ why.now)) }
{
    format!(in heap; "{name}: cannot be read: {why}")
}
