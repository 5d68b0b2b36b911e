// Captures: reading one into a place, and saving the solid of a place.
ghost use Rattle.std.specs.Prelude.{◌≡◌, true, length, take, is_err, IfOk, Ok, OnOk};
ghost use Rattle.refusal.specs.Numbers.{told};
ghost use Rattle.rows.specs.Captures.{capture, saving, saved};
ghost use Rattle.solid.specs.Questions.{solid_rows, solid_meant};
ghost use Rattle.solid.specs.Reading.{reading, reply, held, copied, after_copy};

use crate::hold::Solid;
use refusal::Refusal;
use rows::Tables;

// The solid that a capture says.
fn solid_of(bytes: &[u8]) -> Result<Solid, Refusal>
    ensures answer { solid_meant result ≡ reading bytes.now }
    ensures again { IfOk result (λ s. capture (solid_rows s) ≡ bytes.now) }
{
    let tables = Tables::decode(bytes)?;
    rules::check(&tables)?;
    Ok(Solid { tables })
}

impl Solid {
    // Reads a capture into this place; refused by the first rule that it breaks, and the place is then as it was.
    // What was read is saved as the very bytes that it came from.
    pub fn read(&mut self, bytes: &[u8]) -> Result<(), Refusal>
        ensures answer { told result ≡ reply (reading bytes.now) }
        ensures place { solid_rows self.new ≡ held (reading bytes.now) (solid_rows self.old) }
        ensures unchanged { is_err result ≡ true → self.new ≡ self.old }
        ensures again { OnOk result (capture (solid_rows self.new) ≡ bytes.now) }
    {
        *self = solid_of(bytes)?;
        Ok(())
    }

    // Saves the capture from the buffer's start on and says its length; refused where the buffer is too short, which is then as it was.
    // What was saved is read as this very solid.
    pub fn save(&self, buffer: &mut [u8]) -> Result<usize, Refusal>
        ensures answer { told result ≡ saving (solid_rows self.now) buffer.old }
        ensures bytes { buffer.new ≡ saved (solid_rows self.now) buffer.old }
        ensures back { IfOk result (λ n. reading (take n buffer.new) ≡ Ok (solid_rows self.now)) }
    {
        self.tables.encode(buffer)
    }
}

// Reads a capture and saves its solid into the buffer: the same bytes, and how many they are.
// Refused as the reading or the saving is, and the buffer is then as it was.
pub fn copy(bytes: &[u8], buffer: &mut [u8]) -> Result<usize, Refusal>
    ensures answer { told result ≡ copied (reading bytes.now) buffer.old }
    ensures bytes { buffer.new ≡ after_copy bytes.now (told result) buffer.old }
    ensures length { IfOk result (λ n. n ≡ length bytes.now) }
{
    let mut solid = Solid::new();
    solid.read(bytes)?;
    solid.save(buffer)
}
