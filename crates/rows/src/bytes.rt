// Bytes and the numbers that they say: read at a place of a capture, put at a place of a buffer.
ghost use Rattle.std.specs.Prelude.{◌≡◌, ◌+◌, ◌≤◌, length};
ghost use Rattle.rows.specs.Bytes.{u16_at, in16, written};

// The number in the two bytes at a place.
pub(crate) fn u16_at(bytes: &[u8], at: usize) -> u16
    requires { at + 2 ≤ length bytes.now }
    ensures { result ≡ u16_at bytes.now at }
{
    u16::from_le_bytes([bytes[at], bytes[at + 1]])
}

// A whole number in 16 bits, two's complement: exact from -32768 to 32767. By remainder, as the format's
// definition has it; `as` may lose nothing.
pub(crate) fn low16(a: i64) -> u16
    ensures { result ≡ in16 a }
{
    a.rem_euclid(65536) as u16
}

// Bytes written over a buffer, from a place on.
pub(crate) fn put(buffer: &mut [u8], at: usize, bytes: &[u8])
    requires { at + length bytes.now ≤ length buffer.old }
    ensures { buffer.new ≡ written at bytes.now buffer.old }
{
    buffer[at..at + bytes.len()].copy_from_slice(bytes);
}
