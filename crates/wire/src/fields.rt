// Fields of a message: a byte, and numbers of two and four bytes, the high byte first. And bytes put into a buffer.
ghost use Rattle.std.specs.Prelude.{◌≡◌, ◌+◌, ◌*◌, ◌++◌, length, take, drop, min};
ghost use Rattle.wire.specs.Fields.{byte, joined};

// The byte at a place, and 0 past the end.
pub fn byte_at(m: &[u8], at: usize) -> u8
    ensures { result ≡ byte m.now at }
{
    m.get(at).copied().unwrap_or(0)
}

// Two bytes, the high one first.
pub fn word(high: u8, low: u8) -> u16
    ensures { result ≡ joined high low }
{
    u16::from_be_bytes([high, low])
}

// Copies bytes to the front of a buffer, as many as it has room for, and answers how many.
pub fn copy(bytes: &[u8], to: &mut [u8]) -> usize
    ensures count { result ≡ min (length bytes.now) (length to.old) }
    ensures left { to.new ≡ take result bytes.now ++ drop result to.old }
{
    let n = bytes.len().min(to.len());
    to[..n].copy_from_slice(&bytes[..n]);
    n
}
