// Numbers in bytes, all little-endian.
ghost use Rattle.std.specs.Prelude.{◌≡◌, ◌+◌, ◌*◌, ◌<◌, ◌≤◌, length};
ghost use Rattle.pauli.specs.Bytes.{u16_at, u32_at, numbers_at, u32s_in};

// The number that the two bytes from byte i on write.
pub fn u16_at(b: &[u8], i: usize) -> usize
    requires { i + 1 < length b.now }
    ensures { (result ≡ u16_at b.now i) × (result < 65536) }
{
    u16::from_le_bytes([b[i], b[i + 1]]) as usize
}

// The number that the four bytes from byte i on write.
pub fn u32_at(b: &[u8], i: usize) -> u32
    requires { i + 3 < length b.now }
    ensures { result ≡ u32_at b.now i }
{
    u32::from_le_bytes([b[i], b[i + 1], b[i + 2], b[i + 3]])
}

// The `total` numbers from byte at on, each as its four bytes.
pub fn numbers_at(b: &[u8], at: usize, total: usize) -> &[[u8; 4]]
    requires { at + 4 * total ≤ length b.now }
    ensures { u32s_in result.now ≡ numbers_at b.now at total }
{
    b[at..at + 4 * total].as_chunks::<4>().0
}
