// Words, counts and bits in bytes, and parts that are cleared or copied. Only this crate knows the byte order.
// The four or eight bytes of a number are one part: where indices are checked at run time, that takes one check.
// What works on the pool alone takes `Bytes`; a place in bytes that may be a table, a list, a file or a part is a plain number.
#![tactic(auto)]

ghost use Rattle.std.specs.Prelude.{◌≡◌, ◌⊎◌, ℕ, ◌+◌, ◌-◌, ◌*◌, ◌^◌, ◌<◌, ◌≤◌, length, take, drop, replicate};
ghost use Rattle.std.proofs.Common.{rules};
ghost use Rattle.std.proofs.lemmas.List.Edits.{sets};
ghost use Rattle.rules.specs.Words.{bytes_of, two_bytes_of, first_two, word_at, with_word};
ghost use Rattle.memory.specs.Bits.{BitsFrom};

use numbers::Bytes;

// Word i of the bytes. `bits` reads the same four bytes, and promises their bits: this one promises the number that the rules make of them.
pub fn word(bytes: &[u8], i: usize) -> u32
    requires { 4 * i + 4 ≤ length bytes.now }
    ensures { result ≡ word_at bytes.now i }
{
    let at = 4 * i;
    let part = &bytes[at..at + 4];
    u32::from_le_bytes([part[0], part[1], part[2], part[3]])
}

// The number in the two bytes from `at` on, the first the lowest.
pub fn two_bytes(bytes: &[u8], at: usize) -> usize
    requires { at + 2 ≤ length bytes.now }
    ensures { result ≡ first_two (drop at bytes.now) }
{
    usize::from(u16::from_le_bytes([bytes[at], bytes[at + 1]]))
}

// The N bytes from `at` on become these.
// One by one, as in `set_part`: where it is built for size, `copy_from_slice` would be a call of `memcpy`.
fn set_bytes<const N: usize>(bytes: &mut [u8], at: usize, these: [u8; N])
    requires { at + N ≤ length bytes.old }
    ensures { bytes.new ≡ sets bytes.old at these.entry }
{
    let part = &mut bytes[at..at + N];
    for i in 0..N {
        part[i] = these[i];
    }
}

// The two bytes from `at` on become the two lowest of n, the lowest first.
pub fn set_two_bytes(bytes: &mut [u8], at: usize, n: usize)
    requires { at + 2 ≤ length bytes.old }
    ensures { bytes.new ≡ sets bytes.old at (two_bytes_of n) }
{
    let low = (n % 65536) as u16;
    set_bytes(bytes, at, low.to_le_bytes());
}

// The four bytes from `at` on become those of w, the lowest first.
pub fn set_four_bytes(bytes: &mut [u8], at: usize, w: u32)
    requires { at + 4 ≤ length bytes.old }
    ensures { bytes.new ≡ sets bytes.old at (bytes_of w) }
{
    set_bytes(bytes, at, w.to_le_bytes());
}

// w becomes word i.
pub fn set_word(bytes: &mut [u8], i: usize, w: u32)
    requires { 4 * i + 4 ≤ length bytes.old }
    ensures { bytes.new ≡ with_word bytes.old i w }
{
    set_four_bytes(bytes, 4 * i, w);
}

// A number that is read from as many bytes as it has, the first the lowest.
pub trait FromBytes: Copy {
    ghost BYTES: { ℕ };

    const BYTES: usize;

    ghost value: { Self → ℕ };

    // The number in the part.
    fn from_part(part: &[u8]) -> Self
        requires { length part.now ≡ BYTES }
        ensures { BitsFrom part.now 0 BYTES (value result) };

    // No bits.
    fn zero() -> Self
        ensures { value result ≡ 0 };

    // The byte's bits below those of the number, of which the highest byte has none.
    fn above(self, byte: u8) -> Self
        requires { value self * 256 < 2 ^ (8 * BYTES) }
        ensures { value result ≡ value self * 256 + byte };

    ghost few_bytes: { BYTES ≤ 8 };
}

impl FromBytes for u32 {
    ghost BYTES = { 4 };

    const BYTES: usize = 4;

    ghost value = { λ n. n };

    ghost few_bytes = { Prim.search rules };

    fn from_part(part: &[u8]) -> u32 {
        u32::from_le_bytes([part[0], part[1], part[2], part[3]])
    }

    fn zero() -> u32 {
        0
    }

    fn above(self, byte: u8) -> u32 {
        (self << 8) | u32::from(byte)
    }
}

impl FromBytes for u64 {
    ghost BYTES = { 8 };

    const BYTES: usize = 8;

    ghost value = { λ n. n };

    ghost few_bytes = { Prim.search rules };

    fn from_part(part: &[u8]) -> u64 {
        u64::from_le_bytes([
            part[0], part[1], part[2], part[3], part[4], part[5], part[6], part[7],
        ])
    }

    fn zero() -> u64 {
        0
    }

    fn above(self, byte: u8) -> u64 {
        (self << 8) | u64::from(byte)
    }
}

// The bits of as many bytes from `at` on as the number has, those of the first the lowest.
pub fn bits<W: FromBytes>(bytes: &[u8], at: usize) -> W
    requires { at + W.BYTES ≤ length bytes.now }
    ensures { BitsFrom bytes.now at W.BYTES (W.value result) }
{
    let end = at + W::BYTES;
    W::from_part(&bytes[at..end])
}

// The same of the bytes from `from` to before `to`, which are at most as many. The other bits are 0.
pub fn last_bits<W: FromBytes>(bytes: &[u8], from: usize, to: usize) -> W
    requires { (from ≤ to) × ((to ≤ from + W.BYTES) × (to ≤ length bytes.now)) }
    ensures { BitsFrom bytes.now from (to - from) (W.value result) }
{
    let mut bits = W::zero();
    for i in (from..to).rev() {
        bits = bits.above(bytes[i]);
    }
    bits
}

// Every byte of the part becomes zero.
// A loop is one call of `memset` to the compiler. `fill` stores the last byte by itself in the x86-64 archive: 16 bytes then take 5.8 ns in place of 4.2.
pub fn clear(part: &mut [u8])
    ensures { part.new ≡ replicate (length part.old) 0 }
{
    for byte in part.iter_mut() {
        *byte = 0;
    }
}

// The pool's bytes from start to end become zero.
pub fn clear_part(pool: &mut [u8], start: Bytes, end: Bytes)
    requires { (start.0 ≤ end.0) × (end.0 ≤ length pool.old) }
    ensures { pool.new ≡ sets pool.old start.0 (replicate (end.0 - start.0) 0) }
{
    clear(&mut pool[start.index()..end.index()]);
}

// The count bytes from `from` on are copied to `to`. The two parts do not overlap.
// Byte by byte: `copy_within` would be a call of `memmove`, and the library calls nothing but `memset` (README).
pub fn copy(pool: &mut [u8], from: Bytes, to: Bytes, count: Bytes)
    requires count_in_bounds { (from.0 + count.0 ≤ length pool.old) × (to.0 + count.0 ≤ length pool.old) }
    requires apart { (from.0 + count.0 ≤ to.0) ⊎ (to.0 + count.0 ≤ from.0) }
    ensures { pool.new ≡ sets pool.old to.0 (take count.0 (drop from.0 pool.old)) }
{
    let source = from.index();
    let target = to.index();
    for i in 0..count.index() {
        pool[target + i] = pool[source + i];
    }
}

// The bytes from `at` on become those of the part.
// Byte by byte: `copy_from_slice` would be a call of `memcpy`, and the library calls nothing but `memset` (README).
pub fn set_part(bytes: &mut [u8], at: usize, part: &[u8])
    requires { at + length part.now ≤ length bytes.old }
    ensures { bytes.new ≡ sets bytes.old at part.now }
{
    for (i, byte) in part.iter().enumerate() {
        bytes[at + i] = *byte;
    }
}
