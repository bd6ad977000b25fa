// The packed order of heap images, four blocks to a byte. Beside `entries` and `whole` only this crate knows how entries lie in bytes.
#![tactic(auto)]

ghost use Rattle.std.specs.Prelude.{◌≡◌, [], ◌∷◌, ◌+◌, ◌*◌, ◌/◌, ◌≤◌, ◌<◌, length};
ghost use Rattle.std.proofs.lemmas.List.Edits.{sets};
ghost use Rattle.rules.specs.Entries.{entries_of, table_of};
ghost use Rattle.rules.specs.Tables.{used as used_of, well_formed};
ghost use Rattle.rules.specs.Planes.{Sized, Holds};
ghost use Rattle.packing.specs.Packing.{Spread, Interleaved, Gathered, UnpacksOn};
ghost use Rattle.entries.specs.Lent.{entries_of as lent_entries};

use entries::Table;

// The bits of a byte, spread: bit j becomes bit 2 * j.
fn spread(b: u8) -> u16
    ensures { Spread b result }
{
    let all = u16::from(b);
    let fours = (all | (all << 4)) & 0x0F0F;
    let twos = (fours | (fours << 2)) & 0x3333;
    (twos | (twos << 1)) & 0x5555
}

// The eight entries whose low and high bits are these, packed into two bytes.
fn interleave(low: u8, high: u8) -> u16
    ensures { Interleaved low high result }
{
    spread(low) | (spread(high) << 1)
}

// The packed table of the entries, four blocks to a byte, from byte `at` of the buffer on: a byte of both planes at a time, and half of the last one where four blocks are left.
pub fn pack(table: &Table, buffer: &mut [u8], at: usize)
    requires { at + length (lent_entries table.now) / 4 ≤ length buffer.old }
    ensures { buffer.new ≡ sets buffer.old at (table_of (lent_entries table.now)) }
{
    let planes = table.planes();
    let pairs = table.blocks() / 8;
    for i in 0..pairs {
        let eight = interleave(planes.lows[i], planes.highs[i]);
        memory::set_two_bytes(&mut *buffer, at + 2 * i, usize::from(eight));
    }
    if pairs < planes.lows.len() {
        let four = interleave(planes.lows[pairs], planes.highs[pairs]);
        buffer[at + 2 * pairs] = (four % 256) as u8;
    }
}

// How many entries of a packed byte are not FREE: each has one of its two bits, or both.
fn used_in(b: u8) -> u16
    ensures few { result ≤ 4 }
    ensures value { result ≡ used_of (entries_of (b ∷ [])) }
{
    ((b | (b >> 1)) & 0x55).count_ones() as u16
}

// How many entries of a packed table are not FREE.
pub fn used(packed: &[u8]) -> usize
    requires { length packed.now ≤ 1024 }
    ensures { result ≡ used_of (entries_of packed.now) }
{
    let n: u16 = packed.iter().map(|b| used_in(*b)).sum();
    usize::from(n)
}

// Whether there is no MARK, block 0 is no TAIL, and no TAIL follows a FREE.
pub fn well_formed(packed: &[u8]) -> bool
    ensures { result ≡ well_formed (entries_of packed.now) }
{
    let mut bad: u8 = 0;
    let mut before: u8 = 0;
    for &b in packed {
        let low = b & 0x55;
        let high = (b >> 1) & 0x55;
        let used = low | high;
        bad = bad | (low & high) | (high & !((used << 2) | before));
        before = used >> 6;
    }
    bad == 0
}

// The bits at even places, gathered: bit 2 * j becomes bit j. It undoes `spread`.
fn gather(x: u16) -> u8
    ensures { Gathered x result }
{
    let singles = x & 0x5555;
    let twos = (singles | (singles >> 1)) & 0x3333;
    let fours = (twos | (twos >> 2)) & 0x0F0F;
    ((fours | (fours >> 4)) & 0x00FF) as u8
}

// The entries of two packed bytes become byte i of both planes.
fn unpack_eight(table: &mut [u8], half: usize, i: usize, a: u8, b: u8)
    requires { (i < half) × (length table.old ≡ 2 * half) }
    ensures { UnpacksOn half i (b * 256 + a) table.old table.new }
{
    let eight = u16::from_le_bytes([a, b]);
    table[i] = gather(eight);
    table[half + i] = gather(eight >> 1);
}

// The planes of a packed table of t bytes: two of its bytes become one of each plane, the last one half of one if t is odd. Spare bits are zero then.
pub fn unpack(t: usize, packed: &[u8], table: &mut [u8])
    requires { Sized t table.old × (length packed.now ≡ t) }
    ensures { Holds t (entries_of packed.now) table.new }
{
    let half = entries::plane_bytes(t);
    let pairs = t / 2;
    for i in 0..pairs {
        unpack_eight(&mut *table, half, i, packed[2 * i], packed[2 * i + 1]);
    }
    if pairs < half {
        unpack_eight(&mut *table, half, pairs, packed[2 * pairs], 0);
    }
}
