// The allocation table: two bit planes for 4t blocks, the low bits of all entries and then their high bits, eight blocks to a byte.
// Only this crate, `whole` and `packing` know where an entry's bits lie; `freeruns` and `search` also know that it has two planes.
#![tactic(auto)]

ghost use Rattle.std.specs.Prelude.{◌≡◌, true, List, ℕ, ◌+◌, ◌-◌, ◌*◌, ◌^◌, ◌≤◌, ◌<◌, eqb, leb, ltb, length, set, replicate};
ghost use Rattle.std.proofs.lemmas.List.Edits.{sets};
ghost use Rattle.rules.specs.Tests.{pick, both};
ghost use Rattle.rules.specs.Bits.{bit_of, bit_at};
ghost use Rattle.rules.specs.Entries.{HEAD as head, MARK as mark};
ghost use Rattle.rules.specs.Tables.{entry_at, is_head, is_tail, well_formed, block_count};
ghost use Rattle.rules.specs.Planes.{plane_bytes, entries_in, Sized, IsTable, Holds};
ghost use Rattle.memory.specs.Bits.{BitsFrom};
ghost use Rattle.entries.specs.Numbers.{number_of};
ghost use Rattle.entries.specs.Groups.{Span, InLanes, InPlanes, InParts};
ghost use Rattle.entries.specs.Marking.{MarksHead};

use memory::FromBytes;
use numbers::Block;

// What a block is: FREE, the HEAD of an object, a TAIL of one, or a HEAD that is marked.
#[derive(Clone, Copy, PartialEq, Eq)]
pub enum Entry {
    Free,
    Head,
    Tail,
    Mark,
}

// How many blocks the table rules.
pub fn blocks(t: usize) -> usize
    requires { t ≤ 1024 }
    ensures { (table : List ℕ) → result ≡ length (entries_in t table) }
{
    4 * t
}

// How many bytes each plane has. The second starts behind the first.
pub fn plane_bytes(t: usize) -> usize
    requires { t ≤ 1024 }
    ensures { result ≡ plane_bytes t }
{
    (t + 1) / 2
}

// Whether the table has the length of two planes for 4t blocks.
pub fn fits(t: usize, table: &[u8]) -> bool
    requires { t ≤ 1024 }
    ensures { result ≡ eqb (length table.now) (2 * plane_bytes t) }
{
    table.len() == 2 * plane_bytes(t)
}

// Bit j of a byte. Of a wider number the compiler tests it in one step.
fn bit(b: u8, j: usize) -> u8
    requires { j < 8 }
    ensures { result ≡ bit_of b j }
{
    ((u32::from(b) >> j) & 1) as u8
}

// A table of 4t blocks that is lent to be read. No spare bit of it is set; what its entries are is not tested. What writes a table takes t and the bytes, and asks
// by a clause that they are one: a struct of a `&mut` and a fact about it gets no generated proof.
#[derive(Clone, Copy)]
pub struct Table<'a> {
    t: usize,
    bytes: &'a [u8],
    pub ghost is_table: { IsTable t bytes.now },
}

impl<'a> Table<'a> {
    ghost use Rattle.entries.specs.Lent.{entries_of};

    // The lent bytes as a table of 4t blocks.
    #[inline]
    pub fn new(t: usize, bytes: &'a [u8]) -> Table<'a>
        requires { IsTable t bytes.now }
        ensures { entries_of result ≡ entries_in t bytes.now }
    {
        Table { t, bytes }
    }

    // How many blocks it rules.
    #[inline]
    pub fn blocks(&self) -> usize
        ensures { result ≡ length (entries_of self.now) }
    {
        blocks(self.t)
    }

    // Its two planes.
    #[inline]
    pub fn planes(&self) -> Planes<'a>
        ensures hold { InPlanes (entries_of self.now) result.lows.now result.highs.now }
        ensures lows { length result.lows.now ≡ plane_bytes self.now.t }
        ensures highs { length result.highs.now ≡ plane_bytes self.now.t }
    {
        let half = plane_bytes(self.t);
        Planes {
            lows: &self.bytes[0..half],
            highs: &self.bytes[half..2 * half],
        }
    }

    // The entry of block k.
    #[inline]
    pub fn entry_at(&self, k: Block) -> Entry
        requires { k.0 < length (entries_of self.now) }
        ensures { number_of result ≡ entry_at (entries_of self.now) k.0 }
    {
        let i = k.index();
        let high = plane_bytes(self.t) + i / 8;
        match bit(self.bytes[i / 8], i % 8) + 2 * bit(self.bytes[high], i % 8) {
            0 => Entry::Free,
            1 => Entry::Head,
            2 => Entry::Tail,
            _ => Entry::Mark,
        }
    }

    // Whether block k's low bit is LOW and its high bit the other: so is a HEAD for LOW 1, and a TAIL for LOW 0. Where the low bit tells, the high one is not read.
    #[inline]
    fn is<const LOW: u8>(&self, k: Block) -> bool
        requires { (LOW < 2) × (k.0 < length (entries_of self.now)) }
        ensures { result ≡ eqb (entry_at (entries_of self.now) k.0) (2 - LOW) }
    {
        let i = k.index();
        if bit(self.bytes[i / 8], i % 8) != LOW {
            return false;
        }
        let high = plane_bytes(self.t) + i / 8;
        bit(self.bytes[high], i % 8) != LOW
    }

    // Whether block k is HEAD.
    #[inline]
    pub fn is_head(&self, k: Block) -> bool
        requires { k.0 < length (entries_of self.now) }
        ensures { result ≡ is_head (entry_at (entries_of self.now) k.0) }
    {
        self.is::<1>(k)
    }

    // Whether block k is TAIL.
    #[inline]
    pub fn is_tail(&self, k: Block) -> bool
        requires { k.0 < length (entries_of self.now) }
        ensures { result ≡ is_tail (entry_at (entries_of self.now) k.0) }
    {
        self.is::<0>(k)
    }

    // Whether block k is the head of an object of two blocks. There is no MARK: so a low bit is a HEAD's, and a high bit a TAIL's.
    pub fn is_pair(&self, k: Block) -> bool
        requires { (k.0 < length (entries_of self.now)) × (well_formed (entries_of self.now) ≡ true) }
        ensures { result ≡ both (is_head (entry_at (entries_of self.now) k.0)) (eqb (block_count (entries_of self.now) k.0) 2) }
    {
        let Planes { lows, highs } = self.planes();
        let i = k.index();
        if plane_bit(lows, i) == 0 {
            return false;
        }
        if plane_bit(highs, i + 1) == 0 {
            return false;
        }
        plane_bit(highs, i + 2) == 0
    }

    // The entries of the blocks in number i of the table. Past its end they are FREE. The planes are not cut out: that is slower for one group.
    pub fn group<W: FromBytes>(&self, i: usize) -> Lanes<W>
        requires { 8 * W.BYTES * i < length (entries_of self.now) }
        ensures { InLanes (8 * W.BYTES) (entries_of self.now) i (W.value result.low) (W.value result.high) }
    {
        let half = plane_bytes(self.t);
        let at = W::BYTES * i;
        if at + W::BYTES <= half {
            return Lanes {
                low: memory::bits(self.bytes, at),
                high: memory::bits(self.bytes, half + at),
            };
        }
        Lanes {
            low: memory::last_bits(self.bytes, at, half),
            high: memory::last_bits(self.bytes, half + at, 2 * half),
        }
    }
}

// Bit i of a plane. Past its end it is 0.
fn plane_bit(plane: &[u8], i: usize) -> u8
    ensures { result ≡ bit_at plane.now i }
{
    match plane.get(i / 8) {
        Some(byte) => bit(*byte, i % 8),
        None => 0,
    }
}

// Block k, a HEAD, becomes MARK: its high bit is set.
pub fn set_mark(t: usize, table: &mut [u8], k: Block)
    requires { IsTable t table.old × (entry_at (entries_in t table.old) k.0 ≡ head) }
    ensures { Holds t (set (entries_in t table.old) k.0 mark) table.new }
{
    let i = k.index();
    let high = plane_bytes(t) + i / 8;
    table[high] = table[high] | (1 << (i % 8));
}

// The bits of byte i of a plane that are of the blocks from `from` on.
fn bits_from(i: usize, from: usize) -> u8
    requires { (i < 512) × (from < 8 * i + 8) }
    ensures { (j : ℕ) → j < 8 → bit_of result j ≡ pick (leb from (8 * i + j)) 1 0 }
{
    255 << from.saturating_sub(8 * i)
}

// The bits of byte i of a plane that are of the blocks before `to`.
fn bits_to(i: usize, to: usize) -> u8
    requires { (i < 512) × (8 * i < to) }
    ensures { (j : ℕ) → j < 8 → bit_of result j ≡ pick (ltb (8 * i + j) to) 1 0 }
{
    255 >> (8 * i + 8).saturating_sub(to)
}

// The bits of byte i of a plane that are of the blocks from `from` to before `to`.
fn span(i: usize, from: usize, to: usize) -> u8
    requires { (i < 512) × ((from < 8 * i + 8) × (8 * i < to)) }
    ensures { Span i from to result }
{
    bits_from(i, from) & bits_to(i, to)
}

// The byte b with each bit that is set in `bits` as `to`.
fn with_bits(b: u8, bits: u8, to: u8) -> u8
    requires { to < 2 }
    ensures { (j : ℕ) → bit_of result j ≡ pick (eqb (bit_of bits j) 1) to (bit_of b j) }
{
    (b & !bits) | (bits * to)
}

// e becomes the entry of each of the count blocks from `from` on, a byte of both planes at a time.
pub fn set_run(t: usize, table: &mut [u8], from: Block, count: usize, e: Entry)
    requires { IsTable t table.old × (from.0 + count ≤ length (entries_in t table.old)) }
    ensures { Holds t (sets (entries_in t table.old) from.0 (replicate count (number_of e))) table.new }
{
    let first = from.index();
    let end = first + count;
    let half = plane_bytes(t);
    // A range is slower here: on a Cortex-M3 an allocation took 2,558 instructions with one, and 2,507 without.
    let mut i = first / 8;
    while 8 * i < end {
        let bits = span(i, first, end);
        table[i] = with_bits(table[i], bits, e as u8 % 2);
        table[half + i] = with_bits(table[half + i], bits, e as u8 / 2);
        i += 1;
    }
}

// Every block becomes FREE, and every spare bit zero.
pub fn clear(table: &mut [u8])
    ensures { (t : ℕ) → Sized t table.old → Holds t (replicate (length (entries_in t table.old)) 0) table.new }
{
    memory::clear(table);
}

// The entries of as many blocks as a number has bits: a bit of each in two numbers, that of the first block the lowest.
#[derive(Clone, Copy)]
pub struct Lanes<W> {
    pub low: W,
    pub high: W,
}

// The two planes of a table, each a part of its own, cut once for many numbers: then a bounds check of each is cheap.
#[derive(Clone, Copy)]
pub struct Planes<'a> {
    pub lows: &'a [u8],
    pub highs: &'a [u8],
}

impl Planes<'_> {
    // The entries of the blocks in number i of the planes.
    #[inline]
    pub fn words_at<W: FromBytes>(&self, i: usize) -> Lanes<W>
        requires { (W.BYTES * i + W.BYTES ≤ length self.now.lows.now) × (W.BYTES * i + W.BYTES ≤ length self.now.highs.now) }
        ensures { InParts (8 * W.BYTES) self.now.lows.now self.now.highs.now i (W.value result.low) (W.value result.high) }
    {
        let at = W::BYTES * i;
        Lanes {
            low: memory::bits(self.lows, at),
            high: memory::bits(self.highs, at),
        }
    }

    // The same where the planes end in these blocks. Past the end they are FREE.
    #[inline]
    pub fn last_words<W: FromBytes>(&self, i: usize) -> Lanes<W>
        requires { (W.BYTES * i ≤ length self.now.lows.now) × ((length self.now.lows.now ≤ W.BYTES * i + W.BYTES) × (length self.now.highs.now ≡ length self.now.lows.now)) }
        ensures { InParts (8 * W.BYTES) self.now.lows.now self.now.highs.now i (W.value result.low) (W.value result.high) }
    {
        let at = W::BYTES * i;
        Lanes {
            low: memory::last_bits(self.lows, at, self.lows.len()),
            high: memory::last_bits(self.highs, at, self.highs.len()),
        }
    }
}

// The bits of the 32 blocks from block 32 * i on, of one plane: half of what `words_at` reads, for loops that join both planes at once.
pub fn word_at(plane: &[u8], i: usize) -> u32
    requires { 4 * i + 4 ≤ length plane.now }
    ensures { BitsFrom plane.now (4 * i) 4 result }
{
    memory::bits(plane, 4 * i)
}

// What a block was when it was to be marked: a HEAD, which is then MARK, a TAIL, or another entry or none.
#[derive(Clone, Copy)]
pub enum Met {
    Head,
    Tail,
    Other,
}

// Block k becomes MARK if it is a HEAD; there may be no such block. One test of the place of its high bit is enough: if that is in the table, so is its low
// bit. A HEAD and a TAIL have one bit of the two.
pub fn mark_head(t: usize, table: &mut [u8], k: Block) -> Met
    requires { IsTable t table.old × (k.0 < 2 ^ 32) }
    ensures { MarksHead t (entries_in t table.old) k.0 table.new result }
{
    let i = k.index();
    let up = plane_bytes(t) + i / 8;
    if table.len() <= up {
        return Met::Other;
    }
    let one: u32 = 1 << (i % 8);
    let high = u32::from(table[up]);
    if (u32::from(table[i / 8]) ^ high) & one == 0 {
        return Met::Other;
    }
    if high & one != 0 {
        return Met::Tail;
    }
    table[up] = (high | one) as u8;
    Met::Head
}
