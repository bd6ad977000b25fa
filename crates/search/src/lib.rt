// The search for room: where blocks may next start, and how many are FREE from a block on, 32 blocks at a time. Words of the planes in which the blocks may
// not start are passed in a loop that does little else.
#![tactic(auto)]

ghost use Rattle.std.specs.Prelude.{◌≡◌, false, ℕ, ◌+◌, ◌-◌, ◌*◌, ◌≤◌, ◌<◌, max, leb, length};
ghost use Rattle.rules.specs.Tests.{pick};
ghost use Rattle.rules.specs.Bits.{bit_of};
ghost use Rattle.search.specs.Starts.{NoStart, AllSet, NoneSet, Starts, Next, FreeFor};
ghost use Rattle.entries.specs.Lent.{entries_of};

use entries::Table;
use numbers::Block;

// The bits of the blocks of 32 that are aligned for four blocks or more.
const ALIGNED: u32 = 0x11111111;

// A bit for each of 32 blocks at which count blocks may start, where `free` has the bits of those that are FREE, and `next` those of the 32 that follow. Of more than 32
// blocks only the first four are looked at.
fn starts(free: u32, next: u32, count: usize) -> u32
    requires { 0 < count }
    ensures { Starts free next count result }
{
    if count < 4 {
        return freeruns::row_starts(free, next, count);
    }
    let fours = free & (free >> 1) & (free >> 2) & (free >> 3) & ALIGNED;
    if fours == 0 {
        return 0;
    }
    if 32 < count {
        return fours;
    }
    fours & freeruns::row_starts(free, next, count)
}

// A bit for each FREE block of 32, and if more than one block is asked for only where the next is FREE too.
fn candidates(free: u32, next: u32, count: usize) -> u32
    requires { 0 < count }
    ensures { (j : ℕ) → j < 32 → AllSet free next count j → bit_of result j ≡ 1 }
{
    if count < 2 {
        return free;
    }
    free & ((free >> 1) | (next << 31))
}

// Whether count blocks may start in 32 blocks. Most words have no candidates.
fn may_start(free: u32, next: u32, count: usize) -> bool
    requires { 0 < count }
    ensures { result ≡ false → NoneSet free next count }
{
    if candidates(free, next, count) == 0 {
        return false;
    }
    starts(free, next, count) != 0
}

// The word before word `at`, but none before word i. By `max` and `saturating_sub` the registers of `pass` run short: a search for 4 blocks that finds no
// room takes 495 ns in place of 310 (rustc, x86-64).
fn word_before(i: usize, at: usize) -> usize
    ensures { result ≡ max i (at - 1) }
{
    if i < at {
        return at - 1;
    }
    i
}

// Where the search from block 32 * i on may begin: at block 32 * r, before which count blocks may start nowhere.
fn pass(table: &Table, i: usize, count: usize) -> usize
    requires { (i ≤ 128) × (0 < count) }
    ensures { (i ≤ result) × ((result ≤ 128) × NoStart (entries_of table.now) count (32 * i) (32 * result)) }
{
    let planes = table.planes();
    let words = planes.lows.len() / 4;
    let mut free: u32 = 0;
    for at in i..words {
        let next = !(entries::word_at(planes.lows, at) | entries::word_at(planes.highs, at));
        if may_start(free, next, count) {
            return word_before(i, at);
        }
        free = next;
    }
    word_before(i, words)
}

// A bit for each of the 32 blocks from block 32 * at on that is not before block `from`. That of a byte, in
// `entries`, is as short: a trait for both would be longer.
fn bits_from(at: usize, from: usize) -> u32
    requires { (at ≤ 128) × (from < 32 * at + 32) }
    ensures { (j : ℕ) → j < 32 → bit_of result j ≡ pick (leb from (32 * at + j)) 1 0 }
{
    u32::MAX << from.saturating_sub(32 * at)
}

// The first block from `from` on at which count blocks may start, or the end of the table, which ends the caller's loop as any block does that is too near to it.
pub fn next(table: &Table, from: Block, count: usize) -> Block
    requires { (from.0 ≤ length (entries_of table.now)) × (0 < count) }
    ensures { Next (entries_of table.now) count from.0 result.0 }
{
    let n = table.blocks();
    let first = from.index();
    // No range counts these words: `pass` says which is the next.
    let mut at = pass(table, first / 32, count);
    while 32 * at < n {
        let free = freeruns::free_or_end(table, at) & bits_from(at, first);
        let found = starts(free, freeruns::free_or_end(table, at + 1), count);
        if found != 0 {
            return Block::first().plus(32 * at + found.trailing_zeros() as usize);
        }
        at = pass(table, at + 1, count);
    }
    Block::first().plus(n)
}

// How many blocks are FREE from a block on, as far as 32 blocks go of which it is one, and whether a used block or the table's end comes directly after them.
// No Option holds the two: `free` counts also where they have ended.
#[derive(Clone, Copy)]
pub struct Ahead {
    pub free: usize,
    pub ended: bool,
}

pub fn free_from(table: &Table, k: Block) -> Ahead
    requires { k.0 < length (entries_of table.now) }
    ensures { FreeFor (entries_of table.now) k.0 result.free result.ended }
{
    let at = k.index();
    let j = at % 32;
    let free = freeruns::row_from(freeruns::free_or_end(table, at / 32), j);
    Ahead {
        free,
        ended: j + free < 32,
    }
}
