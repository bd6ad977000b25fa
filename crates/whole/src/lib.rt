// The whole table at once: words of both planes, each of 32 blocks, and single bytes at the end, with no early exit. Beside `entries` and
// `packing` only this crate knows where an entry's bits lie.
#![tactic(auto)]

ghost use Rattle.std.specs.Prelude.{◌≡◌, ◌+◌, ◌*◌, ◌^◌, ◌<◌, ◌≤◌, length};
ghost use Rattle.rules.specs.Tables.{used, objects, well_formed};
ghost use Rattle.rules.specs.Marking.{sweep as sweep_of};
ghost use Rattle.rules.specs.Planes.{entries_in, spare_free, Sized, IsTable, Holds};
ghost use Rattle.whole.specs.Shapes.{BadBits, TestsBits, TestsOn};
ghost use Rattle.whole.specs.Sweeps.{SweptBits, SweepsOn};
ghost use Rattle.entries.specs.Lent.{entries_of};

use entries::{Planes, Table};

// Whether no spare bit is set: of the last byte of each plane the upper half, if t is odd.
pub fn spare_free(t: usize, table: &[u8]) -> bool
    requires { Sized t table.now }
    ensures { result ≡ spare_free t table.now }
{
    if t % 2 == 0 {
        return true;
    }
    let half = entries::plane_bytes(t);
    (table[half - 1] | table[2 * half - 1]) < 16
}

// A bit for each of 32 entries that may not stand after the one before it: a MARK, or a TAIL after a FREE. `before` is 1 if the block before them is used, else 0.
fn bad_bits(low: u32, high: u32, before: u32) -> u32
    requires { before < 2 }
    ensures { BadBits low high before result }
{
    high & (low | !(((low | high) << 1) | before))
}

// What is found in some blocks: `bad` is 0 if each entry may stand after the one before it, and `before` is 1 if the last block is used, else 0.
#[derive(Clone, Copy)]
struct Tested {
    bad: u32,
    before: u32,
}

// The first `count` of 32 entries are tested. There are no others.
fn test(low: u32, high: u32, count: u32, before: u32) -> Tested
    requires { (before < 2) × (((0 < count) × (count ≤ 32)) × ((low < 2 ^ count) × (high < 2 ^ count))) }
    ensures { (result.before < 2) × TestsBits low high count before result.bad result.before }
{
    Tested {
        bad: bad_bits(low, high, before),
        before: (low | high) >> (count - 1),
    }
}

// The entries of eight bytes of both planes from byte `at` of each are tested, two words of each.
fn test_eight(planes: &Planes, at: usize, before: u32) -> Tested
    requires { (before < 2) × ((at + 8 ≤ length planes.now.lows.now) × (at + 8 ≤ length planes.now.highs.now)) }
    ensures { TestsOn planes.now.lows.now planes.now.highs.now at 8 before result.bad result.before }
{
    let end = at + 8;
    let part = Planes {
        lows: &planes.lows[at..end],
        highs: &planes.highs[at..end],
    };
    let a = part.words_at(0);
    let b = part.words_at(1);
    let first = test(a.low, a.high, 32, before);
    let second = test(b.low, b.high, 32, first.before);
    Tested {
        bad: first.bad | second.bad,
        before: second.before,
    }
}

// The same of byte `at` of both planes, which has its own way to read; what is between is `test` in both.
fn test_one(planes: &Planes, at: usize, before: u32) -> Tested
    requires { (before < 2) × ((at < length planes.now.lows.now) × (at < length planes.now.highs.now)) }
    ensures { TestsOn planes.now.lows.now planes.now.highs.now at 1 before result.bad result.before }
{
    test(
        u32::from(planes.lows[at]),
        u32::from(planes.highs[at]),
        8,
        before,
    )
}

// Whether there is no MARK, block 0 is no TAIL, and no TAIL follows a FREE.
pub fn well_formed(table: &Table) -> bool
    ensures { result ≡ well_formed (entries_of table.now) }
{
    let planes = table.planes();
    let half = planes.lows.len();
    let groups = half / 8;
    let mut bad: u32 = 0;
    let mut before: u32 = 0;
    for i in 0..groups {
        let r = test_eight(&planes, 8 * i, before);
        bad = bad | r.bad;
        before = r.before;
    }
    // The bytes behind the last eight: the same turn, of one byte.
    let grouped = 8 * groups;
    for j in grouped..half {
        let r = test_one(&planes, j, before);
        bad = bad | r.bad;
        before = r.before;
    }
    bad == 0
}

// How many blocks are not FREE, and how many objects there are.
#[derive(Clone, Copy)]
pub struct Counts {
    pub used: usize,
    pub objects: usize,
}

// The ones of a word of both planes are counted: a block that is not FREE has a bit in one of them, a HEAD in the first alone.
pub fn count(table: &Table) -> Counts
    ensures { (result.used ≡ used (entries_of table.now)) × (result.objects ≡ objects (entries_of table.now)) }
{
    let planes = table.planes();
    let words = planes.lows.len() / 4;
    let mut used: u32 = 0;
    let mut heads: u32 = 0;
    for i in 0..words {
        let low = entries::word_at(planes.lows, i);
        let high = entries::word_at(planes.highs, i);
        used += u32::count_ones(low | high);
        heads += u32::count_ones(low & !high);
    }
    let w = planes.last_words::<u32>(words);
    used += u32::count_ones(w.low | w.high);
    heads += u32::count_ones(w.low & !w.high);
    Counts {
        used: used as usize,
        objects: heads as usize,
    }
}

// Swept entries, a bit of each in two numbers, and a bit for each block behind which TAILs are kept.
#[derive(Clone, Copy)]
struct Swept {
    low: u32,
    high: u32,
    keeping: u32,
}

// 32 entries are swept. `keeping` is 1 if TAILs are kept at first. It runs through the blocks as the carry of a sum: a MARK makes it, a HEAD stops it, and any other
// block hands it on.
fn sweep_bits(low: u32, high: u32, keeping: u32) -> Swept
    requires { keeping < 2 }
    ensures { SweptBits low high keeping result.low result.high result.keeping }
{
    let marks = low & high;
    let heads = low & !high;
    let sum = std::num::wrapping_add_u32(std::num::wrapping_add_u32(!heads, marks), keeping);
    Swept {
        low: marks,
        high: high & !low & !sum,
        keeping: marks | !(heads | sum),
    }
}

// The entries of four bytes of both planes from byte `at` of each are swept. Returns whether TAILs are kept behind them.
fn sweep_four(table: &mut [u8], half: usize, at: usize, keeping: u32) -> u32
    requires { (keeping < 2) × ((at + 4 ≤ half) × (length table.old ≡ 2 * half)) }
    ensures { SweepsOn half at 4 keeping result table.old table.new }
{
    let s = sweep_bits(
        memory::bits(&*table, at),
        memory::bits(&*table, half + at),
        keeping,
    );
    memory::set_four_bytes(&mut *table, at, s.low);
    memory::set_four_bytes(&mut *table, half + at, s.high);
    s.keeping >> 31
}

// The same of byte `at` of both planes. It has its own way to read and to store; what is between is `sweep_bits` in both.
fn sweep_one(table: &mut [u8], half: usize, at: usize, keeping: u32) -> u32
    requires { (keeping < 2) × ((at < half) × (length table.old ≡ 2 * half)) }
    ensures { SweepsOn half at 1 keeping result table.old table.new }
{
    let s = sweep_bits(u32::from(table[at]), u32::from(table[half + at]), keeping);
    table[at] = s.low as u8;
    table[half + at] = s.high as u8;
    (s.keeping >> 7) & 1
}

// A HEAD and its TAILs become FREE, a MARK becomes HEAD and keeps its TAILs.
pub fn sweep(t: usize, table: &mut [u8])
    requires { IsTable t table.old }
    ensures { Holds t (sweep_of (entries_in t table.old)) table.new }
{
    let half = entries::plane_bytes(t);
    let words = half / 4;
    let mut keeping: u32 = 1;
    for i in 0..words {
        keeping = sweep_four(&mut *table, half, 4 * i, keeping);
    }
    // The bytes behind the last word: the same turn, of one byte.
    let swept = 4 * words;
    for j in swept..half {
        keeping = sweep_one(&mut *table, half, j, keeping);
    }
}
