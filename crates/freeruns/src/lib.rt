// FREE blocks as bits, 32 blocks at a time: which are, where rows of them start, and how long the longest run is.
#![tactic(auto)]

ghost use Rattle.std.specs.Prelude.{◌≡◌, ◌*◌, ◌≤◌, ◌<◌, length};
ghost use Rattle.rules.specs.Tables.{longest as longest_of};
ghost use Rattle.freeruns.specs.Rows.{FreeIn, Zeros, RowStarts, WholeRow, LongestRow};
ghost use Rattle.freeruns.specs.Scans.{ReadOn};
ghost use Rattle.entries.specs.Lent.{entries_of};

use entries::Table;

// The first of 64 bits that is set, by the zeros below it; 64 if there is none, as the library counts them.
pub fn first(bits: u64) -> usize
    ensures { Zeros bits result }
{
    u64::trailing_zeros(bits) as usize
}

// A bit for each of the 32 blocks from block 32 * i on that is FREE. Past the end of the table there is none.
pub fn free_or_end(table: &Table, i: usize) -> u32
    requires { i ≤ 128 }
    ensures { FreeIn (entries_of table.now) i result }
{
    let left = table.blocks().saturating_sub(32 * i);
    if left == 0 {
        return 0;
    }
    let g = table.group::<u32>(i);
    let free = !(g.low | g.high);
    if left < 32 {
        return free & ((1 << left) - 1);
    }
    free
}

// The bits at which a row of count bits starts, where the bits of `next` follow. Each turn makes the rows twice as long.
pub fn row_starts(bits: u32, next: u32, count: usize) -> u32
    requires { (0 < count) × (count ≤ 32) }
    ensures { RowStarts bits next count result }
{
    let mut starts = bits;
    let mut after = next;
    let mut length = 1;
    while length < count - length {
        starts = starts & ((starts >> length) | (after << (32 - length)));
        after = after & (after >> length);
        length = 2 * length;
    }
    let rest = count - length;
    if rest == 0 {
        return starts;
    }
    starts & ((starts >> rest) | (after << (32 - rest)))
}

// How many bits are set from bit j on, up to the first that is not.
pub fn row_from(bits: u32, j: usize) -> usize
    requires { j < 32 }
    ensures { WholeRow bits j result }
{
    (bits >> j).trailing_ones() as usize
}

// The length of the longest row of bits, or n if none is longer.
fn longer_row(bits: u32, n: usize) -> usize
    ensures { LongestRow bits n result }
{
    let mut best = n;
    while best < 32 {
        let found = row_starts(bits, 0, best + 1);
        if found == 0 {
            return best;
        }
        best = row_from(bits, found.trailing_zeros() as usize);
    }
    best
}

// The same. Most words have no row of four bits, and once there was a run of three that says enough.
fn longest_row(bits: u32, n: usize) -> usize
    ensures { LongestRow bits n result }
{
    let pairs = bits & (bits >> 1);
    if pairs & (pairs >> 2) == 0 {
        if 3 <= n {
            return n;
        }
    }
    longer_row(bits, n)
}

// A run of `longest` blocks was read, and none is longer but maybe the one at the end, which has `ending` blocks so far.
#[derive(Clone, Copy)]
struct Scan {
    longest: usize,
    ending: usize,
}

// The same when 32 blocks more are read, of which those are FREE that have a bit. The run at the end goes on as far as their first that is used, and
// another begins behind their last one.
fn read_on(before: Scan, free: u32) -> Scan
    requires { before.ending ≤ 4096 }
    ensures { ReadOn free before.longest before.ending result.longest result.ending }
{
    if free == u32::MAX {
        return Scan {
            longest: before.longest,
            ending: before.ending + 32,
        };
    }
    let closed = before.ending + free.trailing_ones() as usize;
    Scan {
        longest: longest_row(free, before.longest.max(closed)),
        ending: free.leading_ones() as usize,
    }
}

// The longest run of FREE blocks. Behind the whole words there are fewer than 32 blocks, so that the last run ends in them.
pub fn longest(table: &Table) -> usize
    ensures { result ≡ longest_of (entries_of table.now) }
{
    let planes = table.planes();
    let whole = table.blocks() / 32;
    let mut read = Scan {
        longest: 0,
        ending: 0,
    };
    for i in 0..whole {
        let used = entries::word_at(planes.lows, i) | entries::word_at(planes.highs, i);
        read = read_on(read, !used);
    }
    let rest = free_or_end(table, whole);
    let last = read.ending + rest.trailing_ones() as usize;
    longest_row(rest, read.longest.max(last))
}
