// Objects in the allocation table, and the search for room.
#![tactic(auto)]

ghost use Rattle.std.specs.Prelude.{◌≡◌, ◌+◌, ◌≤◌, ◌<◌, leb, length};
ghost use Rattle.rules.specs.Tables.{block_count, free_from, first_fit, grows_in_place, placed, released, extended};
ghost use Rattle.rules.specs.Planes.{entries_in, IsTable, Holds};
ghost use Rattle.numbers.specs.Places.{found};
ghost use Rattle.entries.specs.Lent.{entries_of};

use entries::{Entry, Table};
use numbers::Block;

// How many blocks the object with head k has.
pub fn block_count(table: &Table, k: Block) -> usize
    requires { k.0 < length (entries_of table.now) }
    ensures { (result ≡ block_count (entries_of table.now) k.0) × (k.0 + result ≤ length (entries_of table.now)) }
{
    let n = table.blocks();
    let first = k.index();
    let second = first + 1;
    for at in second..n {
        if !table.is_tail(Block::first().plus(at)) {
            return at - first;
        }
    }
    n - first
}

// Whether the count blocks from `from` on are blocks of the table, and FREE.
fn is_free(table: &Table, from: Block, count: usize) -> bool
    requires { from.0 ≤ length (entries_of table.now) }
    ensures { result ≡ leb count (free_from (entries_of table.now) from.0) }
{
    if from.until(table.blocks()) < count {
        return false;
    }
    for i in 0..count {
        if table.entry_at(from.plus(i)) != Entry::Free {
            return false;
        }
    }
    true
}

// Whether the object of old blocks at k may get more blocks, new in all, where it is.
pub fn grows_in_place(table: &Table, k: Block, old: usize, new: usize) -> bool
    requires { (k.0 + old ≤ length (entries_of table.now)) × (old ≤ new) }
    ensures { result ≡ grows_in_place (entries_of table.now) k.0 old new }
{
    if !k.is_aligned(new) {
        return false;
    }
    is_free(table, k.plus(old), new - old)
}

// The lowest block at which count blocks may start. No range counts the blocks of a run: it goes on by as many as are found FREE at once.
pub fn first_fit(table: &Table, count: usize) -> Option<Block>
    requires { 0 < count }
    ensures { found result ≡ first_fit (entries_of table.now) count }
{
    let n = table.blocks();
    let mut start = search::next(table, Block::first(), count);
    'starts: while count <= start.until(n) {
        let mut i = 0;
        while i < count {
            let ahead = search::free_from(table, start.plus(i));
            i += ahead.free;
            if ahead.ended {
                if i < count {
                    start = search::next(table, start.plus(i + 1), count);
                    continue 'starts;
                }
            }
        }
        return Some(start);
    }
    None
}

// A new object of count blocks at k: a HEAD and count - 1 TAILs.
pub fn place(t: usize, table: &mut [u8], k: Block, count: usize)
    requires { IsTable t table.old × ((0 < count) × (k.0 + count ≤ length (entries_in t table.old))) }
    ensures { Holds t (placed (entries_in t table.old) k.0 count) table.new }
{
    entries::set_run(t, &mut *table, k, 1, Entry::Head);
    entries::set_run(t, &mut *table, k.plus(1), count - 1, Entry::Tail);
}

// The count blocks from k on become FREE.
pub fn release(t: usize, table: &mut [u8], k: Block, count: usize)
    requires { IsTable t table.old × (k.0 + count ≤ length (entries_in t table.old)) }
    ensures { Holds t (released (entries_in t table.old) k.0 count) table.new }
{
    entries::set_run(t, table, k, count, Entry::Free);
}

// The count blocks from k on become TAIL. This and `release` are the names of two acts, each a call of the one function that does both.
pub fn extend(t: usize, table: &mut [u8], k: Block, count: usize)
    requires { IsTable t table.old × (k.0 + count ≤ length (entries_in t table.old)) }
    ensures { Holds t (extended (entries_in t table.old) k.0 count) table.new }
{
    entries::set_run(t, table, k, count, Entry::Tail);
}
