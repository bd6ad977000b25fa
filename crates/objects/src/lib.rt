// What allocate, free and reallocate do to pool and table once they are checked: an object is taken, freed, or gets fewer or more blocks.
#![tactic(auto)]

ghost use Rattle.std.specs.Prelude.{◌≡◌, ◌+◌, ◌*◌, ◌≤◌, ◌<◌, pos, neg_ℤ, length, Ok};
ghost use Rattle.rules.specs.Tables.{block_count, first_fit, released};
ghost use Rattle.laws.specs.Meaning.{GrowsInPlace};
ghost use Rattle.rules.specs.Outcomes.{cleared_blocks};
ghost use Rattle.rules.specs.Planes.{entries_in, IsTable, Holds, heap_at};
ghost use Rattle.rules.specs.Calls.{taken, placing, shrunk, grown, moves_to, along};
ghost use Rattle.objects.specs.Held.{Held};
ghost use Rattle.objects.specs.Answers.{placed_in};

use entries::Table;
use numbers::{Block, Bytes};
use refusals::Refusal;

// Where an object is, and the change in used blocks.
#[derive(Clone, Copy)]
pub struct Placed {
    pub block: Block,
    pub change: i32,
}

// A new object of count blocks at k, all its bytes zero.
pub fn take(t: usize, pool: &mut [u8], table: &mut [u8], k: Block, count: usize)
    requires table { IsTable t table.old × (0 < count) }
    requires count_in_bounds { (k.0 + count ≤ length (entries_in t table.old)) × (16 * length (entries_in t table.old) ≤ length pool.old) }
    ensures { IsTable t table.new × (heap_at t pool.new table.new ≡ taken (heap_at t pool.old table.old) k.0 count) }
{
    table::place(t, table, k, count);
    clear_blocks(pool, k, count);
}

// The bytes of the count blocks from k on become zero.
fn clear_blocks(pool: &mut [u8], k: Block, count: usize)
    requires { (k.0 + count ≤ 4096) × (16 * (k.0 + count) ≤ length pool.old) }
    ensures { pool.new ≡ cleared_blocks pool.old k.0 count }
{
    memory::clear_part(pool, k.offset(), k.plus(count).offset());
}

// The blocks of the object at k become FREE. Returns the change in used blocks.
pub fn free_object(t: usize, table: &mut [u8], k: Block) -> i32
    requires { IsTable t table.old × (k.0 < length (entries_in t table.old)) }
    ensures { Holds t (released (entries_in t table.old) k.0 (block_count (entries_in t table.old) k.0)) table.new
        × (result ≡ neg_ℤ (pos (block_count (entries_in t table.old) k.0))) }
{
    let count = table::block_count(&Table::new(t, &*table), k);
    table::release(t, table, k, count);
    numbers::negated(count)
}

// The object's last blocks become FREE. Their bytes stay.
pub fn shrink(t: usize, pool: &[u8], table: &mut [u8], k: Block, old: usize, new: usize) -> Placed
    requires held { Held t pool.now table.old k.0 old }
    requires nonzero { (0 < new) × (new ≤ old) }
    ensures { IsTable t table.new × (placed_in (Ok result) (heap_at t pool.now table.new) ≡ (let h = heap_at t pool.now table.old in placing h k.0 (shrunk h k.0 old new))) }
{
    table::release(t, table, k.plus(new), old - new);
    Placed {
        block: k,
        change: numbers::difference(new, old),
    }
}

// The blocks directly after the object join it, all their bytes zero.
pub fn grow(t: usize, pool: &mut [u8], table: &mut [u8], k: Block, old: usize, new: usize) -> Placed
    requires held { Held t pool.old table.old k.0 old }
    requires lt { (old < new) × GrowsInPlace (entries_in t table.old) k.0 old new }
    ensures { IsTable t table.new × (placed_in (Ok result) (heap_at t pool.new table.new) ≡ (let h = heap_at t pool.old table.old in placing h k.0 (grown h k.0 old new))) }
{
    let end = k.plus(old);
    table::extend(t, table, end, new - old);
    clear_blocks(pool, end, new - old);
    Placed {
        block: k,
        change: numbers::difference(new, old),
    }
}

// The object moves to the lowest start where its new blocks fit, sought while its old blocks are still held.
pub fn relocate(
    t: usize,
    pool: &mut [u8],
    table: &mut [u8],
    k: Block,
    old: usize,
    new: usize,
) -> Result<Placed, Refusal>
    requires held { Held t pool.old table.old k.0 old }
    requires lt { (old < new) × (new ≤ 4096) }
    ensures { IsTable t table.new × (placed_in result (heap_at t pool.new table.new) ≡ (let h = heap_at t pool.old table.old in along (moves_to (first_fit h.entries new)) h k.0 old new)) }
{
    let s = table::first_fit(&Table::new(t, &*table), new).ok_or(Refusal::NoRoom)?;
    table::place(t, &mut *table, s, new);
    memory::copy(&mut *pool, k.offset(), s.offset(), Bytes::of_blocks(old));
    clear_blocks(&mut *pool, s.plus(old), new - old);
    table::release(t, &mut *table, k, old);
    Ok(Placed {
        block: s,
        change: numbers::difference(new, old),
    })
}
