// The calls that make, free and resize objects: allocate, free and reallocate. Each checks its arguments first and then acts:
// a refused call has written nothing.
#![tactic(auto)]

ghost use Rattle.std.specs.Prelude.{◌≡◌, []};
ghost use Rattle.rules.specs.Planes.{planes};
ghost use Rattle.rules.specs.Runs.{Allocate, Free, Reallocate};
ghost use Rattle.rules.specs.Memory.{memory, perform};
ghost use Rattle.allocator.specs.Answers.{placed, freed};

use checks::HeapView;
use entries::Table;
use numbers::{Address, Block, Bytes};
use objects::Placed;
use refusals::Refusal;

// An object of so many bytes, all zero, at the lowest start where its blocks fit.
pub fn allocate(
    base: Address,
    t: usize,
    pool: &mut [u8],
    table: &mut [u8],
    bytes: Bytes,
) -> Result<Placed, Refusal>
    ensures { placed result pool.new table.new ≡ perform (planes t) (Allocate base.0 bytes.0) [] (memory pool.old table.old) }
{
    checks::request(&HeapView::new(base, t, &*pool, &*table), bytes)?;
    if !bytes.fits_in(&*pool) {
        return Err(Refusal::NoRoom);
    }
    let count = bytes.blocks();
    let block = table::first_fit(&Table::new(t, &*table), count).ok_or(Refusal::NoRoom)?;
    objects::take(t, pool, table, block, count);
    Ok(Placed {
        block,
        change: numbers::difference(count, 0),
    })
}

// The object's blocks become FREE. Its bytes stay. Answers the change in used blocks.
pub fn free(
    base: Address,
    t: usize,
    pool: &[u8],
    table: &mut [u8],
    k: Block,
) -> Result<i32, Refusal>
    ensures { freed result pool.now table.new ≡ perform (planes t) (Free base.0 k.0) [] (memory pool.now table.old) }
{
    checks::object(&HeapView::new(base, t, pool, &*table), k)?;
    Ok(objects::free_object(t, table, k))
}

// The object at k gets so many bytes: it stays, gives blocks back, grows in place, or moves.
pub fn reallocate(
    base: Address,
    t: usize,
    pool: &mut [u8],
    table: &mut [u8],
    k: Block,
    bytes: Bytes,
) -> Result<Placed, Refusal>
    ensures { placed result pool.new table.new ≡ perform (planes t) (Reallocate base.0 k.0 bytes.0) [] (memory pool.old table.old) }
{
    checks::resize(&HeapView::new(base, t, &*pool, &*table), k, bytes)?;
    if !bytes.fits_in(&*pool) {
        return Err(Refusal::NoRoom);
    }
    let old = table::block_count(&Table::new(t, &*table), k);
    let new = bytes.blocks();
    if new <= old {
        return Ok(objects::shrink(t, &*pool, table, k, old, new));
    }
    if table::grows_in_place(&Table::new(t, &*table), k, old, new) {
        return Ok(objects::grow(t, pool, table, k, old, new));
    }
    objects::relocate(t, pool, table, k, old, new)
}
