// Marking: the objects that are reachable from the roots become MARK, with a bounded mark stack and rescans after an overflow.
// Heap and mark stack are handed on one by one, as C lends them: table and stack are written (see `entries::Table`).
#![tactic(auto)]

ghost use Rattle.std.specs.Prelude.{◌≡◌, true, false, ◌∷◌, ◌/◌, ◌≤◌, ◌<◌, length, get_or};
ghost use Rattle.rules.specs.Words.{words_of};
ghost use Rattle.rules.specs.Planes.{entries_in, IsTable};
ghost use Rattle.rules.specs.Marking.{marked_in, mark_all, mark_root, mark_roots, pass_block, pass};
ghost use Rattle.visitor.specs.Variables.{context_of, idle, Shape};

use entries::{Entry, Table};
use numbers::{Address, Block};

// A root: if it leads to a HEAD, that becomes MARK and is traced. Returns the overflow.
fn mark_root(
    base: Address,
    t: usize,
    pool: &[u8],
    table: &mut [u8],
    stack: &mut [u8],
    overflow: bool,
    w: u32,
) -> bool
    requires { Shape base.0 t pool.now table.old }
    ensures { IsTable t table.new × (idle t table.new result
        ≡ mark_root (context_of base.0 pool.now stack.old) w (idle t table.old overflow)) }
{
    let Some(k) = base.target(entries::blocks(t), w) else {
        return overflow;
    };
    let lent = Table::new(t, &*table);
    let head = backscan::start(&lent, k);
    if !lent.is_head(head) {
        return overflow;
    }
    entries::set_mark(t, &mut *table, head);
    tracer::trace(base, t, pool, &mut *table, &mut *stack, overflow, head)
}

// Root i, where `first` is root 0 and the caller's roots come behind it.
fn root(first: u32, roots: &[u8], i: usize) -> u32
    requires { i ≤ length roots.now / 4 }
    ensures { result ≡ get_or (first ∷ words_of roots.now) i 0 }
{
    if i == 0 {
        return first;
    }
    memory::word(roots, i - 1)
}

// The root `first`, and then the caller's roots in list order. Returns the overflow.
fn mark_roots(
    base: Address,
    t: usize,
    pool: &[u8],
    table: &mut [u8],
    stack: &mut [u8],
    first: u32,
    roots: &[u8],
) -> bool
    requires shape { Shape base.0 t pool.now table.old }
    requires roots_len_bound { length roots.now / 4 ≤ 4096 }
    ensures { IsTable t table.new × (idle t table.new result
        ≡ mark_roots (context_of base.0 pool.now stack.old) (first ∷ words_of roots.now) (idle t table.old false)) }
{
    let mut overflow = false;
    // One call for all roots: with a second one for the first, mark_root stays outside the loop, and 4,096 roots of a small heap take half as long again (x86-64).
    let count = roots.len() / 4 + 1;
    for i in 0..count {
        overflow = mark_root(
            base,
            t,
            pool,
            &mut *table,
            &mut *stack,
            overflow,
            root(first, roots, i),
        );
    }
    overflow
}

// Block k of a rescan: it is traced if it is MARK. Returns the overflow.
fn rescan_block(
    base: Address,
    t: usize,
    pool: &[u8],
    table: &mut [u8],
    stack: &mut [u8],
    overflow: bool,
    k: Block,
) -> bool
    requires shape { Shape base.0 t pool.now table.old }
    requires k_in_bounds { k.0 < length (entries_in t table.old) }
    ensures { IsTable t table.new × (idle t table.new result
        ≡ pass_block (context_of base.0 pool.now stack.old) k.0 (idle t table.old overflow)) }
{
    match Table::new(t, &*table).entry_at(k) {
        Entry::Mark => tracer::trace(base, t, pool, &mut *table, &mut *stack, overflow, k),
        _ => overflow,
    }
}

// One rescan: the overflow is cleared, and then all blocks are gone through in rising order. Returns the new overflow.
fn rescan(base: Address, t: usize, pool: &[u8], table: &mut [u8], stack: &mut [u8]) -> bool
    requires { Shape base.0 t pool.now table.old }
    ensures { IsTable t table.new × (idle t table.new result
        ≡ pass (context_of base.0 pool.now stack.old) (idle t table.old true)) }
{
    let n = entries::blocks(t);
    let mut overflow = false;
    for i in 0..n {
        let k = Block::first().plus(i);
        overflow = rescan_block(base, t, pool, &mut *table, &mut *stack, overflow, k);
    }
    overflow
}

// Marks from the root `first` and the caller's roots, and rescans while there is an overflow. Returns the number of rescans.
pub fn mark(
    base: Address,
    t: usize,
    pool: &[u8],
    table: &mut [u8],
    stack: &mut [u8],
    first: u32,
    roots: &[u8],
) -> u32
    requires shape { Shape base.0 t pool.now table.old }
    requires roots_len_bound { length roots.now / 4 ≤ 4096 }
    ensures { IsTable t table.new × (marked_in (idle t table.new false) result
        ≡ mark_all (context_of base.0 pool.now stack.old) (first ∷ words_of roots.now) (entries_in t table.old)) }
{
    let mut overflow = mark_roots(base, t, pool, &mut *table, &mut *stack, first, roots);
    let mut rescans = 0;
    while overflow {
        overflow = rescan(base, t, pool, &mut *table, &mut *stack);
        rescans += 1;
    }
    rescans
}
