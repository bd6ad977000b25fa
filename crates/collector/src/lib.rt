// The collection: it checks its arguments first, and then marks, sweeps and clears the mark stack.
#![tactic(auto)]

ghost use Rattle.std.specs.Prelude.{◌≡◌, ◌∷◌, ◌++◌, ◌/◌, ◌≤◌, ◌<◌, length};
ghost use Rattle.rules.specs.Words.{bytes_of, words_of};
ghost use Rattle.rules.specs.Planes.{planes, entries_in, IsTable, heap_at};
ghost use Rattle.rules.specs.Marking.{mark_all};
ghost use Rattle.rules.specs.Calls.{collecting};
ghost use Rattle.rules.specs.Runs.{Collect};
ghost use Rattle.rules.specs.Memory.{memory, perform};
ghost use Rattle.visitor.specs.Variables.{context_of, Shape};
ghost use Rattle.collector.specs.Answers.{outcome_of, result_of};

use checks::HeapView;
use numbers::Address;
use refusals::Refusal;

// What a collection answers.
#[derive(Clone, Copy)]
pub struct Collected {
    pub kept: u32,
    pub rescans: u32,
    pub change: i32,
}

// Marks from the root `first` and the caller's roots, sweeps and clears the mark stack.
fn run(
    base: Address,
    t: usize,
    pool: &[u8],
    table: &mut [u8],
    first: u32,
    roots: &[u8],
    stack: &mut [u8],
) -> Collected
    requires shape { Shape base.0 t pool.now table.old }
    requires roots_len_bound { length roots.now / 4 ≤ 4096 }
    ensures { IsTable t table.new × (outcome_of (Ok result) (heap_at t pool.now table.new) stack.new
        ≡ collecting (heap_at t pool.now table.old) stack.old
        (mark_all (context_of base.0 pool.now stack.old) (first ∷ words_of roots.now) (entries_in t table.old))) }
{
    let rescans = marker::mark(base, t, pool, &mut *table, &mut *stack, first, roots);
    let swept = sweeper::sweep(t, &mut *table);
    memory::clear(stack);
    let kept = swept.kept as u32;
    Collected {
        kept,
        rescans,
        change: numbers::negated(swept.freed),
    }
}

// A collection: the objects that are reachable from the roots are kept, all others become FREE. The pool is not written, and every
// entry of the mark stack is then zero. That the definition does so is shown in the crate keeping (keeps-exactly).
// It marks from 0 first, the address of no block: that changes nothing, and one function marks for both collections.
pub fn collect(
    base: Address,
    t: usize,
    pool: &[u8],
    table: &mut [u8],
    roots: &[u8],
    stack: &mut [u8],
) -> Result<Collected, Refusal>
    ensures { result_of result pool.now table.new stack.new
        ≡ perform (planes t) (Collect base.0 roots.now) stack.old (memory pool.now table.old) }
{
    checks::collection(&HeapView::new(base, t, pool, &*table), roots.len(), &*stack)?;
    Ok(run(base, t, pool, table, 0, roots, stack))
}

// A collection from a root word and then the caller's roots, one fewer than `collect` takes. It tests one root more, and so is no `collect`; `run` does the work of both.
pub fn collect_with(
    base: Address,
    t: usize,
    pool: &[u8],
    table: &mut [u8],
    first: u32,
    roots: &[u8],
    stack: &mut [u8],
) -> Result<Collected, Refusal>
    requires { length roots.now / 4 < 4096 }
    ensures { result_of result pool.now table.new stack.new
        ≡ perform (planes t) (Collect base.0 (bytes_of first ++ roots.now)) stack.old (memory pool.now table.old) }
{
    checks::collection(
        &HeapView::new(base, t, pool, &*table),
        roots.len() + 4,
        &*stack,
    )?;
    Ok(run(base, t, pool, table, first, roots, stack))
}
