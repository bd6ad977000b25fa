// A trace of one object: its words are visited, and then those of the last pushed one, until the mark stack is empty.
// Heap and mark stack are handed on one by one, as in `marker`.
#![tactic(auto)]

ghost use Rattle.std.specs.Prelude.{◌≡◌, ◌/◌, ◌≤◌, ◌<◌, length};
ghost use Rattle.rules.specs.Planes.{entries_in, IsTable};
ghost use Rattle.rules.specs.Marking.{walk as walk_of, trace as trace_of};
ghost use Rattle.visitor.specs.Variables.{context_of, state_of, idle, Shape, Knows, Came};

use entries::Table;
use numbers::{Address, Block};
use visitor::Marking;

// All the words of the object with head k, from the last to the first.
fn walk(
    base: Address,
    t: usize,
    pool: &[u8],
    table: &mut [u8],
    stack: &mut [u8],
    m: Marking,
    k: Block,
) -> Marking
    requires shape { Shape base.0 t pool.now table.old }
    requires depth_in_bounds { (m.depth ≤ length stack.old / 4) × ((k.0 < length (entries_in t table.old)) × Knows (entries_in t table.old) m) }
    ensures { Came t (walk_of (context_of base.0 pool.now stack.old) k.0 (state_of t table.old stack.old m))
        table.new stack.new result }
{
    let first = k.first_word();
    let words = 4 * table::block_count(&Table::new(t, &*table), k);
    let mut walked = m;
    for i in (0..words).rev() {
        walked = visitor::visit(
            base,
            t,
            &mut *table,
            &mut *stack,
            walked,
            memory::word(pool, first + i),
        );
    }
    walked
}

// The object with head k is walked, and then the last pushed one, until the stack is empty. Returns the overflow.
pub fn trace(
    base: Address,
    t: usize,
    pool: &[u8],
    table: &mut [u8],
    stack: &mut [u8],
    overflow: bool,
    k: Block,
) -> bool
    requires shape { Shape base.0 t pool.now table.old }
    requires k_in_bounds { k.0 < length (entries_in t table.old) }
    ensures { IsTable t table.new × (idle t table.new result
        ≡ trace_of (context_of base.0 pool.now stack.old) k.0 (idle t table.old overflow)) }
{
    let mut left = Marking {
        depth: 0,
        lost: usize::from(overflow),
        first: Block::first(),
        last: Block::first(),
    };
    let mut next = k;
    loop {
        let walked = walk(base, t, pool, &mut *table, &mut *stack, left, next);
        if walked.depth == 0 {
            return 0 < walked.lost;
        }
        left = Marking {
            depth: walked.depth - 1,
            ..walked
        };
        next = Block::from(memory::word(&*stack, left.depth));
    }
}
