// A visit of one word: the object that it leads to becomes MARK and is pushed onto the bounded mark stack, or the overflow is set.
#![tactic(auto)]

ghost use Rattle.std.specs.Prelude.{◌≡◌, List, ℕ, ◌/◌, ◌^◌, ◌≤◌, ◌<◌, length};
ghost use Rattle.std.proofs.Math.Option.{some};
ghost use Rattle.rules.specs.Planes.{entries_in, IsTable};
ghost use Rattle.rules.specs.Tables.{start_of};
ghost use Rattle.rules.specs.Pointers.{address_of, head_at};
ghost use Rattle.rules.specs.Marking.{visit_to, visit as visit_of};
ghost use Rattle.visitor.specs.Variables.{context_of, state_of, Knows, Pushes, Remembers, Came};
ghost use Rattle.entries.specs.Lent.{entries_of};

use entries::{Met, Table};
use numbers::{Address, Block};

// How many entries of the mark stack are in use, and whether a block has been lost because it was full: 1 if so, else 0, as a `bool` leaves bytes
// of the struct unused, and slow copies: a collection of a chain of 4,096 blocks took 143 us with it, 51 us with a number (rustc, x86-64). And the
// longest back scan from a TAIL so far: the object of block `last` starts at block `first`. The stack is bytes that C lends, so its depth stands here.
#[derive(Clone, Copy)]
pub struct Marking {
    pub depth: usize,
    pub lost: usize,
    pub first: Block,
    pub last: Block,
}

// Block k is pushed, or the overflow is set.
fn push(stack: &mut [u8], m: Marking, k: Block) -> Marking
    requires { (m.depth ≤ length stack.old / 4) × (k.0 < 2 ^ 32) }
    ensures { Pushes stack.old m k.0 stack.new result }
{
    if m.depth < stack.len() / 4 {
        memory::set_word(&mut *stack, m.depth, k.to_word());
        return Marking {
            depth: m.depth + 1,
            ..m
        };
    }
    Marking { lost: 1, ..m }
}

// Where the object of block k starts: as remembered, or by the table.
fn start_of(table: &Table, m: Marking, k: Block) -> Block
    requires { (k.0 < length (entries_of table.now)) × Knows (entries_of table.now) m }
    ensures { result.0 ≡ start_of (entries_of table.now) k.0 }
{
    if m.first <= k && k <= m.last {
        return m.first;
    }
    backscan::start(table, k)
}

// The scan from block k back to the start of its object is remembered, if it is longer than the one before.
fn remember(m: Marking, start: Block, k: Block) -> Marking
    requires { (m.first.0 ≤ m.last.0) × (start.0 ≤ k.0) }
    ensures { Remembers m start.0 k.0 result }
{
    let mut first = m.first;
    let mut last = m.last;
    if first.until(last.index()) < start.until(k.index()) {
        first = start;
        last = k;
    }
    Marking { first, last, ..m }
}

// Block k, a TAIL, is the target of a word of a walked object: the object's head, if it is HEAD, becomes MARK and is pushed.
fn visit_tail(t: usize, table: &mut [u8], stack: &mut [u8], m: Marking, k: Block) -> Marking
    requires table { IsTable t table.old × ((m.depth ≤ length stack.old / 4) × Knows (entries_in t table.old) m) }
    requires k_in_bounds { k.0 < length (entries_in t table.old) }
    ensures { (base : ℕ) (pool : List ℕ) → Came t
        (visit_to (context_of base pool stack.old) (state_of t table.old stack.old m) (head_at (entries_in t table.old) (some k.0)))
        table.new stack.new result }
{
    let lent = Table::new(t, &*table);
    let head = start_of(&lent, m, k);
    let seen = remember(m, head, k);
    if !lent.is_head(head) {
        return seen;
    }
    entries::set_mark(t, &mut *table, head);
    push(&mut *stack, seen, head)
}

// A word of a walked object: if it leads to a HEAD, that becomes MARK and is pushed, or the overflow is set.
pub fn visit(
    base: Address,
    t: usize,
    table: &mut [u8],
    stack: &mut [u8],
    m: Marking,
    w: u32,
) -> Marking
    requires base_bound { (base.0 < 2 ^ 32) × (address_of base.0 (length (entries_in t table.old)) ≤ 2 ^ 32) }
    requires table { IsTable t table.old × ((m.depth ≤ length stack.old / 4) × Knows (entries_in t table.old) m) }
    ensures { (pool : List ℕ) → Came t (visit_of (context_of base.0 pool stack.old) w (state_of t table.old stack.old m))
        table.new stack.new result }
{
    let k = base.block_of(w);
    let met = entries::mark_head(t, &mut *table, k);
    match met {
        Met::Head => push(&mut *stack, m, k),
        Met::Tail => visit_tail(t, &mut *table, &mut *stack, m, k),
        Met::Other => m,
    }
}
