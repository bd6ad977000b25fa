// The rain log: a list of entries, the oldest first, each an object of two blocks. Words 0 to 2 of an entry are the address of the next one, a time and a tip count.
// Every call here is made of public calls of the heap and of the collection: this layer reads and writes no byte itself.
#![tactic(auto)]

ghost use Rattle.std.specs.Prelude.{◌≡◌, [], IfOk};
ghost use Rattle.rules.specs.Planes.{planes};
ghost use Rattle.rules.specs.Memory.{memory};
ghost use Rattle.programs.specs.Programs.{run};
ghost use Rattle.logs.specs.Log.{append as append_program, read as read_program, drop as drop_program};
ghost use Rattle.refusals.specs.Codes.{refused_by};
ghost use Rattle.appender.specs.Answers.{logs};
ghost use Rattle.rainlog.specs.Answers.{Tests, Sought, reads, drops};

use appender::{Declined, Logged};
use checks::HeapView;
use heap::Checked;
use numbers::{Address, Block};
use refusals::Refusal;

// An entry.
#[derive(Clone, Copy)]
pub struct Readout {
    pub time: u32,
    pub tips: u32,
}

// Refusals 1, 2, 3 and 4 of an append: those of a collection with one root more. `checks` has them too, but a log is made of public calls of the heap alone.
fn check<'a>(heap: &HeapView<'a>, roots: &[u8], stack: &[u8]) -> Result<Checked<'a>, Refusal>
    ensures tests { Tests (planes heap.now.t) heap.now.base.0 roots.now stack.now (memory heap.now.pool.now heap.now.table.now) (refused_by result) }
    ensures heap { IfOk result (λ c. c.view ≡ heap.now) }
{
    if roots.len() % 4 != 0 {
        return Err(Refusal::BadShape);
    }
    if stack.len() % 4 != 0 {
        return Err(Refusal::BadShape);
    }
    let checked = heap::check(heap)?;
    if refusals::MAX_ROOTS <= roots.len() / 4 {
        return Err(Refusal::TooManyRoots);
    }
    if refusals::MAX_STACK_ENTRIES < stack.len() / 4 {
        return Err(Refusal::StackTooLong);
    }
    Ok(checked)
}

// An entry more, at the end.
pub fn append(
    base: Address,
    t: usize,
    pool: &mut [u8],
    table: &mut [u8],
    first: Address,
    time: u32,
    tips: u32,
    roots: &[u8],
    stack: &mut [u8],
) -> Result<Logged, Declined>
    ensures { logs result pool.new table.new stack.new
        ≡ run (planes t) (append_program base.0 first.0 time tips roots.now stack.old) stack.old (memory pool.old table.old) }
{
    let heap = check(&heap::view(base, t, &*pool, &*table), roots, &*stack)?;
    let w = chain::follow(&heap, first, 0).ok_or(Refusal::NoLog)?;
    appender::add(
        base,
        t,
        pool,
        table,
        first.to_word(),
        time,
        tips,
        roots,
        stack,
        w,
    )
}

// The block of an entry, counted from 0, and refusals 18 and 19.
fn entry(heap: &Checked, first: Address, index: u64) -> Result<Block, Refusal>
    ensures { Sought heap.now.view.t heap.now.view.base.0 first.0 index heap.now.view.pool.now heap.now.view.table.now result }
{
    let w = chain::follow(heap, first, index).ok_or(Refusal::NoLog)?;
    w.wanted.ok_or(Refusal::NoEntry)
}

// The time and the tip count of an entry, counted from 0.
pub fn read(heap: &HeapView, first: Address, index: u64) -> Result<Readout, Refusal>
    ensures { reads result heap.now.pool.now heap.now.table.now ≡ run (planes heap.now.t) (read_program heap.now.base.0 first.0 index) [] (memory heap.now.pool.now heap.now.table.now) }
{
    let heap = heap::check(heap)?;
    let k = entry(&heap, first, index)?;
    let time = heap.load_checked(k, 1)?;
    let tips = heap.load_checked(k, 2)?;
    Ok(Readout { time, tips })
}

// The oldest entry's object is freed, and the next entry is the first.
pub fn drop(
    base: Address,
    t: usize,
    pool: &[u8],
    table: &mut [u8],
    first: Address,
) -> Result<Logged, Refusal>
    ensures { drops result pool.now table.new ≡ run (planes t) (drop_program base.0 first.0) [] (memory pool.now table.old) }
{
    let heap = heap::check(&heap::view(base, t, pool, &*table))?;
    let k = entry(&heap, first, 0)?;
    let next = heap.load_checked(k, 0)?;
    let change = allocator::free(base, t, pool, table, k)?;
    Ok(Logged {
        first: next,
        change,
    })
}
