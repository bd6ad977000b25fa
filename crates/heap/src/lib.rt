// The calls on a heap as a whole and on the words of its objects: init, survey, load and store. Each checks its arguments first
// and then acts: a refused call has written nothing. `check` and then `load_checked`, `load_link` or `store_checked` are a call in two steps.
#![tactic(auto)]

ghost use Rattle.std.specs.Prelude.{◌≡◌, ◌+◌, ◌*◌, [], ◌∷◌, ◌++◌, ℕ, IfOk};
ghost use Rattle.rules.specs.Refusals.{first_of, no_word, name_tests};
ghost use Rattle.rules.specs.Planes.{planes, IsTable, heap_at};
ghost use Rattle.rules.specs.Runs.{Init, Survey, Load, Store};
ghost use Rattle.rules.specs.Memory.{memory, AcceptedIn, perform};
ghost use Rattle.refusals.specs.Codes.{refused_by};
ghost use Rattle.heap.specs.Answers.{status, surveyed, loaded, linked, next_by};

use checks::HeapView;
use entries::Table;
use numbers::{Address, Block};
use refusals::Refusal;

// What the table holds.
#[derive(Clone, Copy)]
pub struct Surveyed {
    pub used: u32,
    pub objects: u32,
    pub longest: u32,
}

// Every block becomes FREE, and every spare bit zero. The pool is not touched.
pub fn init(base: Address, t: usize, pool: &[u8], table: &mut [u8]) -> Result<(), Refusal>
    ensures { status result pool.now table.new ≡ perform (planes t) (Init base.0) [] (memory pool.now table.old) }
{
    if !checks::good_shape(&HeapView::new(base, t, pool, &*table)) {
        return Err(Refusal::BadShape);
    }
    entries::clear(table);
    Ok(())
}

// Used blocks, objects, and the longest run of FREE blocks.
pub fn survey(heap: &HeapView) -> Result<Surveyed, Refusal>
    ensures { surveyed result heap.now.pool.now heap.now.table.now ≡ perform (planes heap.now.t) (Survey heap.now.base.0) [] (memory heap.now.pool.now heap.now.table.now) }
{
    checks::heap(heap)?;
    let table = Table::new(heap.t, heap.table);
    let counts = whole::count(&table);
    Ok(Surveyed {
        used: counts.used as u32,
        objects: counts.objects as u32,
        longest: freeruns::longest(&table) as u32,
    })
}

// A heap that is lent to be read and that `check` has passed: its table is not tested again.
#[derive(Clone, Copy)]
pub struct Checked<'a> {
    pub view: HeapView<'a>,
    pub ghost accepted: { AcceptedIn (perform (planes view.t) (Survey view.base.0) [] (memory view.pool.now view.table.now)) },
}

// The four that are lent, as one: for what is made of calls of the heap alone, as a log is.
#[inline]
pub fn view<'a>(base: Address, t: usize, pool: &'a [u8], table: &'a [u8]) -> HeapView<'a>
    ensures base { result.base ≡ base }
    ensures t { result.t ≡ t }
    ensures pool { result.pool.now ≡ pool.now }
    ensures table { result.table.now ≡ table.now }
{
    HeapView::new(base, t, pool, table)
}

// Refusals 1 and 2, by which every call that reads the table is refused first. Where it is built for size, a copy of the whole view, or a call that hands it
// back, would be a call of `memcpy`.
#[inline(always)]
pub fn check<'a>(heap: &HeapView<'a>) -> Result<Checked<'a>, Refusal>
    ensures refusal { refused_by result ≡ (perform (planes heap.now.t) (Survey heap.now.base.0) [] (memory heap.now.pool.now heap.now.table.now)).answer.refusal }
    ensures heap { IfOk result (λ c. c.view ≡ heap.now) }
{
    checks::heap(heap)?;
    Ok(Checked {
        view: HeapView::new(heap.base, heap.t, heap.pool, heap.table),
    })
}

// Word i of the object with head k.
pub fn load(heap: &HeapView, k: Block, i: usize) -> Result<u32, Refusal>
    ensures { loaded result heap.now.pool.now heap.now.table.now ≡ perform (planes heap.now.t) (Load heap.now.base.0 k.0 i) [] (memory heap.now.pool.now heap.now.table.now) }
{
    let heap = check(heap)?;
    heap.load_checked(k, i)
}

impl<'a> Checked<'a> {
    // A load that does not test the table again.
    #[inline]
    pub fn load_checked(&self, k: Block, i: usize) -> Result<u32, Refusal>
        ensures { loaded result self.now.view.pool.now self.now.view.table.now ≡ perform (planes self.now.view.t) (Load self.now.view.base.0 k.0 i) [] (memory self.now.view.pool.now self.now.view.table.now) }
    {
        let at = word_index(self.view.t, self.view.table, k, i)?;
        Ok(memory::word(self.view.pool, at))
    }

    // Word 0 of the object with head k, if it has two blocks: one test in place of three loads.
    pub fn load_link(&self, k: Block) -> Option<u32>
        ensures { linked result ≡ next_by (λ (i : ℕ). (perform (planes self.now.view.t) (Load self.now.view.base.0 k.0 i) [] (memory self.now.view.pool.now self.now.view.table.now)).answer) }
    {
        let table = Table::new(self.view.t, self.view.table);
        if k.is_below(table.blocks()) && table.is_pair(k) {
            Some(memory::word(self.view.pool, k.first_word()))
        } else {
            None
        }
    }
}

// The index of word i of the object with head k among the pool's words.
fn word_index(t: usize, table: &[u8], k: Block, i: usize) -> Result<usize, Refusal>
    requires { IsTable t table.now }
    ensures refusal { refused_by result ≡ first_of (name_tests (heap_at t [] table.now) k.0 ++ no_word (heap_at t [] table.now) k.0 i ∷ []) }
    ensures index { IfOk result (λ (at : ℕ). at ≡ 4 * k.0 + i) }
{
    checks::object_word(&Table::new(t, table), k, i)?;
    Ok(k.first_word() + i)
}

// w becomes word i of the object with head k.
pub fn store(
    base: Address,
    t: usize,
    pool: &mut [u8],
    table: &[u8],
    k: Block,
    i: usize,
    w: u32,
) -> Result<(), Refusal>
    ensures { status result pool.new table.now ≡ perform (planes t) (Store base.0 k.0 i w) [] (memory pool.old table.now) }
{
    check(&HeapView::new(base, t, &*pool, table))?;
    store_checked(base, t, pool, table, k, i, w)
}

// A store to a heap that `check` has passed.
pub fn store_checked(
    base: Address,
    t: usize,
    pool: &mut [u8],
    table: &[u8],
    k: Block,
    i: usize,
    w: u32,
) -> Result<(), Refusal>
    requires { AcceptedIn (perform (planes t) (Survey base.0) [] (memory pool.old table.now)) }
    ensures { status result pool.new table.now ≡ perform (planes t) (Store base.0 k.0 i w) [] (memory pool.old table.now) }
{
    let at = word_index(t, table, k, i)?;
    memory::set_word(pool, at, w);
    Ok(())
}
