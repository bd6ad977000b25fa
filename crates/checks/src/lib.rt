// Each call's refusal, found before anything is written: that of the first test that holds.
#![tactic(auto)]

ghost use Rattle.std.specs.Prelude.{◌≡◌, List, [], ◌∷◌, ◌++◌, ℕ, length};
ghost use Rattle.rules.specs.Tests.{both};
ghost use Rattle.rules.specs.Tables.{well_formed};
ghost use Rattle.rules.specs.Planes.{entries_in, spare_free, planes, Sized, heap_at};
ghost use Rattle.rules.specs.Outcomes.{Heap};
ghost use Rattle.rules.specs.Refusals.{first_of, good_shape, heap_tests, request_tests, name_tests, no_word, object_tests, resize_tests, root_tests, collection_tests};
ghost use Rattle.laws.specs.Meaning.{AllBytes};
ghost use Rattle.refusals.specs.Codes.{refused_by};
ghost use Rattle.checks.specs.Refusal.{refusal_by};

use entries::Table;
use numbers::{Address, Block, Bytes};
use refusals::Refusal;

// A heap that is lent to be read: its base, its t, and the bytes of its pool and table. Nothing of it is tested; that the table is bytes, its type says.
// A function that writes takes the four one by one: C lends pool and table each to be read or to be written, and a struct of `&mut`s would need a clause for each
// reference that it keeps, and could have no ghost field.
#[derive(Clone, Copy)]
pub struct HeapView<'a> {
    pub base: Address,
    pub t: usize,
    pub pool: &'a [u8],
    pub table: &'a [u8],
    pub ghost are_bytes: { AllBytes table.now },
}

impl<'a> HeapView<'a> {
    // The four that are lent, as one.
    pub fn new(base: Address, t: usize, pool: &'a [u8], table: &'a [u8]) -> HeapView<'a>
        ensures base { result.base ≡ base }
        ensures t { result.t ≡ t }
        ensures pool { result.pool.now ≡ pool.now }
        ensures table { result.table.now ≡ table.now }
        ensures slices { (result.pool ≡ pool.entry) × (result.table ≡ table.entry) }
    {
        HeapView {
            base,
            t,
            pool,
            table,
        }
    }
}

// Whether t is from 1 to 1,024, and the table's length, the pool's length and the base suit it.
pub fn good_shape(heap: &HeapView) -> bool
    ensures { result ≡ both (good_shape heap.now.base.0 (heap_at heap.now.t heap.now.pool.now heap.now.table.now)) ((planes heap.now.t).fits heap.now.table.now) }
{
    if heap.t < 1 {
        return false;
    }
    if refusals::MAX_T < heap.t {
        return false;
    }
    if !entries::fits(heap.t, heap.table) {
        return false;
    }
    let n = entries::blocks(heap.t);
    if !Bytes::of_blocks(n).is_length_of(heap.pool) {
        return false;
    }
    heap.base.is_base(n)
}

// Whether no spare bit is set and the table is well-formed.
fn is_sound(t: usize, table: &[u8]) -> bool
    requires { Sized t table.now }
    ensures { result ≡ both (spare_free t table.now) (well_formed (entries_in t table.now)) }
{
    if !whole::spare_free(t, table) {
        return false;
    }
    whole::well_formed(&Table::new(t, table))
}

// Refusals 1 and 2, of every call but init and an opening.
pub fn heap(heap: &HeapView) -> Result<(), Refusal>
    ensures { refused_by result ≡ refusal_by heap.now.t heap.now.pool.now heap.now.table.now (λ (h : Heap). heap_tests heap.now.base.0 h) }
{
    if !good_shape(heap) {
        return Err(Refusal::BadShape);
    }
    if !is_sound(heap.t, heap.table) {
        return Err(Refusal::BadTable);
    }
    Ok(())
}

// Refusals 1, 2 and 5, of a request for room.
pub fn request(heap: &HeapView, bytes: Bytes) -> Result<(), Refusal>
    ensures { refused_by result ≡ refusal_by heap.now.t heap.now.pool.now heap.now.table.now (λ (h : Heap). request_tests heap.now.base.0 h bytes.0) }
{
    self::heap(heap)?;
    if bytes.is_zero() {
        return Err(Refusal::ZeroBytes);
    }
    Ok(())
}

// Refusals 1, 2, 6 and 7, of a call that names an object.
pub fn object(heap: &HeapView, k: Block) -> Result<(), Refusal>
    ensures { refused_by result ≡ refusal_by heap.now.t heap.now.pool.now heap.now.table.now (λ (h : Heap). object_tests heap.now.base.0 h k.0) }
{
    self::heap(heap)?;
    named(&Table::new(heap.t, heap.table), k)
}

// Refusals 1, 2, 5, 6 and 7, of a request for an object.
pub fn resize(heap: &HeapView, k: Block, bytes: Bytes) -> Result<(), Refusal>
    ensures { refused_by result ≡ refusal_by heap.now.t heap.now.pool.now heap.now.table.now (λ (h : Heap). resize_tests heap.now.base.0 h k.0 bytes.0) }
{
    request(heap, bytes)?;
    named(&Table::new(heap.t, heap.table), k)
}

// Refusals 6 and 7: whether block k names an object.
fn named(table: &Table, k: Block) -> Result<(), Refusal>
    ensures { refused_by result ≡ first_of (name_tests (heap_at table.now.t [] table.now.bytes.now) k.0) }
{
    if !k.is_below(table.blocks()) {
        return Err(Refusal::NoSuchBlock);
    }
    if !table.is_head(k) {
        return Err(Refusal::NotAHead);
    }
    Ok(())
}

// Refusals 6, 7 and 8, of a word of an object, where 1 and 2 are passed.
pub fn object_word(table: &Table, k: Block, i: usize) -> Result<(), Refusal>
    ensures { refused_by result ≡ first_of (name_tests (heap_at table.now.t [] table.now.bytes.now) k.0 ++ no_word (heap_at table.now.t [] table.now.bytes.now) k.0 i ∷ []) }
{
    named(table, k)?;
    if 4 * table::block_count(table, k) <= i {
        return Err(Refusal::NoSuchWord);
    }
    Ok(())
}

// Refusals 1, 2 and 3, of a root list of so many bytes: the tests depend on its length alone.
pub fn root_list(heap: &HeapView, bytes: usize) -> Result<(), Refusal>
    ensures { (roots : List ℕ) → length roots ≡ bytes → refused_by result ≡ refusal_by heap.now.t heap.now.pool.now heap.now.table.now (λ (h : Heap). root_tests heap.now.base.0 h roots) }
{
    if bytes % 4 != 0 {
        return Err(Refusal::BadShape);
    }
    self::heap(heap)?;
    if refusals::MAX_ROOTS < bytes / 4 {
        return Err(Refusal::TooManyRoots);
    }
    Ok(())
}

// Refusals 1 to 4, of a collection with so many bytes of roots.
pub fn collection(heap: &HeapView, bytes: usize, stack: &[u8]) -> Result<(), Refusal>
    ensures { (roots : List ℕ) → length roots ≡ bytes
        → refused_by result ≡ refusal_by heap.now.t heap.now.pool.now heap.now.table.now (λ (h : Heap). collection_tests heap.now.base.0 h roots stack.now) }
{
    if stack.len() % 4 != 0 {
        return Err(Refusal::BadShape);
    }
    root_list(heap, bytes)?;
    if refusals::MAX_STACK_ENTRIES < stack.len() / 4 {
        return Err(Refusal::StackTooLong);
    }
    Ok(())
}
