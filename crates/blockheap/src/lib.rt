// The calls as a caller that is not written in Rattle makes them: numbers and byte slices in, the refusal number out, every other answer through a
// reference. The crate blockheap_c exports each for C under the same name. C has no Result: it gets the number of a refusal, and 0 for each answer that a refused call does not have.
#![tactic(auto)]

ghost use Rattle.std.specs.Prelude.{◌≡◌, ◌^◌, ◌<◌, [], length as length_of, IfOk};
ghost use Rattle.rules.specs.Outcomes.{only_refusal, placement, collection, findings, reading, writing, opening};
ghost use Rattle.rules.specs.Runs.{Init, Allocate, Free, Reallocate, Collect, Survey, Load, Store, WriteImage, OpenImage};
ghost use Rattle.rules.specs.Lent.{lending, served, into_buffer};
ghost use Rattle.objects.specs.Answers.{place_of};
ghost use Rattle.logs.specs.Log.{logged, readout};
ghost use Rattle.services.specs.Services.{HeapCall, Append, Read, Drop, answered, replied, serve};

use checks::HeapView;
use numbers::{Address, Block, Bytes};
use objects::Placed;
use refusals::Refusal;

pub fn blockheap_init(base: u64, t: u64, pool: &[u8], table: &mut [u8]) -> u32
    ensures { served (answered (only_refusal result)) (lending pool.now table.new) [] []
        ≡ serve t (HeapCall (Init base)) [] (lending pool.now table.old) }
{
    refusals::number_of(heap::init(Address::from(base), numbers::clamped(t), pool, table))
}

// Writes where an object is and the change in used blocks, and answers 0; of a refusal zeros, and its number.
fn write_place(answer: Result<Placed, Refusal>, block: &mut u32, change: &mut i32) -> u32
    requires { IfOk answer (λ (p : Placed). p.block.0 < 2 ^ 32) }
    ensures { placement result block.new change.new ≡ place_of answer }
{
    match answer {
        Ok(placed) => {
            *block = placed.block.to_word();
            *change = placed.change;
            0
        }
        Err(refusal) => {
            *block = 0;
            *change = 0;
            u32::from(refusal)
        }
    }
}

pub fn blockheap_allocate(
    base: u64,
    t: u64,
    pool: &mut [u8],
    table: &mut [u8],
    bytes: u64,
    block: &mut u32,
    change: &mut i32,
) -> u32
    ensures { served (answered (placement result block.new change.new)) (lending pool.new table.new) [] []
        ≡ serve t (HeapCall (Allocate base bytes)) [] (lending pool.old table.old) }
{
    let place = allocator::allocate(
        Address::from(base),
        numbers::clamped(t),
        pool,
        table,
        Bytes::of_number(bytes),
    );
    write_place(place, block, change)
}

pub fn blockheap_free(
    base: u64,
    t: u64,
    pool: &[u8],
    table: &mut [u8],
    block: u64,
    change: &mut i32,
) -> u32
    ensures { served (answered (placement result 0 change.new)) (lending pool.now table.new) [] []
        ≡ serve t (HeapCall (Free base block)) [] (lending pool.now table.old) }
{
    match allocator::free(
        Address::from(base),
        numbers::clamped(t),
        pool,
        table,
        Block::of_number(block),
    ) {
        Ok(freed) => {
            *change = freed;
            0
        }
        Err(refusal) => {
            *change = 0;
            u32::from(refusal)
        }
    }
}

pub fn blockheap_reallocate(
    base: u64,
    t: u64,
    pool: &mut [u8],
    table: &mut [u8],
    block: u64,
    bytes: u64,
    new_block: &mut u32,
    change: &mut i32,
) -> u32
    ensures { served (answered (placement result new_block.new change.new)) (lending pool.new table.new) [] []
        ≡ serve t (HeapCall (Reallocate base block bytes)) [] (lending pool.old table.old) }
{
    let place = allocator::reallocate(
        Address::from(base),
        numbers::clamped(t),
        pool,
        table,
        Block::of_number(block),
        Bytes::of_number(bytes),
    );
    write_place(place, new_block, change)
}

pub fn blockheap_collect(
    base: u64,
    t: u64,
    pool: &[u8],
    table: &mut [u8],
    roots: &[u8],
    stack: &mut [u8],
    kept: &mut u32,
    rescans: &mut u32,
    change: &mut i32,
) -> u32
    ensures { served (answered (collection result kept.new rescans.new change.new)) (lending pool.now table.new) stack.new []
        ≡ serve t (HeapCall (Collect base roots.now)) stack.old (lending pool.now table.old) }
{
    match collector::collect(
        Address::from(base),
        numbers::clamped(t),
        pool,
        table,
        roots,
        stack,
    ) {
        Ok(collected) => {
            *kept = collected.kept;
            *rescans = collected.rescans;
            *change = collected.change;
            0
        }
        Err(refusal) => {
            *kept = 0;
            *rescans = 0;
            *change = 0;
            u32::from(refusal)
        }
    }
}

pub fn blockheap_survey(
    base: u64,
    t: u64,
    pool: &[u8],
    table: &[u8],
    used: &mut u32,
    objects: &mut u32,
    longest: &mut u32,
) -> u32
    ensures { served (answered (findings result used.new objects.new longest.new)) (lending pool.now table.now) [] []
        ≡ serve t (HeapCall (Survey base)) [] (lending pool.now table.now) }
{
    match heap::survey(&HeapView::new(Address::from(base), numbers::clamped(t), pool, table)) {
        Ok(found) => {
            *used = found.used;
            *objects = found.objects;
            *longest = found.longest;
            0
        }
        Err(refusal) => {
            *used = 0;
            *objects = 0;
            *longest = 0;
            u32::from(refusal)
        }
    }
}

pub fn blockheap_load(
    base: u64,
    t: u64,
    pool: &[u8],
    table: &[u8],
    block: u64,
    word: u64,
    value: &mut u32,
) -> u32
    ensures { served (answered (reading result value.new)) (lending pool.now table.now) [] []
        ≡ serve t (HeapCall (Load base block word)) [] (lending pool.now table.now) }
{
    match heap::load(
        &HeapView::new(Address::from(base), numbers::clamped(t), pool, table),
        Block::of_number(block),
        numbers::clamped(word),
    ) {
        Ok(word) => {
            *value = word;
            0
        }
        Err(refusal) => {
            *value = 0;
            u32::from(refusal)
        }
    }
}

pub fn blockheap_store(
    base: u64,
    t: u64,
    pool: &mut [u8],
    table: &[u8],
    block: u64,
    word: u64,
    value: u32,
) -> u32
    ensures { served (answered (only_refusal result)) (lending pool.new table.now) [] []
        ≡ serve t (HeapCall (Store base block word value)) [] (lending pool.old table.now) }
{
    refusals::number_of(heap::store(
        Address::from(base),
        numbers::clamped(t),
        pool,
        table,
        Block::of_number(block),
        numbers::clamped(word),
        value,
    ))
}

pub fn blockheap_write_image(
    base: u64,
    t: u64,
    pool: &[u8],
    table: &[u8],
    roots: &[u8],
    image: &mut [u8],
    length: &mut u32,
) -> u32
    ensures { served (answered (writing result length.new)) (lending pool.now table.now) [] image.new
        ≡ into_buffer image.old (serve t (HeapCall (WriteImage base roots.now (length_of image.old))) [] (lending pool.now table.now)) }
{
    match image::write(
        &HeapView::new(Address::from(base), numbers::clamped(t), pool, table),
        roots,
        image,
    ) {
        Ok(written) => {
            *length = written;
            0
        }
        Err(refusal) => {
            *length = 0;
            u32::from(refusal)
        }
    }
}

pub fn blockheap_open_image(
    image: &[u8],
    t: u64,
    pool: &mut [u8],
    table: &mut [u8],
    roots: &mut [u8],
    base: &mut u32,
    count: &mut u32,
) -> u32
    ensures { served (answered (opening result base.new count.new)) (lending pool.new table.new) [] roots.new
        ≡ into_buffer roots.old (serve t (HeapCall (OpenImage image.now (length_of roots.old))) [] (lending pool.old table.old)) }
{
    match opener::open_image(image, numbers::clamped(t), pool, table, roots) {
        Ok(opened) => {
            *base = opened.base;
            *count = opened.roots;
            0
        }
        Err(refusal) => {
            *base = 0;
            *count = 0;
            u32::from(refusal)
        }
    }
}

pub fn blockheap_log_append(
    base: u64,
    t: u64,
    pool: &mut [u8],
    table: &mut [u8],
    first: u64,
    time: u32,
    tips: u32,
    roots: &[u8],
    stack: &mut [u8],
    new_first: &mut u32,
    change: &mut i32,
) -> u32
    ensures { served (replied (logged result new_first.new change.new)) (lending pool.new table.new) stack.new []
        ≡ serve t (Append base first time tips roots.now) stack.old (lending pool.old table.old) }
{
    match rainlog::append(
        Address::from(base),
        numbers::clamped(t),
        pool,
        table,
        Address::from(first),
        time,
        tips,
        roots,
        stack,
    ) {
        Ok(logged) => {
            *new_first = logged.first;
            *change = logged.change;
            0
        }
        Err(declined) => {
            *new_first = 0;
            *change = declined.change;
            u32::from(declined.refusal)
        }
    }
}

pub fn blockheap_log_read(
    base: u64,
    t: u64,
    pool: &[u8],
    table: &[u8],
    first: u64,
    index: u64,
    time: &mut u32,
    tips: &mut u32,
) -> u32
    ensures { served (replied (readout result time.new tips.new)) (lending pool.now table.now) [] []
        ≡ serve t (Read base first index) [] (lending pool.now table.now) }
{
    match rainlog::read(
        &HeapView::new(Address::from(base), numbers::clamped(t), pool, table),
        Address::from(first),
        index,
    ) {
        Ok(entry) => {
            *time = entry.time;
            *tips = entry.tips;
            0
        }
        Err(refusal) => {
            *time = 0;
            *tips = 0;
            u32::from(refusal)
        }
    }
}

pub fn blockheap_log_drop(
    base: u64,
    t: u64,
    pool: &[u8],
    table: &mut [u8],
    first: u64,
    new_first: &mut u32,
    change: &mut i32,
) -> u32
    ensures { served (replied (logged result new_first.new change.new)) (lending pool.now table.new) [] []
        ≡ serve t (Drop base first) [] (lending pool.now table.old) }
{
    match rainlog::drop(
        Address::from(base),
        numbers::clamped(t),
        pool,
        table,
        Address::from(first),
    ) {
        Ok(logged) => {
            *new_first = logged.first;
            *change = logged.change;
            0
        }
        Err(refusal) => {
            *new_first = 0;
            *change = 0;
            u32::from(refusal)
        }
    }
}
