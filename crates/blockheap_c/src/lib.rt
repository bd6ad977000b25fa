// The entry points for C: numbers and byte slices in, the refusal number out, every other answer through a pointer.
// A slice is a pointer and a length; include/blockheap.h declares the same functions. They stand twice, here and in `blockheap`, since no crate may depend on a
// static library, and a library exports nothing to C.
#![tactic(auto)]

ghost use Rattle.std.specs.Prelude.{◌≡◌, [], length as length_of};
ghost use Rattle.rules.specs.Outcomes.{only_refusal, placement, collection, findings, reading, writing, opening};
ghost use Rattle.rules.specs.Runs.{Init, Allocate, Free, Reallocate, Collect, Survey, Load, Store, WriteImage, OpenImage};
ghost use Rattle.rules.specs.Lent.{lending, served, into_buffer};
ghost use Rattle.logs.specs.Log.{logged, readout};
ghost use Rattle.services.specs.Services.{HeapCall, Append, Read, Drop, answered, replied, serve};

#[unsafe(no_mangle)]
pub extern "C" fn blockheap_init(base: u64, t: u64, pool: &[u8], table: &mut [u8]) -> u32
    ensures { served (answered (only_refusal result)) (lending pool.now table.new) [] []
        ≡ serve t (HeapCall (Init base)) [] (lending pool.now table.old) }
{
    blockheap::blockheap_init(base, t, pool, table)
}

#[unsafe(no_mangle)]
pub extern "C" fn blockheap_allocate(
    base: u64,
    t: u64,
    pool: &mut [u8],
    table: &mut [u8],
    bytes: u64,
    block: &mut u32,
    change: &mut i32,
) -> u32
    ensures { served (answered (placement result block.new change.new)) (lending pool.new table.new) [] []
        ≡ serve t (HeapCall (Allocate base bytes)) [] (lending pool.old table.old) }
{
    blockheap::blockheap_allocate(base, t, pool, table, bytes, block, change)
}

#[unsafe(no_mangle)]
pub extern "C" fn blockheap_free(
    base: u64,
    t: u64,
    pool: &[u8],
    table: &mut [u8],
    block: u64,
    change: &mut i32,
) -> u32
    ensures { served (answered (placement result 0 change.new)) (lending pool.now table.new) [] []
        ≡ serve t (HeapCall (Free base block)) [] (lending pool.now table.old) }
{
    blockheap::blockheap_free(base, t, pool, table, block, change)
}

#[unsafe(no_mangle)]
pub extern "C" fn blockheap_reallocate(
    base: u64,
    t: u64,
    pool: &mut [u8],
    table: &mut [u8],
    block: u64,
    bytes: u64,
    new_block: &mut u32,
    change: &mut i32,
) -> u32
    ensures { served (answered (placement result new_block.new change.new)) (lending pool.new table.new) [] []
        ≡ serve t (HeapCall (Reallocate base block bytes)) [] (lending pool.old table.old) }
{
    blockheap::blockheap_reallocate(base, t, pool, table, block, bytes, new_block, change)
}

#[unsafe(no_mangle)]
pub extern "C" fn blockheap_collect(
    base: u64,
    t: u64,
    pool: &[u8],
    table: &mut [u8],
    roots: &[u8],
    stack: &mut [u8],
    kept: &mut u32,
    rescans: &mut u32,
    change: &mut i32,
) -> u32
    ensures { served (answered (collection result kept.new rescans.new change.new)) (lending pool.now table.new) stack.new []
        ≡ serve t (HeapCall (Collect base roots.now)) stack.old (lending pool.now table.old) }
{
    blockheap::blockheap_collect(base, t, pool, table, roots, stack, kept, rescans, change)
}

#[unsafe(no_mangle)]
pub extern "C" fn blockheap_survey(
    base: u64,
    t: u64,
    pool: &[u8],
    table: &[u8],
    used: &mut u32,
    objects: &mut u32,
    longest: &mut u32,
) -> u32
    ensures { served (answered (findings result used.new objects.new longest.new)) (lending pool.now table.now) [] []
        ≡ serve t (HeapCall (Survey base)) [] (lending pool.now table.now) }
{
    blockheap::blockheap_survey(base, t, pool, table, used, objects, longest)
}

#[unsafe(no_mangle)]
pub extern "C" fn blockheap_load(
    base: u64,
    t: u64,
    pool: &[u8],
    table: &[u8],
    block: u64,
    word: u64,
    value: &mut u32,
) -> u32
    ensures { served (answered (reading result value.new)) (lending pool.now table.now) [] []
        ≡ serve t (HeapCall (Load base block word)) [] (lending pool.now table.now) }
{
    blockheap::blockheap_load(base, t, pool, table, block, word, value)
}

#[unsafe(no_mangle)]
pub extern "C" fn blockheap_store(
    base: u64,
    t: u64,
    pool: &mut [u8],
    table: &[u8],
    block: u64,
    word: u64,
    value: u32,
) -> u32
    ensures { served (answered (only_refusal result)) (lending pool.new table.now) [] []
        ≡ serve t (HeapCall (Store base block word value)) [] (lending pool.old table.now) }
{
    blockheap::blockheap_store(base, t, pool, table, block, word, value)
}

#[unsafe(no_mangle)]
pub extern "C" fn blockheap_write_image(
    base: u64,
    t: u64,
    pool: &[u8],
    table: &[u8],
    roots: &[u8],
    image: &mut [u8],
    length: &mut u32,
) -> u32
    ensures { served (answered (writing result length.new)) (lending pool.now table.now) [] image.new
        ≡ into_buffer image.old (serve t (HeapCall (WriteImage base roots.now (length_of image.old))) [] (lending pool.now table.now)) }
{
    blockheap::blockheap_write_image(base, t, pool, table, roots, image, length)
}

#[unsafe(no_mangle)]
pub extern "C" fn blockheap_open_image(
    image: &[u8],
    t: u64,
    pool: &mut [u8],
    table: &mut [u8],
    roots: &mut [u8],
    base: &mut u32,
    count: &mut u32,
) -> u32
    ensures { served (answered (opening result base.new count.new)) (lending pool.new table.new) [] roots.new
        ≡ into_buffer roots.old (serve t (HeapCall (OpenImage image.now (length_of roots.old))) [] (lending pool.old table.old)) }
{
    blockheap::blockheap_open_image(image, t, pool, table, roots, base, count)
}

#[unsafe(no_mangle)]
pub extern "C" fn blockheap_log_append(
    base: u64,
    t: u64,
    pool: &mut [u8],
    table: &mut [u8],
    first: u64,
    time: u32,
    tips: u32,
    roots: &[u8],
    stack: &mut [u8],
    new_first: &mut u32,
    change: &mut i32,
) -> u32
    ensures { served (replied (logged result new_first.new change.new)) (lending pool.new table.new) stack.new []
        ≡ serve t (Append base first time tips roots.now) stack.old (lending pool.old table.old) }
{
    blockheap::blockheap_log_append(
        base, t, pool, table, first, time, tips, roots, stack, new_first, change,
    )
}

#[unsafe(no_mangle)]
pub extern "C" fn blockheap_log_read(
    base: u64,
    t: u64,
    pool: &[u8],
    table: &[u8],
    first: u64,
    index: u64,
    time: &mut u32,
    tips: &mut u32,
) -> u32
    ensures { served (replied (readout result time.new tips.new)) (lending pool.now table.now) [] []
        ≡ serve t (Read base first index) [] (lending pool.now table.now) }
{
    blockheap::blockheap_log_read(base, t, pool, table, first, index, time, tips)
}

#[unsafe(no_mangle)]
pub extern "C" fn blockheap_log_drop(
    base: u64,
    t: u64,
    pool: &[u8],
    table: &mut [u8],
    first: u64,
    new_first: &mut u32,
    change: &mut i32,
) -> u32
    ensures { served (replied (logged result new_first.new change.new)) (lending pool.now table.new) [] []
        ≡ serve t (Drop base first) [] (lending pool.now table.old) }
{
    blockheap::blockheap_log_drop(base, t, pool, table, first, new_first, change)
}
