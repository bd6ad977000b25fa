// Runs the worked examples on heaps of 8, 12 and 16 blocks. A line for each call: the table before it, its arguments, what it answered, and the
// table after it.
#![tactic(auto)]

mod show;

use checks::HeapView;
use numbers::{Address, Block, Bytes};
use show::{Place, Planes, Root, Size};
use std::io;

const BASE: u64 = 4096;

// The t of a heap with this pool.
fn size(pool: &[u8]) -> usize {
    pool.len() / 64
}

fn init(out: &impl Print, example: u64, base: u64) -> io::Result<()> {
    let pool = [0; 128];
    let mut table = [17, 0];
    print!(out; "example {example}: {} init at base {base}", Planes(&table))?;
    let refusal = refusals::number_of(heap::init(
        Address::from(base),
        size(&pool),
        &pool,
        &mut table,
    ));
    println!(out; ": refusal {refusal}, table {}", Planes(&table))
}

fn allocate(
    out: &impl Print,
    example: u64,
    pool: &mut [u8],
    table: &mut [u8],
    bytes: u64,
) -> io::Result<()> {
    print!(out;
        "example {example}: {} allocate {}",
        Planes(&*table),
        Size(bytes)
    )?;
    let t = size(&*pool);
    let place = allocator::allocate(
        Address::from(BASE),
        t,
        pool,
        &mut *table,
        Bytes::of_number(bytes),
    );
    println!(out; ": {}, table {}", Place(place), Planes(&*table))
}

fn free(out: &impl Print, example: u64, pool: &[u8], table: &mut [u8], k: u64) -> io::Result<()> {
    print!(out; "example {example}: {} free block {k}", Planes(&*table))?;
    let (refusal, change) = match allocator::free(
        Address::from(BASE),
        size(pool),
        pool,
        &mut *table,
        Block::of_number(k),
    ) {
        Ok(change) => (0, change),
        Err(refusal) => (u32::from(refusal), 0),
    };
    println!(out;
        ": refusal {refusal}, change {change}, table {}",
        Planes(&*table)
    )
}

fn reallocate(
    out: &impl Print,
    example: u64,
    pool: &mut [u8],
    table: &mut [u8],
    k: u64,
    bytes: u64,
) -> io::Result<()> {
    print!(out;
        "example {example}: {} reallocate block {k} to {}",
        Planes(&*table),
        Size(bytes)
    )?;
    let t = size(&*pool);
    let place = allocator::reallocate(
        Address::from(BASE),
        t,
        pool,
        &mut *table,
        Block::of_number(k),
        Bytes::of_number(bytes),
    );
    println!(out; ": {}, table {}", Place(place), Planes(&*table))
}

fn survey(out: &impl Print, example: u64, pool: &[u8], table: &[u8]) -> io::Result<()> {
    print!(out; "example {example}: {} survey", Planes(table))?;
    let (refusal, used, objects, longest) = match heap::survey(&HeapView::new(
        Address::from(BASE),
        size(pool),
        pool,
        table,
    )) {
        Ok(found) => (0, found.used, found.objects, found.longest),
        Err(refusal) => (u32::from(refusal), 0, 0, 0),
    };
    println!(out;
        ": refusal {refusal}, used {used}, objects {objects}, longest {longest}, table {}",
        Planes(table)
    )
}

fn load(
    out: &impl Print,
    example: u64,
    pool: &[u8],
    table: &[u8],
    k: u64,
    i: usize,
) -> io::Result<()> {
    print!(out;
        "example {example}: {} load word {i} of block {k}",
        Planes(table)
    )?;
    let (refusal, value) = match heap::load(
        &HeapView::new(Address::from(BASE), size(pool), pool, table),
        Block::of_number(k),
        i,
    ) {
        Ok(value) => (0, value),
        Err(refusal) => (u32::from(refusal), 0),
    };
    println!(out;
        ": refusal {refusal}, value {value}, table {}",
        Planes(table)
    )
}

fn store(
    out: &impl Print,
    example: u64,
    pool: &mut [u8],
    table: &[u8],
    k: u64,
    i: usize,
    w: u32,
) -> io::Result<()> {
    print!(out;
        "example {example}: {} store {w} in word {i} of block {k}",
        Planes(table)
    )?;
    let t = size(&*pool);
    let refusal = refusals::number_of(heap::store(
        Address::from(BASE),
        t,
        pool,
        table,
        Block::of_number(k),
        i,
        w,
    ));
    println!(out; ": refusal {refusal}, table {}", Planes(table))
}

fn collect(
    out: &impl Print,
    example: u64,
    pool: &[u8],
    table: &mut [u8],
    root: Option<u32>,
    stack: &mut [u8],
) -> io::Result<()> {
    print!(out;
        "example {example}: {} collect from {} with a stack of {}",
        Planes(&*table),
        Root(root),
        stack.len() / 4
    )?;
    let word = root.map(u32::to_le_bytes);
    let roots = match &word {
        Some(bytes) => &bytes[..],
        None => &[],
    };
    let (refusal, kept, rescans, change) = match collector::collect(
        Address::from(BASE),
        size(pool),
        pool,
        &mut *table,
        roots,
        stack,
    ) {
        Ok(done) => (0, done.kept, done.rescans, done.change),
        Err(refusal) => (u32::from(refusal), 0, 0, 0),
    };
    println!(out;
        ": refusal {refusal}, kept {kept}, rescans {rescans}, change {change}, table {}",
        Planes(&*table)
    )
}

// The heap of examples 9 to 11, where word 0 of block 4 leads to block 0, collected from this root with this mark stack.
fn collect_linked(
    out: &impl Print,
    example: u64,
    root: Option<u32>,
    stack: &mut [u8],
) -> io::Result<()> {
    let mut pool = [0; 128];
    let mut table = [19, 236];
    memory::set_word(&mut pool, 16, 4096);
    collect(out, example, &pool, &mut table, root, stack)
}

// An empty heap is filled, and its objects are freed, shrunk and grown.
fn examples_1_to_7(out: &impl Print) -> io::Result<()> {
    let mut pool = [0; 128];
    let mut table = [0; 2];
    allocate(out, 1, &mut pool, &mut table, 1)?;
    allocate(out, 2, &mut pool, &mut table, 33)?;
    allocate(out, 3, &mut pool, &mut table, 64)?;
    allocate(out, 4, &mut pool, &mut table, 1)?;
    free(out, 5, &pool, &mut table, 1)?;
    free(out, 5, &pool, &mut table, 5)?;
    free(out, 5, &pool, &mut table, 8)?;
    reallocate(out, 6, &mut pool, &mut table, 4, 16)?;
    reallocate(out, 7, &mut pool, &mut table, 0, 65)?;
    reallocate(out, 7, &mut pool, &mut table, 0, 64)?;
    reallocate(out, 7, &mut pool, &mut table, 0, 65)?;
    survey(out, 7, &pool, &table)
}

// An object that has to move.
fn example_8(out: &impl Print) -> io::Result<()> {
    let mut pool = [0; 128];
    let mut table = [3, 0];
    reallocate(out, 8, &mut pool, &mut table, 0, 17)
}

// The roots: the address of a head, none, the address of a TAIL, and one inside a block.
fn examples_9_to_11(out: &impl Print) -> io::Result<()> {
    let head = Some(4160);
    let tail = Some(4128);
    let inside = Some(4097);
    let mut stack = [238; 256];
    collect_linked(out, 9, head, &mut stack)?;
    collect_linked(out, 9, head, &mut [])?;
    collect_linked(out, 10, None, &mut stack)?;
    collect_linked(out, 10, None, &mut [])?;
    collect_linked(out, 11, tail, &mut stack)?;
    collect_linked(out, 11, tail, &mut [])?;
    collect_linked(out, 11, inside, &mut stack)?;
    collect_linked(out, 11, inside, &mut [])
}

// A table that is not well-formed.
fn example_12(out: &impl Print, low: u8, high: u8) -> io::Result<()> {
    let mut pool = [0; 128];
    let mut table = [low, high];
    allocate(out, 12, &mut pool, &mut table, 1)?;
    allocate(out, 12, &mut pool, &mut table, 0)
}

// The last word of an object and the one after it, and a request that two refusals fit.
fn examples_14_and_15(out: &impl Print) -> io::Result<()> {
    let mut pool = [0; 128];
    let mut table = [19, 236];
    store(out, 14, &mut pool, &table, 4, 15, 77)?;
    load(out, 14, &pool, &table, 4, 15)?;
    load(out, 14, &pool, &table, 4, 16)?;
    reallocate(out, 15, &mut pool, &mut table, 8, 0)
}

// A chain through the third block of one object to the second of another.
fn example_16(out: &impl Print) -> io::Result<()> {
    let root = Some(4192);
    let mut stack = [238; 256];
    let mut pool = [0; 128];
    let mut table = [81, 46];
    store(out, 16, &mut pool, &table, 6, 0, 4128)?;
    store(out, 16, &mut pool, &table, 0, 0, 4176)?;
    collect(out, 16, &pool, &mut table, root, &mut stack)?;
    collect(out, 16, &pool, &mut table, root, &mut [])
}

// Four blocks pass by block 1, three get it, and growing to four they move.
fn example_17(out: &impl Print) -> io::Result<()> {
    let mut pool = [0; 192];
    let mut table = [1, 0, 0, 0];
    allocate(out, 17, &mut pool, &mut table, 64)?;
    allocate(out, 17, &mut pool, &mut table, 48)?;
    reallocate(out, 17, &mut pool, &mut table, 1, 64)
}

// Four blocks at block 1, as an old table may hold them: to as many and to fewer they stay, to more they are refused or move.
fn example_18(out: &impl Print) -> io::Result<()> {
    let mut pool = [0; 192];
    let mut table = [3, 0, 28, 0];
    reallocate(out, 18, &mut pool, &mut table, 1, 64)?;
    reallocate(out, 18, &mut pool, &mut table, 1, 65)?;
    reallocate(out, 18, &mut pool, &mut table, 1, 33)?;
    let mut larger_pool = [0; 256];
    let mut larger_table = [3, 0, 28, 0];
    reallocate(out, 18, &mut larger_pool, &mut larger_table, 1, 65)
}

// Freed, they are the longest run, and yet no start for four blocks.
fn example_19(out: &impl Print) -> io::Result<()> {
    let mut pool = [0; 128];
    let mut table = [227, 28];
    free(out, 19, &pool, &mut table, 1)?;
    survey(out, 19, &pool, &table)?;
    allocate(out, 19, &mut pool, &mut table, 64)?;
    allocate(out, 19, &mut pool, &mut table, 48)
}

fn main(rt: HostRuntime) -> io::Result<()> {
    examples_1_to_7(&rt)?;
    example_8(&rt)?;
    examples_9_to_11(&rt)?;
    example_12(&rt, 0, 1)?;
    example_12(&rt, 1, 1)?;
    example_12(&rt, 0, 2)?;
    init(&rt, 13, 4294967168)?;
    init(&rt, 13, 4294967184)?;
    init(&rt, 13, 0)?;
    examples_14_and_15(&rt)?;
    example_16(&rt)?;
    example_17(&rt)?;
    example_18(&rt)?;
    example_19(&rt)
}
