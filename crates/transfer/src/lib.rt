// The used blocks between a pool and the section of an image that holds them, one after the other. A block is one of the pool's, and where its bytes start there is `Bytes`.
// A place in an image is a plain number; so is that of a part, which may be of either.
#![tactic(auto)]

ghost use Rattle.std.specs.Prelude.{◌≡◌, ◌+◌, ◌*◌, ◌%◌, ◌≤◌, ◌<◌, min, length, drop};
ghost use Rattle.std.proofs.lemmas.List.Edits.{sets};
ghost use Rattle.rules.specs.Tables.{used as used_of};
ghost use Rattle.rules.specs.Images.{used_from};
ghost use Rattle.rules.specs.Files.{pool_of};
ghost use Rattle.transfer.specs.Copying.{lanes, Inside, blocks_in, group_in, with_used};
ghost use Rattle.entries.specs.Lent.{entries_of};

use entries::Table;
use numbers::{Block, Bytes};

// 64 blocks that are all used.
const ALL: u64 = u64::MAX;

// Where the bytes of block 64 * i + j start.
fn block_offset(i: usize, j: usize) -> Bytes
    requires { (i < 64) × (j < 64) }
    ensures { result.0 ≡ 16 * (64 * i + j) }
{
    Block::first().plus(64 * i + j).offset()
}

// A block's 16 bytes are copied. All are read before the first is written: so the compiler moves them at once. They are one part of the source and of the target,
// which the caller cuts out: where indices are checked at run time, the compiler then knows both lengths, and the copy has no other check.
// Word by word: `copy_from_slice` would be a call of `memcpy`, and the library calls nothing but `memset` (README).
fn copy_block(block: &[u8], to: &mut [u8])
    requires { (length block.now ≡ 16) × (length to.old ≡ 16) }
    ensures { to.new ≡ block.now }
{
    let a = memory::word(block, 0);
    let b = memory::word(block, 1);
    let c = memory::word(block, 2);
    let d = memory::word(block, 3);
    memory::set_four_bytes(&mut *to, 0, a);
    memory::set_four_bytes(&mut *to, 4, b);
    memory::set_four_bytes(&mut *to, 8, c);
    memory::set_four_bytes(&mut *to, 12, d);
}

// Blocks that lie one behind the other are copied.
fn copy_run(source: &[u8], target: &mut [u8])
    requires { (length source.now % 16 ≡ 0) × (length target.old ≡ length source.now) }
    ensures { target.new ≡ source.now }
{
    for i in 0..source.len() / 16 {
        let at = 16 * i;
        let end = at + 16;
        copy_block(&source[at..end], &mut target[at..end]);
    }
}

// Of the 64 blocks from block 64 * i on, those that have a bit in `used` are copied, from `at` on. Returns the place behind them. The lowest bit that is left goes with each
// turn, by a difference: a shift by j would have the next turn wait for j.
// A `while`, since no iterator of core goes over the bits of a number.
fn copy_group(pool: &[u8], i: usize, used: u64, image: &mut [u8], at: usize) -> usize
    requires { (i < 64) × ((at + length (blocks_in pool.now i used) ≤ length image.old) × Inside pool.now i used) }
    ensures { (image.new ≡ sets image.old at (blocks_in pool.now i used)) × (result ≡ at + length (blocks_in pool.now i used)) }
{
    let mut left = used;
    let mut to = at;
    while left != 0 {
        let j = freeruns::first(left);
        let from = block_offset(i, j).index();
        let from_end = from + 16;
        let to_end = to + 16;
        copy_block(&pool[from..from_end], &mut image[to..to_end]);
        to = to_end;
        left &= left - 1;
    }
    to
}

// The used blocks are copied, from `at` on, 64 blocks at a time. `scatter` goes the other way: only the head of the loop is the same.
pub fn gather(pool: &[u8], table: &Table, image: &mut [u8], at: usize)
    requires { (length pool.now ≡ 16 * length (entries_of table.now)) × (at + 16 * used_of (entries_of table.now) ≤ length image.old) }
    ensures { image.new ≡ sets image.old at (used_from pool.now 0 (entries_of table.now)) }
{
    let mut to = at;
    for i in 0..table.blocks().div_ceil(64) {
        let g = table.group::<u64>(i);
        to = copy_group(pool, i, g.low | g.high, &mut *image, to);
    }
}

// As `copy_group`, the other way; only the copy itself is the same in both. Of the 64 blocks from block 64 * i on, those that have a bit in `used` get the next blocks of the bytes, of which `passed` come before. Returns how many are passed then.
// A `while`, as in `copy_group`.
fn place_group(bytes: &[u8], passed: usize, i: usize, used: u64, pool: &mut [u8]) -> usize
    requires i_bound { (i < 64) × ((passed + used_of (lanes used) ≤ 4096) × (16 * (passed + used_of (lanes used)) ≤ length bytes.now)) }
    requires inside { Inside pool.old i used }
    ensures { (pool.new ≡ with_used pool.old (64 * i) (lanes used) (drop (16 * passed) bytes.now)) × (result ≡ passed + used_of (lanes used)) }
{
    let mut left = used;
    let mut next = passed;
    while left != 0 {
        let j = freeruns::first(left);
        let from = Bytes::of_blocks(next).index();
        let from_end = from + 16;
        let to = block_offset(i, j).index();
        let to_end = to + 16;
        copy_block(&bytes[from..from_end], &mut pool[to..to_end]);
        next += 1;
        left &= left - 1;
    }
    next
}

// How many blocks there are to the end of the 64 from block 64 * i on, or all n if that is past the last.
fn group_end(n: usize, i: usize) -> usize
    requires { i < 64 }
    ensures { result ≡ min (64 * i + 64) n }
{
    n.min(64 * i + 64)
}

// The 64 blocks from block 64 * i on, or as many as there are: the used ones get the next blocks of the bytes, of which `passed` come before, and the others become zero.
// Returns how many are passed then. Where all are used, they are one part of the bytes.
fn fill_group(bytes: &[u8], passed: usize, table: &Table, i: usize, pool: &mut [u8]) -> usize
    requires table { (64 * i < length (entries_of table.now)) × (length pool.old ≡ 16 * length (entries_of table.now)) }
    requires i_bound { (passed + used_of (group_in (entries_of table.now) i) ≤ 4096) × (16 * (passed + used_of (group_in (entries_of table.now) i)) ≤ length bytes.now) }
    ensures { (pool.new ≡ sets pool.old (1024 * i) (pool_of (group_in (entries_of table.now) i) (drop (16 * passed) bytes.now)))
        × (result ≡ passed + used_of (group_in (entries_of table.now) i)) }
{
    let g = table.group::<u64>(i);
    let used = g.low | g.high;
    let start = block_offset(i, 0);
    if used == ALL {
        let next = passed + 64;
        let from = Bytes::of_blocks(passed).index();
        let to = Bytes::of_blocks(next).index();
        let at = start.index();
        let at_end = at + 1024;
        copy_run(&bytes[from..to], &mut pool[at..at_end]);
        return next;
    }
    let end = group_end(table.blocks(), i);
    memory::clear_part(&mut *pool, start, Bytes::of_blocks(end));
    place_group(bytes, passed, i, used, &mut *pool)
}

// The pool of a table's entries: each used block gets the next 16 of the bytes, and every other byte becomes zero.
pub fn scatter(bytes: &[u8], table: &Table, pool: &mut [u8])
    requires { (length pool.old ≡ 16 * length (entries_of table.now)) × (length bytes.now ≡ 16 * used_of (entries_of table.now)) }
    ensures { pool.new ≡ pool_of (entries_of table.now) bytes.now }
{
    let mut next = 0;
    for i in 0..table.blocks().div_ceil(64) {
        next = fill_group(bytes, next, table, i, &mut *pool);
    }
}
