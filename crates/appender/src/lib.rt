// A new entry of a rain log: room for it, with a collection where there is none, and its place behind the last entry. The heap has been checked.
#![tactic(auto)]

ghost use Rattle.std.specs.Prelude.{◌≡◌, List, [], ℕ, ◌/◌, ◌<◌, ◌^◌, length, Ok};
ghost use Rattle.rules.specs.Pointers.{address_of};
ghost use Rattle.rules.specs.Planes.{planes};
ghost use Rattle.rules.specs.Runs.{Survey};
ghost use Rattle.rules.specs.Memory.{memory, AcceptedIn, perform};
ghost use Rattle.programs.specs.Programs.{run};
ghost use Rattle.logs.specs.Log.{last_of, enter as enter_program, append_to};
ghost use Rattle.chain.specs.Walks.{last_by};
ghost use Rattle.appender.specs.Answers.{declined_by, again_to, logs};

use chain::Walk;
use numbers::{Address, Block, Bytes};
use refusals::Refusal;

// The log's first address, and the change in used blocks.
#[derive(Clone, Copy)]
pub struct Logged {
    pub first: u32,
    pub change: i32,
}

// Why there is no new entry, and the change in used blocks by a collection that was made nevertheless.
#[derive(Clone, Copy)]
pub struct Declined {
    pub refusal: Refusal,
    pub change: i32,
}

// A refusal before any collection.
impl From<Refusal> for Declined {
    ghost from_gives = { λ r d. d ≡ declined_by r };

    fn from(refusal: Refusal) -> Declined {
        Declined { refusal, change: 0 }
    }
}

// The new entry at block k gets its time and its tip count, and joins the log behind the last one, if there is one: else the log starts with it.
fn enter(
    base: Address,
    t: usize,
    pool: &mut [u8],
    table: &[u8],
    first: u32,
    time: u32,
    tips: u32,
    w: Walk,
    k: Block,
    change: i32,
) -> Logged
    requires { (address_of base.0 k.0 < 2 ^ 32) × AcceptedIn (perform (planes t) (Survey base.0) [] (memory pool.old table.now)) }
    ensures { (ks stack : List ℕ) → last_of ks ≡ last_by w → logs (Ok result) pool.new table.now stack
        ≡ run (planes t) (enter_program base.0 first time tips ks k.0 change) stack (memory pool.old table.now) }
{
    let own = base.of_block(k).to_word();
    // No store is refused: an entry has eight words.
    let _ = heap::store_checked(base, t, &mut *pool, table, k, 1, time);
    let _ = heap::store_checked(base, t, &mut *pool, table, k, 2, tips);
    match w.last {
        Some(last) => {
            let _ = heap::store_checked(base, t, &mut *pool, table, last, 0, own);
            Logged { first, change }
        }
        None => Logged { first: own, change },
    }
}

// There is no room for an entry: a collection from the first address and the caller's roots may make some. It allocates as `add` does, but not with the same answer:
// what the collection changed counts here, on a refusal too.
fn add_again(
    base: Address,
    t: usize,
    pool: &mut [u8],
    table: &mut [u8],
    first: u32,
    time: u32,
    tips: u32,
    roots: &[u8],
    stack: &mut [u8],
    w: Walk,
) -> Result<Logged, Declined>
    requires { (length roots.now / 4 < 4096) × AcceptedIn (perform (planes t) (Survey base.0) [] (memory pool.old table.old)) }
    ensures { (ks : List ℕ) → last_of ks ≡ last_by w → logs result pool.new table.new stack.new
        ≡ run (planes t) (again_to base.0 first time tips roots.now ks) stack.old (memory pool.old table.old) }
{
    let collected = collector::collect_with(base, t, &*pool, &mut *table, first, roots, stack);
    let change = collected.map_or(0, |c| c.change);
    let Ok(placed) = allocator::allocate(base, t, &mut *pool, &mut *table, Bytes::of_blocks(2))
    else {
        return Err(Declined {
            refusal: Refusal::NoRoom,
            change,
        });
    };
    let total = change + placed.change;
    Ok(enter(
        base,
        t,
        pool,
        &*table,
        first,
        time,
        tips,
        w,
        placed.block,
        total,
    ))
}

// An entry more, if there is room for one.
pub fn add(
    base: Address,
    t: usize,
    pool: &mut [u8],
    table: &mut [u8],
    first: u32,
    time: u32,
    tips: u32,
    roots: &[u8],
    stack: &mut [u8],
    w: Walk,
) -> Result<Logged, Declined>
    requires { (length roots.now / 4 < 4096) × AcceptedIn (perform (planes t) (Survey base.0) [] (memory pool.old table.old)) }
    ensures { (ks : List ℕ) → last_of ks ≡ last_by w → logs result pool.new table.new stack.new
        ≡ run (planes t) (append_to base.0 first time tips roots.now ks) stack.old (memory pool.old table.old) }
{
    let Ok(placed) = allocator::allocate(base, t, &mut *pool, &mut *table, Bytes::of_blocks(2))
    else {
        return add_again(base, t, pool, table, first, time, tips, roots, stack, w);
    };
    Ok(enter(
        base,
        t,
        pool,
        &*table,
        first,
        time,
        tips,
        w,
        placed.block,
        placed.change,
    ))
}
