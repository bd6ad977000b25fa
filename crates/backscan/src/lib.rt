// Back from a block to where its object starts, past TAILs: 64 blocks at a time.
#![tactic(auto)]

ghost use Rattle.std.specs.Prelude.{◌≡◌, ◌*◌, ◌<◌, length};
ghost use Rattle.rules.specs.Tables.{start_of};
ghost use Rattle.entries.specs.Lent.{entries_of};
ghost use Rattle.backscan.specs.Tails.{NonTails, Back};

use entries::Table;
use numbers::Block;

// A bit for each of the 64 blocks from block 64 * i on that is no TAIL.
fn non_tails(table: &Table, i: usize) -> u64
    requires { 64 * i < length (entries_of table.now) }
    ensures { NonTails (entries_of table.now) i result }
{
    let g = table.group::<u64>(i);
    g.low | !g.high
}

// Back from block 64 * i past TAILs to the first block that is none, or to block 0.
fn past_tails(table: &Table, i: usize) -> Block
    requires { 64 * i < length (entries_of table.now) }
    ensures { Back (entries_of table.now) (64 * i) result.0 }
{
    for at in (0..i).rev() {
        if let Some(last) = non_tails(table, at).checked_ilog2() {
            return Block::first().plus(64 * at + last as usize);
        }
    }
    Block::first()
}

// Where the object of block k starts.
pub fn start(table: &Table, k: Block) -> Block
    requires { k.0 < length (entries_of table.now) }
    ensures { result.0 ≡ start_of (entries_of table.now) k.0 }
{
    let at = k.index();
    let i = at / 64;
    let here = non_tails(table, i) & (u64::MAX >> (63 - at % 64));
    match here.checked_ilog2() {
        Some(last) => Block::first().plus(64 * i + last as usize),
        None => past_tails(table, i),
    }
}
