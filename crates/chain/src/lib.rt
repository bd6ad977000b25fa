// The walk along a log's entries, from its first address to the end. It is made of public calls of the heap alone: this layer reads no byte itself.
#![tactic(auto)]

ghost use Rattle.std.specs.Prelude.{◌≡◌, ◌<◌, eqb};
ghost use Rattle.std.proofs.Math.Option.{some};
ghost use Rattle.rules.specs.Tests.{pick};
ghost use Rattle.rules.specs.Pointers.{target_of};
ghost use Rattle.numbers.specs.Places.{found};
ghost use Rattle.logs.specs.Heads.{link_from, heads_from};
ghost use Rattle.chain.specs.Walks.{loads_in, Steps, Walked};

use heap::Checked;
use numbers::{Address, Block};

// A walk along the entries: the address where it stands, how many entries it has passed, the block of the last of them, and that of the one with the wanted index.
#[derive(Clone, Copy)]
pub struct Walk {
    pub at: Address,
    pub count: usize,
    pub last: Option<Block>,
    pub wanted: Option<Block>,
}

// The block with the wanted index, once the entry at block k is passed.
fn wanted(w: Walk, k: Block, index: u64) -> Option<Block>
    ensures { found result ≡ pick (eqb w.count index) (some k.0) (found w.wanted) }
{
    if w.count as u64 == index {
        Some(k)
    } else {
        w.wanted
    }
}

// Passes the entry where the walk stands, if there is one: the address of a head whose object has two blocks.
fn advance(heap: &Checked, w: Walk, index: u64) -> Option<Walk>
    requires { w.count < 4096 }
    ensures { Steps index w (link_from (loads_in heap.now.view.base.0 heap.now.view.t heap.now.view.pool.now heap.now.view.table.now) (target_of heap.now.view.base.0 4096 w.at.0)) result }
{
    let k = heap.view.base.block_at(refusals::MAX_BLOCKS, w.at)?;
    let next = heap.load_link(k)?;
    Some(Walk {
        at: Address::from(next),
        count: w.count + 1,
        last: Some(k),
        wanted: wanted(w, k, index),
    })
}

// Walks from the first address to a next word of 0. More entries than a heap has blocks would repeat themselves.
pub fn follow(heap: &Checked, first: Address, index: u64) -> Option<Walk>
    ensures { Walked index result (heads_from (loads_in heap.now.view.base.0 heap.now.view.t heap.now.view.pool.now heap.now.view.table.now) heap.now.view.base.0 4096 first.0) }
{
    let mut w = Walk {
        at: first,
        count: 0,
        last: None,
        wanted: None,
    };
    while !w.at.is_zero() {
        if w.count == refusals::MAX_BLOCKS {
            return None;
        }
        w = advance(heap, w, index)?;
    }
    Some(w)
}
