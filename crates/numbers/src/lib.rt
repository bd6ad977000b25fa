// Numbers by kind: blocks, addresses and bytes, and the change in used blocks. Only this crate's functions make a number of a kind or pass between
// the kinds: the fields are private.
#![tactic(auto)]

ghost use Rattle.std.specs.Prelude.{◌≡◌, ◌+◌, ◌-◌, ◌*◌, ◌^◌, ◌<◌, ◌≤◌, length, pos, neg_ℤ, ◌==◌, nat_le, nat_lt};
ghost use Rattle.std.proofs.Math.IntN.{sub_ℕ};
ghost use Rattle.rules.specs.Tables.{aligned};
ghost use Rattle.rules.specs.Pointers.{address_of, good_base, target_of};
ghost use Rattle.rules.specs.Calls.{blocks_for};
ghost use Rattle.laws.specs.Clamped.{clamped as clamped_to};
ghost use Rattle.numbers.specs.Places.{found, BlockOf};

// A block's number in the pool, from 0. A block is less than those behind it.
#[derive(Clone, Copy, PartialEq, Eq, PartialOrd, Ord)]
pub struct Block(usize);

// An address. A base that is not tested yet may be any number; that of a block fits a word, and the end of the last is at most 2^32.
#[derive(Clone, Copy)]
pub struct Address(u64);

// A count of bytes that a caller asks for or that blocks have, or an offset into the pool. A place in a file is none.
#[derive(Clone, Copy)]
pub struct Bytes(usize);

// The first number that is no address.
const END: u64 = 4294967296;

// The largest number of 32 bits.
const LARGEST: u64 = 4294967295;

// A number that a caller gave, or the largest of 32 bits if it is larger: every host's usize holds it, and no call tells the two apart.
pub fn clamped(n: u64) -> usize
    ensures { result ≡ clamped_to n }
{
    n.min(LARGEST) as usize
}

// The block whose number a word holds.
impl From<u32> for Block {
    ghost from_gives = { λ w k. k.0 ≡ w };

    fn from(w: u32) -> Block {
        Block(w as usize)
    }
}

// The number for a caller.
impl From<Block> for u64 {
    ghost from_gives = { λ k n. n ≡ k.0 };

    fn from(k: Block) -> u64 {
        k.0 as u64
    }
}

impl Block {
    // The pool's first block.
    pub fn first() -> Block
        ensures { result.0 ≡ 0 }
    {
        Block(0)
    }

    // The block whose number a caller gave, clamped. There may be no such block. No `From`, here and of `Bytes`: what is clamped is another number. One line for each kind: a trait would be longer.
    pub fn of_number(n: u64) -> Block
        ensures { result.0 ≡ clamped_to n }
    {
        Block(clamped(n))
    }

    // The index of the block's entry among the table's entries.
    pub fn index(self) -> usize
        ensures { result ≡ self.0 }
    {
        self.0
    }

    // The block `count` blocks further on.
    pub fn plus(self, count: usize) -> Block
        requires { self.0 + count < 2 ^ 32 }
        ensures { result.0 ≡ self.0 + count }
    {
        Block(self.0 + count)
    }

    // Whether it is one of n blocks. A count is no block, so the order of blocks would need one made of it.
    pub fn is_below(self, n: usize) -> bool
        ensures { result ≡ nat_lt self.0 n }
    {
        self.0 < n
    }

    // How many of n blocks there are from this one on.
    pub fn until(self, n: usize) -> usize
        requires { self.0 ≤ n }
        ensures { result ≡ n - self.0 }
    {
        n - self.0
    }

    // Whether count blocks are aligned at this one.
    pub fn is_aligned(self, count: usize) -> bool
        ensures { result ≡ aligned count self.0 }
    {
        if count < 4 {
            return true;
        }
        self.0 % 4 == 0
    }

    // Where the block's bytes start in the pool.
    pub fn offset(self) -> Bytes
        requires { self.0 < 2 ^ 28 }
        ensures { result.0 ≡ 16 * self.0 }
    {
        Bytes(16 * self.0)
    }

    // The index of the block's first word among the pool's words.
    pub fn first_word(self) -> usize
        requires { self.0 < 2 ^ 28 }
        ensures { result ≡ 4 * self.0 }
    {
        4 * self.0
    }

    // The number as a word of the mark stack holds it. No `From`, here and of `Address`: it asks that the number fits. One line for each: a trait would be longer.
    pub fn to_word(self) -> u32
        requires { self.0 < 2 ^ 32 }
        ensures { result ≡ self.0 }
    {
        self.0 as u32
    }
}

impl Bytes {
    // So many bytes as a caller asked for, clamped.
    pub fn of_number(n: u64) -> Bytes
        ensures { result.0 ≡ clamped_to n }
    {
        Bytes(clamped(n))
    }

    // The number as an index into bytes.
    pub fn index(self) -> usize
        ensures { result ≡ self.0 }
    {
        self.0
    }

    // Whether there are none. `==` would need a zero of the kind beside it.
    pub fn is_zero(self) -> bool
        ensures { result ≡ (self.0 == 0) }
    {
        self.0 == 0
    }

    // Whether the part has so many bytes or more. A part is no count, so no order of counts serves, here and for its exact length.
    pub fn fits_in(self, part: &[u8]) -> bool
        ensures { result ≡ nat_le self.0 (length part.now) }
    {
        self.0 <= part.len()
    }

    // Whether the part has exactly so many bytes.
    pub fn is_length_of(self, part: &[u8]) -> bool
        ensures { result ≡ (length part.now == self.0) }
    {
        part.len() == self.0
    }

    // How many blocks hold so many bytes.
    pub fn blocks(self) -> usize
        requires { self.0 < 2 ^ 31 }
        ensures { result ≡ blocks_for self.0 }
    {
        (self.0 + 15) / 16
    }

    // The bytes of so many blocks.
    pub fn of_blocks(count: usize) -> Bytes
        requires { count < 2 ^ 28 }
        ensures { result.0 ≡ 16 * count }
    {
        Bytes(16 * count)
    }
}

// The address that a caller gave.
impl From<u64> for Address {
    ghost from_gives = { λ n at. at.0 ≡ n };

    fn from(n: u64) -> Address {
        Address(n)
    }
}

// The address that a word holds.
impl From<u32> for Address {
    ghost from_gives = { λ w at. at.0 ≡ w };

    fn from(w: u32) -> Address {
        Address(u64::from(w))
    }
}

impl Address {
    // Whether n blocks can lie from here on: a multiple of 16, at least 16, with the end of the last block in the address space.
    pub fn is_base(self, n: usize) -> bool
        requires { n < 2 ^ 32 }
        ensures { result ≡ good_base self.0 n }
    {
        let at = self.0;
        if at % 16 != 0 {
            return false;
        }
        if at < 16 {
            return false;
        }
        if END < at {
            return false;
        }
        self.of_block(Block(n)).0 <= END
    }

    // The address of block k.
    pub fn of_block(self, k: Block) -> Address
        requires { (self.0 ≤ 2 ^ 32) × (k.0 < 2 ^ 32) }
        ensures { result.0 ≡ address_of self.0 k.0 }
    {
        Address(self.0 + 16 * (k.0 as u64))
    }

    // The address as a word.
    pub fn to_word(self) -> u32
        requires { self.0 < 2 ^ 32 }
        ensures { result ≡ self.0 }
    {
        self.0 as u32
    }

    // Whether it is 0, which is the address of no block: a test by its name, as that of `Bytes`.
    pub fn is_zero(self) -> bool
        ensures { result ≡ (self.0 == 0) }
    {
        self.0 == 0
    }

    // The block of n blocks from this base on whose address is the word w.
    pub fn target(self, n: usize, w: u32) -> Option<Block>
        ensures { found result ≡ target_of self.0 n w }
    {
        self.block_at(n, Address::from(w))
    }

    // The block of n blocks from this base on that has this address.
    pub fn block_at(self, n: usize, at: Address) -> Option<Block>
        ensures { found result ≡ target_of self.0 n at.0 }
    {
        if at.0 < self.0 {
            return None;
        }
        let distance = at.0 - self.0;
        if distance % 16 != 0 {
            return None;
        }
        let k = distance / 16;
        if k < n as u64 {
            Some(Block(k as usize))
        } else {
            None
        }
    }

    // The block from this base on whose address is the word w. Of other words a number that is too large, which the one caller tests anyway: the difference is rotated, so that
    // what is no multiple of 16 comes to the highest bits.
    pub fn block_of(self, w: u32) -> Block
        requires { self.0 < 2 ^ 32 }
        ensures { BlockOf self.0 w result.0 }
    {
        let d = std::num::wrapping_sub_u32(w, self.to_word());
        let k = d / 16 + d % 16 * 268435456;
        Block(k as usize)
    }
}

// The change in used blocks, where there were so many before and are so many after.
pub fn difference(after: usize, before: usize) -> i32
    requires { (after ≤ 4096) × (before ≤ 4096) }
    ensures { result ≡ sub_ℕ after before }
{
    (after as i32) - (before as i32)
}

// The change where so many blocks are freed.
pub fn negated(freed: usize) -> i32
    requires { freed ≤ 4096 }
    ensures { result ≡ neg_ℤ (pos freed) }
{
    -(freed as i32)
}
