// Why a call is refused, and the limits that calls are held to. C has the same numbers and names: include/blockheap.h.
// The tests behind the refusals, and their order, are in crates/rules/specs (Refusals, Files) and crates/logs/specs (Log). 0 is no refusal.
#![tactic(auto)]

ghost use Rattle.std.specs.Prelude.{◌≡◌};
ghost use Rattle.refusals.specs.Codes.{code, refused_by};

// Why a call is refused.
#[derive(Clone, Copy, PartialEq, Eq, Debug)]
pub enum Refusal {
    // t, the length of pool or table or the base breaks the rules or is not that of the image, or a list is not whole words.
    BadShape = 1,
    // A MARK, a TAIL of no object, or a spare bit that is set.
    BadTable = 2,
    // More than MAX_ROOTS roots, a log's first address being one of them.
    TooManyRoots = 3,
    // A mark stack of more than MAX_STACK_ENTRIES entries.
    StackTooLong = 4,
    // A request for 0 bytes.
    ZeroBytes = 5,
    // A block number that is not below the number of blocks.
    NoSuchBlock = 6,
    // A block that is FREE or a TAIL.
    NotAHead = 7,
    // A word that is not inside the object.
    NoSuchWord = 8,
    // No aligned run of FREE blocks is long enough.
    NoRoom = 9,
    // A buffer that is shorter than the image.
    OutputTooShort = 10,
    // A file that ends inside a count or inside a section's items.
    ImageTruncated = 14,
    // A count in a file that is not what it must be.
    BadCount = 15,
    // Bytes behind a file's last section.
    TrailingBytes = 16,
    // A root list with fewer entries than the file has roots.
    RootsTooShort = 17,
    // A first address that is not 0 and from which no chain of entries leads to a next word of 0.
    NoLog = 18,
    // An entry that the log does not have.
    NoEntry = 19,
}

// The number by which C knows it.
impl From<Refusal> for u32 {
    ghost from_gives = { λ r n. n ≡ code r };

    fn from(r: Refusal) -> u32 {
        r as u32
    }
}

// The number of an answer: that of its refusal, or 0.
pub fn number_of(answer: Result<(), Refusal>) -> u32
    ensures { result ≡ refused_by answer }
{
    match answer {
        Ok(()) => 0,
        Err(r) => u32::from(r),
    }
}

// The largest heap: t, and its blocks.
pub const MAX_T: usize = 1024;

pub const MAX_BLOCKS: usize = 4096;

// The most roots of a collection or of an image.
pub const MAX_ROOTS: usize = 4096;

// The most entries of a mark stack.
pub const MAX_STACK_ENTRIES: usize = 64;
