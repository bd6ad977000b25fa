// A file, read from the front as a heap image: the first fault counts. Nothing is written.
#![tactic(auto)]

ghost use Rattle.std.specs.Prelude.{◌≡◌, ◌≤◌, leb, length, IfOk};
ghost use Rattle.rules.specs.Tests.{both};
ghost use Rattle.rules.specs.Files.{one_base, table_bytes, blocks_of, root_words, fault_of};
ghost use Rattle.refusals.specs.Codes.{refused_by};
ghost use Rattle.parser.specs.Reading.{kind_by, Small, Reads, Says};

use refusals::Refusal;

// What a section may hold: how many bytes each of what it counts has, the fewest and the most there may be, and the refusal if there are fewer or more.
#[derive(Clone, Copy)]
struct Kind {
    size: usize,
    fewest: usize,
    most: usize,
    wrong: Refusal,
}

// A section without a fault: its count and the place behind it.
#[derive(Clone, Copy)]
struct Section {
    count: usize,
    end: usize,
}

// A file without a fault: the base, the bytes of the table, the used blocks and the roots.
#[derive(Clone, Copy)]
pub struct File {
    pub base: u32,
    pub t: usize,
    pub used: usize,
    pub roots: usize,
}

impl Kind {
    // One base, four bytes.
    fn one_base() -> Kind
        ensures { kind_by result ≡ one_base }
    {
        Kind {
            size: 4,
            fewest: 1,
            most: 1,
            wrong: Refusal::BadCount,
        }
    }

    // The bytes of a packed table.
    fn table_bytes() -> Kind
        ensures { kind_by result ≡ table_bytes }
    {
        Kind {
            size: 1,
            fewest: 1,
            most: refusals::MAX_T,
            wrong: Refusal::BadCount,
        }
    }

    // So many blocks, 16 bytes each.
    fn blocks(count: usize) -> Kind
        ensures { kind_by result ≡ blocks_of count }
    {
        Kind {
            size: 16,
            fewest: count,
            most: count,
            wrong: Refusal::BadCount,
        }
    }

    // Roots, four bytes each.
    fn root_words() -> Kind
        ensures { kind_by result ≡ root_words }
    {
        Kind {
            size: 4,
            fewest: 0,
            most: refusals::MAX_ROOTS,
            wrong: Refusal::TooManyRoots,
        }
    }

    // Whether there may be so many.
    fn allows(self, count: usize) -> bool
        ensures { result ≡ both (leb self.fewest count) (leb count self.most) }
    {
        self.fewest <= count && count <= self.most
    }
}

// The section from `at` on. Its count is tested before its body.
fn section_at(image: &[u8], at: usize, kind: Kind) -> Result<Section, Refusal>
    requires { (at ≤ length image.now) × Small (kind_by kind) }
    ensures { Reads image.now at (kind_by kind) result }
{
    let left = image.len() - at;
    if left < 2 {
        return Err(Refusal::ImageTruncated);
    }
    let count = memory::two_bytes(image, at);
    if !kind.allows(count) {
        return Err(kind.wrong);
    }
    let size = kind.size * count;
    if left - 2 < size {
        return Err(Refusal::ImageTruncated);
    }
    Ok(Section {
        count,
        end: at + 2 + size,
    })
}

// The file: its four sections, each behind the one before it, and nothing else.
pub fn parse(image: &[u8]) -> Result<File, Refusal>
    ensures { (refused_by result ≡ fault_of image.now) × IfOk result (λ file. Says image.now file) }
{
    let base = section_at(image, 0, Kind::one_base())?;
    let table = section_at(image, base.end, Kind::table_bytes())?;
    let used = packing::used(&image[8..table.end]);
    let blocks = section_at(image, table.end, Kind::blocks(used))?;
    let roots = section_at(image, blocks.end, Kind::root_words())?;
    if roots.end < image.len() {
        return Err(Refusal::TrailingBytes);
    }
    Ok(File {
        base: memory::word(&image[2..6], 0),
        t: table.count,
        used,
        roots: roots.count,
    })
}
