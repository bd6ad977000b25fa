// A heap image that is opened: the file is read, then held against what is lent, and only then written into it.
#![tactic(auto)]

ghost use Rattle.std.specs.Prelude.{◌≡◌, [], length};
ghost use Rattle.rules.specs.Planes.{planes};
ghost use Rattle.rules.specs.Refusals.{first_of};
ghost use Rattle.rules.specs.Runs.{OpenImage};
ghost use Rattle.rules.specs.Memory.{memory, with_buffer, perform};
ghost use Rattle.refusals.specs.Codes.{refused_by};
ghost use Rattle.parser.specs.Reading.{Says};
ghost use Rattle.opener.specs.Answers.{opened};
ghost use Rattle.opener.specs.Filling.{lent_tests, Suits, Filled};

use checks::HeapView;
use entries::Table;
use numbers::{Address, Bytes};
use parser::File;
use refusals::Refusal;

// The base, and how many roots there are.
#[derive(Clone, Copy)]
pub struct Opened {
    pub base: u32,
    pub roots: u32,
}

// Refusals 1, 2 and 17: whether the file, which has no fault, suits what is lent. What that holds is not looked at.
fn check(
    image: &[u8],
    file: File,
    t: usize,
    pool: &[u8],
    table: &[u8],
    roots: &[u8],
) -> Result<(), Refusal>
    requires { Says image.now file }
    ensures { refused_by result ≡ first_of (lent_tests t image.now pool.now table.now (length roots.now)) }
{
    if file.t != t {
        return Err(Refusal::BadShape);
    }
    if roots.len() % 4 != 0 {
        return Err(Refusal::BadShape);
    }
    if !checks::good_shape(&HeapView::new(Address::from(file.base), t, pool, table)) {
        return Err(Refusal::BadShape);
    }
    let end = 8 + t;
    let packed = &image[8..end];
    if !packing::well_formed(packed) {
        return Err(Refusal::BadTable);
    }
    if roots.len() < 4 * file.roots {
        return Err(Refusal::RootsTooShort);
    }
    Ok(())
}

// The table, the pool and the roots become those of the file. Every block that is not used becomes zero, and what is behind the roots stays.
fn fill(image: &[u8], file: File, t: usize, pool: &mut [u8], table: &mut [u8], roots: &mut [u8])
    requires { Suits image.now file t pool.old table.old roots.old }
    ensures { Filled image.now t roots.old pool.new table.new roots.new }
{
    let table_end = 8 + t;
    packing::unpack(t, &image[8..table_end], &mut *table);
    let blocks = table_end + 2;
    let blocks_end = blocks + Bytes::of_blocks(file.used).index();
    transfer::scatter(
        &image[blocks..blocks_end],
        &Table::new(t, &*table),
        &mut *pool,
    );
    let words = blocks_end + 2;
    memory::set_part(&mut *roots, 0, &image[words..]);
}

// The file becomes the heap in the lent pool and table, and its roots the first of the lent list.
pub fn open_image(
    image: &[u8],
    t: usize,
    pool: &mut [u8],
    table: &mut [u8],
    roots: &mut [u8],
) -> Result<Opened, Refusal>
    ensures { opened result pool.new table.new roots.new
        ≡ with_buffer roots.old (perform (planes t) (OpenImage image.now (length roots.old)) [] (memory pool.old table.old)) }
{
    let file = parser::parse(image)?;
    check(image, file, t, &*pool, &*table, &*roots)?;
    fill(image, file, t, pool, table, roots);
    Ok(Opened {
        base: file.base,
        roots: file.roots as u32,
    })
}
