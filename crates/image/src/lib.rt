// A heap image: it checks its arguments first, and then writes four sections from the front of the lent buffer on.
#![tactic(auto)]

ghost use Rattle.std.specs.Prelude.{◌≡◌, [], ◌+◌, ◌*◌, ◌≤◌, ◌<◌, ◌^◌, length};
ghost use Rattle.std.proofs.lemmas.List.Edits.{sets};
ghost use Rattle.rules.specs.Tables.{used as used_of};
ghost use Rattle.rules.specs.Planes.{planes, entries_in, IsTable, heap_at};
ghost use Rattle.rules.specs.Images.{image_of};
ghost use Rattle.rules.specs.Runs.{WriteImage};
ghost use Rattle.rules.specs.Memory.{memory, with_buffer, perform};
ghost use Rattle.image.specs.Answers.{written};

use checks::HeapView;
use entries::Table;
use numbers::Bytes;
use refusals::Refusal;

// The four sections, one behind the other: the base, the packed table, the used blocks, the roots.
fn write_sections(heap: &HeapView, roots: &[u8], image: &mut [u8], used: usize)
    requires table { IsTable heap.now.t heap.now.table.now × ((length heap.now.pool.now ≡ 16 * length (entries_in heap.now.t heap.now.table.now)) × (heap.now.base.0 < 2 ^ 32)) }
    requires used_value { (used ≡ used_of (entries_in heap.now.t heap.now.table.now)) × (12 + heap.now.t + 16 * used + length roots.now ≤ length image.old) }
    ensures { image.new ≡ sets image.old 0 (image_of heap.now.base.0 (heap_at heap.now.t heap.now.pool.now heap.now.table.now) roots.now) }
{
    memory::set_two_bytes(&mut *image, 0, 1);
    memory::set_four_bytes(&mut *image, 2, heap.base.to_word());
    memory::set_two_bytes(&mut *image, 6, heap.t);
    let table = Table::new(heap.t, heap.table);
    packing::pack(&table, &mut *image, 8);
    let blocks = 8 + heap.t;
    memory::set_two_bytes(&mut *image, blocks, used);
    transfer::gather(heap.pool, &table, &mut *image, blocks + 2);
    let list = blocks + 2 + Bytes::of_blocks(used).index();
    memory::set_two_bytes(&mut *image, list, roots.len() / 4);
    memory::set_part(&mut *image, list + 2, roots);
}

// The image of the heap and the roots, from the front of the buffer on, and how long it is. What is behind it stays.
pub fn write(heap: &HeapView, roots: &[u8], image: &mut [u8]) -> Result<u32, Refusal>
    ensures { written result heap.now.pool.now heap.now.table.now image.new
        ≡ with_buffer image.old (perform (planes heap.now.t) (WriteImage heap.now.base.0 roots.now (length image.old)) [] (memory heap.now.pool.now heap.now.table.now)) }
{
    checks::root_list(heap, roots.len())?;
    let used = whole::count(&Table::new(heap.t, heap.table)).used;
    let length = 12 + heap.t + Bytes::of_blocks(used).index() + roots.len();
    if image.len() < length {
        return Err(Refusal::OutputTooShort);
    }
    write_sections(heap, roots, image, used);
    Ok(length as u32)
}
