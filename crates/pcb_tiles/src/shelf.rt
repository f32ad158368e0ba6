//! A shelf: all items in order of id, each shared, in chunks of at most 128 of which none is empty.
//! A change copies one chunk and the list of chunks, and shares all that stays.

ghost use Rattle.std.specs.Prelude.{◌≡◌, ℕ, ◌≤◌, ◌<◌, ◌+◌, [], ◌++◌, All, Contains, IfOk, MatchOption, drop};
ghost use Rattle.std.specs.Prelude.{filter, length, ltb, slice_index_or, suc, take as first_of};
ghost use Rattle.std.specs.Option.{option_copied};
ghost use Rattle.pcb_model.specs.declared.item.Item.{Item as OneItem};
ghost use Rattle.pcb_model.specs.Copper.{Ascends, IsFirstFrom};
ghost use Rattle.pcb_tiles.specs.declared.shelf.TheConstants.{MOST};
ghost use Rattle.pcb_tiles.specs.Cells.{with_item, without_item};
ghost use Rattle.pcb_tiles.specs.Shelves.{flat, IsChunk, AreChunks, IsHome, IsRoom, last_id, chunk_at as chunk_number};

use geo_kernel::List;
use pcb_model::Item;
use shared_value::Shared;
use std::alloc::{AllocError, Global};

/// Items in order of id.
pub(crate) type Chunk = Shared<List<Shared<Item>>>;

pub(crate) type Shelf = Shared<List<Chunk>>;

/// How many items a chunk has at most.
pub(crate) const MOST: usize = 128;

// Where the first id that isn't below `id` stands.
fn place_of(items: &[Shared<Item>], id: u64) -> usize
    requires { Ascends items.now }
    ensures bound { result ≤ length items.now }
    ensures below { (k : ℕ) (e : OneItem) → k < result → (slice_index_or items.now k e).id < id }
    ensures above { (k : ℕ) (e : OneItem) → result ≤ k → k < length items.now
        → id ≤ (slice_index_or items.now k e).id }
{
    items.partition_point(|b| b.get().id < id)
}

// The id of a chunk's last item, or 0 where it has none.
fn last_id_of(chunk: &Chunk) -> u64
    ensures { result ≡ last_id chunk.now }
{
    match chunk.get().as_slice().last() {
        Some(a) => a.get().id,
        None => 0,
    }
}

// The first chunk whose last id isn't below `id`.
fn home_of(chunks: &[Chunk], id: u64) -> usize
    requires { AreChunks chunks.now }
    ensures { IsHome chunks.now id result }
{
    chunks.partition_point(|c| last_id_of(c) < id)
}

// The chunk in which an item of this id has its place: the last one where the id is above all.
fn room_of(chunks: &[Chunk], id: u64) -> usize
    requires { AreChunks chunks.now }
    ensures within { result ≤ length chunks.now }
    ensures room { IsRoom chunks.now id result }
{
    let k = home_of(chunks, id);
    if k < chunks.len() {
        return k;
    }
    k.saturating_sub(1)
}

// The items of the chunk at a place.
fn chunk_at(chunks: &[Chunk], k: usize) -> &[Shared<Item>]
    ensures { result.now ≡ chunk_number chunks.now k }
{
    match chunks.get(k) {
        Some(c) => c.get().as_slice(),
        None => &[],
    }
}

/// The item of the least id at or above `from`, or None exactly where there is none.
pub(crate) fn first_from(chunks: &[Chunk], from: u64) -> Option<&Item>
    requires { AreChunks chunks.now }
    ensures { MatchOption (option_copied result) (All (λ b. b.id < from) (flat chunks.now))
        (IsFirstFrom from (flat chunks.now)) }
{
    let items = chunk_at(chunks, home_of(chunks, from));
    let i = place_of(items, from);
    if i == items.len() {
        return None;
    }
    Some(items[i].get())
}

fn share_all(chunks: &[Chunk], all: &mut List<Chunk>) -> Result<(), AllocError>
    ensures { IfOk result (λ _. all.new ≡ all.old ++ chunks.now) }
{
    for c in chunks {
        all.push(c.share()?)?;
    }
    Ok(())
}

fn after(chunks: &[Chunk], k: usize) -> &[Chunk]
    ensures { result.now ≡ drop (suc k) chunks.now }
{
    if k < chunks.len() {
        &chunks[k + 1..]
    } else {
        &[]
    }
}

// The chunks with others in place of the one at a place.
fn replaced(
    alloc: Global,
    chunks: &[Chunk],
    k: usize,
    by: &[Chunk],
) -> Result<List<Chunk>, AllocError>
    requires { k ≤ length chunks.now }
    ensures { IfOk result (λ s. s ≡ first_of k chunks.now ++ (by.now ++ drop (suc k) chunks.now)) }
{
    let mut all = List::new(alloc);
    share_all(&chunks[..k], &mut all)?;
    share_all(by, &mut all)?;
    share_all(after(chunks, k), &mut all)?;
    Ok(all)
}

/// Puts one more chunk to others, or none of no item.
pub(crate) fn add_chunk(
    alloc: Global,
    items: List<Shared<Item>>,
    chunks: &mut List<Chunk>,
) -> Result<(), AllocError>
    requires most { length items ≤ 128 }
    requires chunks { All IsChunk chunks.old }
    ensures items { IfOk result (λ _. flat chunks.new ≡ flat chunks.old ++ items) }
    ensures chunks { IfOk result (λ _. All IsChunk chunks.new) }
{
    if !items.is_empty() {
        chunks.push(Shared::new(alloc, items)?)?;
    }
    Ok(())
}

// Puts some items behind those of chunks: as one chunk, or two where they are one too many for one.
fn add_cut(
    alloc: Global,
    items: List<Shared<Item>>,
    chunks: &mut List<Chunk>,
) -> Result<(), AllocError>
    requires most { length items ≤ MOST + 1 }
    requires chunks { All IsChunk chunks.old }
    ensures items { IfOk result (λ _. flat chunks.new ≡ flat chunks.old ++ items) }
    ensures chunks { IfOk result (λ _. All IsChunk chunks.new) }
{
    if items.len() <= MOST {
        return add_chunk(alloc, items, chunks);
    }
    let mut items = items;
    let Some(last) = items.pop() else {
        return Ok(());
    };
    add_chunk(alloc, items, chunks)?;
    let mut end = List::new(alloc);
    end.push(last)?;
    add_chunk(alloc, end, chunks)
}

// The chunks of some items: two where they are one too many for one.
fn cut(alloc: Global, items: List<Shared<Item>>) -> Result<List<Chunk>, AllocError>
    requires { length items ≤ MOST + 1 }
    ensures items { IfOk result (λ s. flat s ≡ items) }
    ensures chunks { IfOk result (λ s. All IsChunk s) }
{
    let mut chunks = List::new(alloc);
    add_cut(alloc, items, &mut chunks)?;
    Ok(chunks)
}

fn add_below(
    items: &[Shared<Item>],
    id: u64,
    kept: &mut List<Shared<Item>>,
) -> Result<(), AllocError>
    ensures { IfOk result (λ _. kept.new ≡ kept.old ++ filter (λ (f : OneItem). ltb f.id id) items.now) }
{
    for f in items {
        if f.get().id < id {
            kept.push(f.share()?)?;
        }
    }
    Ok(())
}

fn add_above(
    items: &[Shared<Item>],
    id: u64,
    kept: &mut List<Shared<Item>>,
) -> Result<(), AllocError>
    ensures { IfOk result (λ _. kept.new ≡ kept.old ++ filter (λ (f : OneItem). ltb id f.id) items.now) }
{
    for f in items {
        if id < f.get().id {
            kept.push(f.share()?)?;
        }
    }
    Ok(())
}

fn put_in(
    alloc: Global,
    a: &Shared<Item>,
    items: &[Shared<Item>],
) -> Result<List<Shared<Item>>, AllocError>
    ensures { IfOk result (λ s. s ≡ with_item a.now items.now) }
{
    let mut kept = List::new(alloc);
    add_below(items, a.get().id, &mut kept)?;
    kept.push(a.share()?)?;
    add_above(items, a.get().id, &mut kept)?;
    Ok(kept)
}

fn take_from(
    alloc: Global,
    id: u64,
    items: &[Shared<Item>],
) -> Result<List<Shared<Item>>, AllocError>
    ensures { IfOk result (λ s. s ≡ without_item id items.now) }
{
    let mut kept = List::new(alloc);
    for f in items {
        if f.get().id != id {
            kept.push(f.share()?)?;
        }
    }
    Ok(kept)
}

/// The items with one more, whose id isn't held.
pub(crate) fn put(
    alloc: Global,
    a: &Shared<Item>,
    chunks: &[Chunk],
) -> Result<List<Chunk>, AllocError>
    requires chunks { AreChunks chunks.now }
    requires absent { All (λ b. b.id ≡ a.now.id → ⊥) (flat chunks.now) }
    ensures items { IfOk result (λ s. flat s ≡ with_item a.now (flat chunks.now)) }
    ensures chunks { IfOk result (λ s. All IsChunk s) }
{
    let k = room_of(chunks, a.get().id);
    let items = put_in(alloc, a, chunk_at(chunks, k))?;
    let changed = cut(alloc, items)?;
    replaced(alloc, chunks, k, changed.as_slice())
}

/// The items without the one of this id.
pub(crate) fn take(alloc: Global, id: u64, chunks: &[Chunk]) -> Result<List<Chunk>, AllocError>
    requires { AreChunks chunks.now }
    ensures items { IfOk result (λ s. flat s ≡ without_item id (flat chunks.now)) }
    ensures chunks { IfOk result (λ s. All IsChunk s) }
{
    let k = room_of(chunks, id);
    let items = take_from(alloc, id, chunk_at(chunks, k))?;
    let changed = cut(alloc, items)?;
    replaced(alloc, chunks, k, changed.as_slice())
}

/// The item of this id, or None exactly where there is none.
pub(crate) fn item_of(chunks: &[Chunk], id: u64) -> Option<&Item>
    requires { AreChunks chunks.now }
    ensures { MatchOption (option_copied result) (All (λ b. b.id ≡ id → ⊥) (flat chunks.now))
        (λ b. Contains (flat chunks.now) b × (b.id ≡ id)) }
{
    match first_from(chunks, id) {
        Some(found) => { if found.id == id { Some(found) } else { None } }
        None => None,
    }
}
