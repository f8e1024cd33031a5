//! The log of a `MapStore`: entries whose versions are their places, packed in chunks that each have one list for all bodies.

ghost use Rattle.std.specs.Prelude.{◌≡◌, ◌≤◌, ◌<◌, ◌++◌, [], length, slice_range, OnOk, OnErr};
ghost use Rattle.std.specs.List.{All};
ghost use Rattle.std.specs.Vec.{vec_capacity};
ghost use Rattle.cs_map_store.specs.Packed.{IsFull, IsPart, joined, start_at};

use cs_store::StoredEntry;
use std::alloc::{AllocError, Global};
use std::marker::Model;
use std::mem;

/// How many entries a chunk has, but for the last one, which may have fewer.
const CHUNK: usize = 256;

/// An entry without its body, which stands in the bytes of its chunk: behind the one before it, up to `end`.
#[derive(Clone, Copy)]
struct EntrySpot {
    number: u64,
    origin: u32,
    end: usize,
}

/// Entries that follow one another, with one list for all bodies. Contracts see the entries and the room behind them.
#[derive(Drop)]
struct Chunk {
    spots: Vec<EntrySpot>,
    bytes: Vec<u8>,
}

impl Model for Chunk {
    ghost use Rattle.std.specs.Prelude.{◌-◌, length};
    ghost use Rattle.std.specs.Vec.{vec_len, vec_capacity};
    ghost use Rattle.cs_map_store.specs.Packed.{PackedItems, AreSpots, items_in};

    ghost Value = { PackedItems };

    ghost view = { λ chunk. record {
      items = items_in chunk.bytes.items 0 chunk.spots.items;
      places = vec_capacity chunk.spots - vec_len chunk.spots;
      bytes = vec_capacity chunk.bytes - vec_len chunk.bytes;
    } };

    ghost invariant = { λ chunk. AreSpots 0 chunk.spots.items (length chunk.bytes.items) };
}

/// Where the body of the entry at a spot begins.
fn start_of(spots: &[EntrySpot], at: usize) -> usize
    requires { at < length spots.now }
    ensures { result ≡ start_at 0 spots.now at }
{
    if at == 0 { 0 } else { spots[at - 1].end }
}

/// The bytes from one place up to another.
fn part(bytes: &[u8], start: usize, end: usize) -> &[u8]
    requires { (start ≤ end) × (end ≤ length bytes.now) }
    ensures { result.now ≡ slice_range bytes.now start end }
{
    &bytes[start..end]
}

impl Chunk {
    ghost use Rattle.std.specs.Prelude.{◌≡◌, ◌≤◌, ◌<◌, ◌+◌, ◌++◌, ◌∷◌, [], length, IfOk, OnOk, OnErr};
    ghost use Rattle.cs_store.specs.Written.{item_of};
    ghost use Rattle.cs_map_store.specs.Packed.{nth_item};

    /// No entry, and no room. It takes no memory.
    fn new(alloc: Global) -> Chunk
        ensures items { result.items ≡ [] }
        ensures places { result.places ≡ 0 }
    {
        Chunk {
            spots: Vec::new(alloc),
            bytes: Vec::new(alloc),
        }
    }

    /// No entry, with room for all that it may have, and for so many bytes of bodies.
    fn with_room(alloc: Global, bytes: usize) -> Result<Chunk, AllocError>
        ensures items { IfOk result (λ chunk. chunk.items ≡ []) }
        ensures places { IfOk result (λ chunk. chunk.places ≡ 256) }
        ensures bytes { IfOk result (λ chunk. bytes ≤ chunk.bytes) }
    {
        Ok(Chunk {
            spots: Vec::with_capacity(alloc, CHUNK)?,
            bytes: Vec::with_capacity(alloc, bytes)?,
        })
    }

    /// How many entries there are.
    fn len(&self) -> usize
        ensures { result ≡ length self.now.items }
    {
        self.spots.len()
    }

    /// For how many more entries there are places.
    fn places(&self) -> usize
        ensures { result ≡ self.now.places }
    {
        self.spots.capacity() - self.spots.len()
    }

    /// The body there.
    fn body(&self, at: usize) -> &[u8]
        requires { at < length self.now.items }
        ensures { result.now ≡ (nth_item self.now.items at).body }
    {
        let spots = self.spots.as_slice();
        part(self.bytes.as_slice(), start_of(spots, at), spots[at].end)
    }

    /// A copy of the entry there.
    fn copy(&self, alloc: Global, at: usize) -> Result<StoredEntry, AllocError>
        requires { at < length self.now.items }
        ensures { IfOk result (λ entry. item_of entry ≡ nth_item self.now.items at) }
    {
        let body = Vec::from_slice(alloc, self.body(at))?;
        let spot = self.spots.as_slice()[at];
        Ok(StoredEntry {
            origin: spot.origin,
            number: spot.number,
            body,
        })
    }

    /// Makes room for so many bytes more of bodies. What is refused changes nothing.
    fn reserve(&mut self, bytes: usize) -> Result<(), AllocError>
        ensures items { self.new.items ≡ self.old.items }
        ensures places { self.new.places ≡ self.old.places }
        ensures bytes { OnOk result (bytes ≤ self.new.bytes) }
        ensures err { OnErr result (self.new ≡ self.old) }
    {
        self.bytes.reserve(bytes)
    }

    /// Gives back room for bodies, where that can be done.
    fn shrink(&mut self)
        ensures { self.new.items ≡ self.old.items }
    {
        self.bytes.shrink_to_fit();
    }

    /// Adds the entry, for which there is room.
    fn append(&mut self, entry: &StoredEntry)
        requires place { 0 < self.old.places }
        requires bytes { length entry.now.body.items ≤ self.old.bytes }
        ensures items { self.new.items ≡ self.old.items ++ item_of entry.now ∷ [] }
        ensures places { self.new.places + 1 ≡ self.old.places }
    {
        let _ = self.bytes.extend_from_slice(entry.body.as_slice());
        self.spots.push_reserved(EntrySpot {
            number: entry.number,
            origin: entry.origin,
            end: self.bytes.len(),
        });
    }
}

/// The entries of a log in order of their versions, which are their places. Each chunk but the last has 256 entries, so that none
/// is looked for. Contracts see the entries and the room behind them.
#[derive(Drop)]
pub struct PackedLog {
    full: Vec<Chunk>,
    last: Chunk,
}

impl Model for PackedLog {
    ghost use Rattle.std.specs.Prelude.{◌++◌};
    ghost use Rattle.cs_map_store.specs.Packed.{PackedItems, IsLog, joined};

    ghost Value = { PackedItems };

    ghost view = { λ log. record {
      items = joined log.full.items ++ log.last.items;
      places = log.last.places;
      bytes = log.last.bytes;
    } };

    ghost invariant = { λ log. IsLog log.full.items log.last };
}

/// Begins a chunk with room for an entry whose body has so many bytes, where the last chunk has no place. What is refused takes
/// nothing.
fn begin(
    alloc: Global,
    full: &mut Vec<Chunk>,
    last: &mut Chunk,
    bytes: usize,
) -> Result<(), AllocError>
    requires full { All IsFull full.old.items }
    requires part { IsPart last.old }
    requires none { last.old.places ≡ 0 }
    ensures full { All IsFull full.new.items }
    ensures items { joined full.new.items ++ last.new.items ≡ joined full.old.items ++ last.old.items }
    ensures empty { OnOk result (last.new.items ≡ []) }
    ensures places { OnOk result (last.new.places ≡ 256) }
    ensures bytes { OnOk result (bytes ≤ last.new.bytes) }
    ensures same { OnErr result (full.new.items ≡ full.old.items) }
    ensures given_back { OnErr result (vec_capacity full.new ≡ vec_capacity full.old) }
    ensures same_last { OnErr result (last.new ≡ last.old) }
{
    let next = Chunk::with_room(alloc, bytes)?;
    if last.len() == 0 {
        *last = next;
        return Ok(());
    }
    full.reserve(1)?;
    let mut done = mem::replace(last, next);
    done.shrink();
    full.push_reserved(done);
    Ok(())
}

/// Makes room for an entry whose body has so many bytes. What is refused takes nothing.
fn reserve(
    alloc: Global,
    full: &mut Vec<Chunk>,
    last: &mut Chunk,
    bytes: usize,
) -> Result<(), AllocError>
    requires full { All IsFull full.old.items }
    requires part { IsPart last.old }
    ensures full { All IsFull full.new.items }
    ensures part { IsPart last.new }
    ensures items { joined full.new.items ++ last.new.items ≡ joined full.old.items ++ last.old.items }
    ensures places { OnOk result (0 < last.new.places) }
    ensures bytes { OnOk result (bytes ≤ last.new.bytes) }
    ensures same { OnErr result (full.new.items ≡ full.old.items) }
    ensures given_back { OnErr result (vec_capacity full.new ≡ vec_capacity full.old) }
    ensures same_last { OnErr result (last.new ≡ last.old) }
{
    if last.places() == 0 {
        begin(alloc, full, last, bytes)
    } else {
        last.reserve(bytes)
    }
}

impl PackedLog {
    ghost use Rattle.std.specs.Prelude.{◌≡◌, ◌≤◌, ◌<◌, ◌%◌, [], pos, length, take, drop, slice_range, IfOk, OnOk, OnErr};
    ghost use Rattle.std.specs.FinMap.{get};
    ghost use Rattle.cs_store.specs.Written.{appended, item_of, items_of, optional_entry};
    ghost use Rattle.cs_map_store.specs.Slots.{log_of};
    ghost use Rattle.cs_map_store.specs.Packed.{HasRoomFor, nth_item};

    /// No entry. It takes no memory.
    pub fn new(alloc: Global) -> PackedLog
        ensures { result.items ≡ [] }
    {
        PackedLog {
            full: Vec::new(alloc),
            last: Chunk::new(alloc),
        }
    }

    /// How many entries there are.
    pub fn len(&self) -> u32
        ensures { result ≡ length self.now.items }
    {
        (self.full.len() * CHUNK + self.last.len()) as u32
    }

    /// The chunk in which the entry there stands.
    fn chunk(&self, at: usize) -> &Chunk
        requires { at < length self.now.items }
        ensures within { at % 256 < length result.now.items }
        ensures same { nth_item result.now.items (at % 256) ≡ nth_item self.now.items at }
    {
        let full = self.full.as_slice();
        let number = at / CHUNK;
        if number < full.len() {
            &full[number]
        } else {
            &self.last
        }
    }

    /// The body of the entry there.
    pub fn body(&self, at: usize) -> &[u8]
        requires { at < length self.now.items }
        ensures { result.now ≡ (nth_item self.now.items at).body }
    {
        self.chunk(at).body(at % CHUNK)
    }

    /// A copy of the entry there.
    fn copy(&self, alloc: Global, at: usize) -> Result<StoredEntry, AllocError>
        requires { at < length self.now.items }
        ensures { IfOk result (λ entry. item_of entry ≡ nth_item self.now.items at) }
    {
        self.chunk(at).copy(alloc, at % CHUNK)
    }

    /// A copy of the entry at a version, if there is one.
    pub fn get(&self, alloc: Global, version: u32) -> Result<Option<StoredEntry>, AllocError>
        ensures { IfOk result (λ entry. optional_entry entry ≡ get (log_of self.now.items) (pos version)) }
    {
        if version < self.len() {
            Ok(Some(self.copy(alloc, version as usize)?))
        } else {
            Ok(None)
        }
    }

    /// Copies of the entries from one place up to another.
    fn copies(
        &self,
        alloc: Global,
        start: usize,
        end: usize,
    ) -> Result<Vec<StoredEntry>, AllocError>
        requires { (start ≤ end) × (end ≤ length self.now.items) }
        ensures { IfOk result (λ entries. items_of entries.items ≡ slice_range self.now.items start end) }
    {
        let mut entries = Vec::with_capacity(alloc, end - start)?;
        for at in start..end {
            entries.push(self.copy(alloc, at)?)?;
        }
        Ok(entries)
    }

    /// Copies of the entries from a version on, at most so many, and fewer where the log ends.
    pub fn list(
        &self,
        alloc: Global,
        first: u32,
        count: u32,
    ) -> Result<Vec<StoredEntry>, AllocError>
        ensures { IfOk result (λ entries. items_of entries.items ≡ take count (drop first self.now.items)) }
    {
        let end = self.len().min(first.saturating_add(count));
        self.copies(alloc, end.min(first) as usize, end as usize)
    }

    /// Makes room for the entry, if there is one. A version is a `u32`, so the log has an end. What is refused takes nothing.
    pub fn make_room(
        &mut self,
        alloc: Global,
        entry: &Option<StoredEntry>,
    ) -> Result<(), AllocError>
        ensures items { self.new.items ≡ self.old.items }
        ensures room { OnOk result (HasRoomFor self.new (optional_entry entry.now)) }
        ensures err { OnErr result (self.new ≡ self.old) }
    {
        let Some(entry) = entry else {
            return Ok(());
        };
        if self.len() == u32::MAX {
            return Err(AllocError);
        }
        reserve(alloc, &mut self.full, &mut self.last, entry.body.len())
    }

    /// Adds the entry, for which there is room. Its bytes are copied into the last chunk.
    pub fn append(&mut self, entry: &Option<StoredEntry>)
        requires { HasRoomFor self.old (optional_entry entry.now) }
        ensures { log_of self.new.items ≡ appended (log_of self.old.items) (optional_entry entry.now) }
    {
        if let Some(entry) = entry {
            self.last.append(entry);
        }
    }
}
