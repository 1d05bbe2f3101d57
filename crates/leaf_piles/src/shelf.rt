// Blocks of leaves with their sizes, and free blocks; what is done to one leaf, to one block, or to two neighbouring blocks.
ghost use Rattle.std.specs.Prelude.{◌≡◌, ℕ, ◌+◌, ◌^◌, ◌<◌, ◌≤◌, [], ◌∷◌, ◌++◌, length, slice_get, slice_set, insert, remove, Some, OnOk, IfSome, vec_len, vec_capacity};
ghost use Rattle.sorted_table.specs.Tables.{value_there, with_value};
ghost use Rattle.leaf_blocks.specs.Leaves.{joined, before, leaf_at, rank, split_run, join_leaf, items_in, IsSpot};

use idb_base::NoMemory;
use leaf_blocks::{
    Block, Ends, Leaf, absorb, cut_head, halve, last_below, last_up_to, put_head, set_head,
};
use std::alloc::Global;
use std::marker::Model;

/// A leaf of a block, and a place in it.
#[derive(Clone, Copy)]
pub struct Seat {
    pub block: usize,
    pub leaf: usize,
    pub offset: usize,
}

/// Two leaves between which a key may be.
#[derive(Clone, Copy)]
pub struct Guess {
    pub first: Seat,
    pub last: Seat,
}

/// Blocks in use, in order, and free ones.
#[derive(Drop)]
pub struct Shelf<T> {
    blocks: Vec<Block<T>>,
    ends: Ends,
    heads: Vec<i64>,
    kept: Vec<Block<T>>,
}

impl<T> Model for Shelf<T> {
    ghost use Rattle.std.specs.Prelude.{vec_len, vec_capacity};
    ghost use Rattle.leaf_piles.specs.Piles.{Shelf as Blocks, IsShelf};

    ghost Value = { Blocks T };

    ghost view = { λ a. record { blocks = a.blocks.items; kept = vec_len a.kept } };

    ghost invariant = { λ a. IsShelf a.blocks.items a.ends (vec_len a.kept) (vec_capacity a.blocks)
        (vec_capacity a.kept) };
}

impl<T: Drop> Shelf<T> {
    /// No block; it takes no memory.
    pub fn new(alloc: Global) -> Shelf<T>
        ensures blocks { result.blocks ≡ [] }
        ensures kept { result.kept ≡ 0 }
    {
        Shelf {
            blocks: Vec::new(alloc),
            ends: Ends::new(alloc),
            heads: Vec::new(alloc),
            kept: Vec::new(alloc),
        }
    }

    /// Sees that there are this many blocks, in use or free.
    pub fn reserve(&mut self, alloc: Global, count: usize) -> Result<(), NoMemory>
        requires { count ≤ 2 ^ 40 }
        ensures blocks { self.new.blocks ≡ self.old.blocks }
        ensures kept { self.old.kept ≤ self.new.kept }
        ensures room { OnOk result (count ≤ length self.new.blocks + self.new.kept) }
    {
        let used = self.blocks.len();
        if count <= used {
            return Ok(());
        }
        let free = count - used;
        if free <= self.kept.len() {
            return Ok(());
        }
        self.blocks.reserve(free)?;
        self.ends.reserve(free)?;
        self.heads.reserve(free)?;
        self.kept.reserve(count)?;
        fill_blocks(&mut self.kept, free, alloc)
    }

    /// How many blocks are in use.
    pub fn len(&self) -> usize
        ensures { result ≡ length self.now.blocks }
    {
        self.blocks.len()
    }

    /// How many items there are.
    pub fn count(&self) -> usize
        ensures { result ≡ length (joined (joined self.now.blocks)) }
    {
        self.ends.total()
    }

    /// How many leaves a block has.
    pub fn width(&self, block: usize) -> usize
        requires { block < length self.now.blocks }
        ensures value { result ≡ length (leaf_at self.now.blocks block) }
        ensures most { result ≤ 128 }
    {
        self.blocks[block].len()
    }

    /// The seat of a place, where no block is empty.
    pub fn seat(&self, place: usize) -> Seat
        requires some { 0 < length self.now.blocks }
        requires within { place ≤ length (joined (joined self.now.blocks)) }
        requires filled { (b : ℕ) → b < length self.now.blocks → 0 < length (leaf_at self.now.blocks b) }
        ensures spot { IsSpot self.now.blocks result.block result.leaf }
        ensures place { place ≡ before (joined self.now.blocks)
            (rank self.now.blocks result.block result.leaf) + result.offset }
        ensures offset { result.offset
            ≤ length (leaf_at (joined self.now.blocks) (rank self.now.blocks result.block result.leaf)) }
        ensures inner { place < length (joined (joined self.now.blocks)) → result.offset
            < length (leaf_at (joined self.now.blocks) (rank self.now.blocks result.block result.leaf)) }
    {
        let outer = self.ends.seat(place);
        let inner = self.blocks[outer.at].seat(outer.rest);
        Seat {
            block: outer.at,
            leaf: inner.at,
            offset: inner.rest,
        }
    }

    /// The seat of a place in this leaf, if there is such a leaf and the place is one of its items.
    pub(crate) fn seat_within(&self, block: usize, leaf: usize, place: usize) -> Option<Seat>
        ensures spot { IfSome result (λ seat. IsSpot self.now.blocks seat.block seat.leaf) }
        ensures place { IfSome result (λ seat. place ≡ before (joined self.now.blocks)
            (rank self.now.blocks seat.block seat.leaf) + seat.offset) }
        ensures inner { IfSome result (λ seat. seat.offset
            < length (leaf_at (joined self.now.blocks) (rank self.now.blocks seat.block seat.leaf))) }
    {
        if block >= self.blocks.len() {
            return None;
        }
        let seat = self.seat_there(block, leaf)?;
        let offset = place.checked_sub(self.start(seat))?;
        if offset < self.size(seat) {
            Some(Seat {
                block: seat.block,
                leaf: seat.leaf,
                offset,
            })
        } else {
            None
        }
    }

    /// How many items stand before this leaf.
    pub fn start(&self, seat: Seat) -> usize
        requires { IsSpot self.now.blocks seat.block seat.leaf }
        ensures { result ≡ before (joined self.now.blocks) (rank self.now.blocks seat.block seat.leaf) }
    {
        self.ends.start(seat.block) + self.blocks[seat.block].start(seat.leaf)
    }

    /// How many items this leaf has.
    pub fn size(&self, seat: Seat) -> usize
        requires { IsSpot self.now.blocks seat.block seat.leaf }
        ensures value { result
            ≡ length (leaf_at (joined self.now.blocks) (rank self.now.blocks seat.block seat.leaf)) }
        ensures most { result ≤ 64 }
    {
        self.blocks[seat.block].size(seat.leaf)
    }

    /// The items of this leaf.
    pub fn leaf(&self, seat: Seat) -> &[T]
        requires { IsSpot self.now.blocks seat.block seat.leaf }
        ensures { result.now ≡ leaf_at (joined self.now.blocks) (rank self.now.blocks seat.block seat.leaf) }
    {
        self.blocks[seat.block].leaf(seat.leaf)
    }

    /// The first leaf, with these items.
    pub fn begin(&mut self, leaf: Leaf<T>)
        requires empty { self.old.blocks ≡ [] }
        requires kept { 0 < self.old.kept }
        ensures blocks { self.new.blocks ≡ (leaf ∷ []) ∷ [] }
        ensures kept { self.new.kept + 1 ≡ self.old.kept }
    {
        let mut block = take_kept(&mut self.kept);
        self.ends.push(leaf.len());
        block.push(leaf, i64::MIN);
        put_head(&mut self.heads, 0, i64::MIN);
        put_block(&mut self.blocks, 0, block);
    }

    /// Puts an item into a leaf, before the one at this offset.
    pub fn put(&mut self, seat: Seat, item: T)
        requires spot { IsSpot self.old.blocks seat.block seat.leaf }
        requires offset { seat.offset ≤ length (leaf_at (leaf_at self.old.blocks seat.block) seat.leaf) }
        requires room { length (leaf_at (leaf_at self.old.blocks seat.block) seat.leaf) < 64 }
        requires small { length (joined (joined self.old.blocks)) < 2 ^ 63 }
        ensures blocks { self.new.blocks ≡ slice_set self.old.blocks seat.block
            (slice_set (leaf_at self.old.blocks seat.block) seat.leaf
            (insert (leaf_at (leaf_at self.old.blocks seat.block) seat.leaf) seat.offset item)) }
        ensures kept { self.new.kept ≡ self.old.kept }
    {
        self.ends.raise(seat.block, 1);
        self.blocks[seat.block].put(seat.leaf, seat.offset, item);
    }

    /// Takes an item out of a leaf, which may then be empty.
    pub fn take(&mut self, seat: Seat) -> T
        requires spot { IsSpot self.old.blocks seat.block seat.leaf }
        requires offset { seat.offset < length (leaf_at (leaf_at self.old.blocks seat.block) seat.leaf) }
        ensures taken { slice_get (leaf_at (leaf_at self.old.blocks seat.block) seat.leaf) seat.offset
            ≡ Some result }
        ensures blocks { self.new.blocks ≡ slice_set self.old.blocks seat.block
            (slice_set (leaf_at self.old.blocks seat.block) seat.leaf
            (remove (leaf_at (leaf_at self.old.blocks seat.block) seat.leaf) seat.offset)) }
        ensures kept { self.new.kept ≡ self.old.kept }
    {
        self.ends.lower(seat.block, 1);
        self.blocks[seat.block].take(seat.leaf, seat.offset)
    }

    /// Splits a full leaf into halves.
    pub fn split(&mut self, seat: Seat, upper: Leaf<T>)
        requires spot { IsSpot self.old.blocks seat.block seat.leaf }
        requires full { length (leaf_at (leaf_at self.old.blocks seat.block) seat.leaf) ≡ 64 }
        requires room { length (leaf_at self.old.blocks seat.block) < 128 }
        requires empty { upper ≡ [] }
        ensures blocks { self.new.blocks ≡ slice_set self.old.blocks seat.block
            (split_run 32 (leaf_at self.old.blocks seat.block) seat.leaf) }
        ensures kept { self.new.kept ≡ self.old.kept }
    {
        self.blocks[seat.block].split(seat.leaf, upper);
    }

    /// Takes a leaf out.
    pub fn pull(&mut self, seat: Seat) -> Leaf<T>
        requires { IsSpot self.old.blocks seat.block seat.leaf }
        ensures taken { result ≡ leaf_at (leaf_at self.old.blocks seat.block) seat.leaf }
        ensures blocks { self.new.blocks ≡ slice_set self.old.blocks seat.block
            (remove (leaf_at self.old.blocks seat.block) seat.leaf) }
        ensures kept { self.new.kept ≡ self.old.kept }
    {
        let leaf = self.blocks[seat.block].pull(seat.leaf);
        self.ends.lower(seat.block, leaf.len());
        let head = self.blocks[seat.block].head(0);
        set_head(&mut self.heads, seat.block, head);
        leaf
    }

    /// Moves all items of another leaf behind those of this one.
    pub fn append(&mut self, seat: Seat, other: &mut Leaf<T>)
        requires spot { IsSpot self.old.blocks seat.block seat.leaf }
        requires room { length (leaf_at (leaf_at self.old.blocks seat.block) seat.leaf) + length other.old
            ≤ 64 }
        requires small { length (joined (joined self.old.blocks)) < 2 ^ 63 }
        ensures blocks { self.new.blocks ≡ slice_set self.old.blocks seat.block
            (slice_set (leaf_at self.old.blocks seat.block) seat.leaf
            (leaf_at (leaf_at self.old.blocks seat.block) seat.leaf ++ other.old)) }
        ensures kept { self.new.kept ≡ self.old.kept }
        ensures rest { other.new ≡ [] }
    {
        self.ends.raise(seat.block, other.len());
        self.blocks[seat.block].append(seat.leaf, other);
    }

    /// Splits a full block into halves.
    pub fn halve(&mut self, block: usize)
        requires within { block < length self.old.blocks }
        requires full { length (leaf_at self.old.blocks block) ≡ 128 }
        requires kept { 0 < self.old.kept }
        requires small { length (joined (joined self.old.blocks)) < 2 ^ 63 }
        ensures blocks { self.new.blocks ≡ split_run 64 self.old.blocks block }
        ensures kept { self.new.kept + 1 ≡ self.old.kept }
    {
        let mut upper = take_kept(&mut self.kept);
        halve(&mut self.blocks[block], &mut upper);
        self.ends.split(block, self.blocks[block].count());
        put_head(&mut self.heads, block + 1, upper.head(0));
        put_block(&mut self.blocks, block + 1, upper);
    }

    /// Moves the leaves of the block behind this one into it, and gives that one back.
    pub fn absorb(&mut self, block: usize)
        requires within { block + 1 < length self.old.blocks }
        requires room { length (leaf_at self.old.blocks block) + length (leaf_at self.old.blocks
            (block + 1)) ≤ 128 }
        requires small { length (joined (joined self.old.blocks)) < 2 ^ 63 }
        ensures blocks { self.new.blocks ≡ join_leaf self.old.blocks block }
        ensures kept { self.new.kept ≡ self.old.kept + 1 }
    {
        let mut other = self.blocks.remove(block + 1);
        let size = other.count();
        self.ends.lower(block + 1, size);
        self.ends.remove(block + 1);
        self.ends.raise(block, size);
        absorb(&mut self.blocks[block], &mut other);
        cut_head(&mut self.heads, block + 1);
        keep_block(&mut self.kept, other);
    }

    /// Gives an empty block back.
    pub fn leave_out(&mut self, block: usize)
        requires within { block < length self.old.blocks }
        requires empty { leaf_at self.old.blocks block ≡ [] }
        ensures blocks { self.new.blocks ≡ remove self.old.blocks block }
        ensures kept { self.new.kept ≡ self.old.kept + 1 }
    {
        let empty = self.blocks.remove(block);
        self.ends.remove(block);
        cut_head(&mut self.heads, block);
        keep_block(&mut self.kept, empty);
    }

    /// The number in place of the first key of this leaf is this one.
    pub fn set_head(&mut self, seat: Seat, head: i64)
        ensures { self.new ≡ self.old }
    {
        if seat.block < self.blocks.len() {
            self.blocks[seat.block].set_head(seat.leaf, head);
        }
        if seat.leaf == 0 {
            set_head(&mut self.heads, seat.block, head);
        }
    }

    /// The leaves between which a key of this number may be.
    pub fn guess(&self, number: i64) -> Option<Guess>
        ensures first { IfSome result (λ g. IsSpot self.now.blocks g.first.block g.first.leaf) }
        ensures last { IfSome result (λ g. IsSpot self.now.blocks g.last.block g.last.leaf) }
    {
        let last = self.last_seat(number)?;
        if self.blocks[last.block].head(last.leaf) < number {
            return Some(Guess { first: last, last });
        }
        let first = self.first_seat(number)?;
        Some(Guess { first, last })
    }

    /// The last leaf that may have a key of this number.
    fn last_seat(&self, number: i64) -> Option<Seat>
        ensures { IfSome result (λ seat. IsSpot self.now.blocks seat.block seat.leaf) }
    {
        let block = last_up_to(self.heads.as_slice(), number);
        if block >= self.blocks.len() {
            return None;
        }
        let leaf = self.blocks[block].last_leaf(number);
        self.seat_there(block, leaf)
    }

    /// The first leaf that may have a key of this number.
    fn first_seat(&self, number: i64) -> Option<Seat>
        ensures { IfSome result (λ seat. IsSpot self.now.blocks seat.block seat.leaf) }
    {
        let block = last_below(self.heads.as_slice(), number);
        if block >= self.blocks.len() {
            return None;
        }
        let leaf = self.blocks[block].first_leaf(number);
        self.seat_there(block, leaf)
    }

    /// The leaf of this block, if there is one.
    fn seat_there(&self, block: usize, leaf: usize) -> Option<Seat>
        requires { block < length self.now.blocks }
        ensures { IfSome result (λ seat. IsSpot self.now.blocks seat.block seat.leaf) }
    {
        if leaf < self.blocks[block].len() {
            Some(Seat {
                block,
                leaf,
                offset: 0,
            })
        } else {
            None
        }
    }
}

impl<K: Drop, V: Drop> Shelf<(K, V)> {
    /// Puts another value into the pair at this seat.
    pub fn replace(&mut self, seat: Seat, value: V) -> V
        requires spot { IsSpot self.old.blocks seat.block seat.leaf }
        requires offset { seat.offset < length (leaf_at (leaf_at self.old.blocks seat.block) seat.leaf) }
        ensures given { value_there (leaf_at (leaf_at self.old.blocks seat.block) seat.leaf) seat.offset
            ≡ Some result }
        ensures blocks { self.new.blocks ≡ slice_set self.old.blocks seat.block
            (slice_set (leaf_at self.old.blocks seat.block) seat.leaf
            (with_value (leaf_at (leaf_at self.old.blocks seat.block) seat.leaf) seat.offset value)) }
        ensures kept { self.new.kept ≡ self.old.kept }
    {
        self.blocks[seat.block].replace(seat.leaf, seat.offset, value)
    }
}

/// Puts a block in.
fn put_block<T: Drop>(blocks: &mut Vec<Block<T>>, at: usize, block: Block<T>)
    requires within { at ≤ length blocks.old.items }
    requires room { length blocks.old.items < vec_capacity blocks.old }
    ensures items { blocks.new.items ≡ insert blocks.old.items at block }
    ensures capacity { vec_capacity blocks.old ≤ vec_capacity blocks.new }
{
    match blocks.insert(at, block) {
        Ok(()) => {}
        Err(_) => unreachable!(),
    }
}

/// Keeps a block for later.
fn keep_block<T: Drop>(kept: &mut Vec<Block<T>>, block: Block<T>)
    requires { vec_len kept.old < vec_capacity kept.old }
    ensures len { vec_len kept.new ≡ vec_len kept.old + 1 }
    ensures capacity { vec_capacity kept.old ≤ vec_capacity kept.new }
{
    match kept.push(block) {
        Ok(()) => {}
        Err(_) => unreachable!(),
    }
}

/// Makes new blocks until there are this many.
fn fill_blocks<T: Drop>(
    kept: &mut Vec<Block<T>>,
    count: usize,
    alloc: Global,
) -> Result<(), NoMemory>
    requires few { vec_len kept.old ≤ count }
    requires room { count ≤ vec_capacity kept.old }
    ensures kept { vec_len kept.old ≤ vec_len kept.new }
    ensures most { vec_len kept.new ≤ count }
    ensures filled { OnOk result (count ≤ vec_len kept.new) }
    ensures capacity { vec_capacity kept.old ≤ vec_capacity kept.new }
{
    while kept.len() < count {
        let block = Block::new(alloc)?;
        keep_block(kept, block);
    }
    Ok(())
}

/// Takes a free block, which is empty.
fn take_kept<T: Drop>(kept: &mut Vec<Block<T>>) -> Block<T>
    requires { 0 < vec_len kept.old }
    ensures empty { result ≡ [] }
    ensures len { vec_len kept.new + 1 ≡ vec_len kept.old }
    ensures capacity { vec_capacity kept.new ≡ vec_capacity kept.old }
{
    match kept.pop() {
        Some(block) => emptied(block),
        None => unreachable!(),
    }
}

/// A block without its leaves.
fn emptied<T: Drop>(mut block: Block<T>) -> Block<T>
    ensures { result ≡ [] }
{
    while block.len() > 0 {
        drop(block.pull(0));
    }
    block
}
