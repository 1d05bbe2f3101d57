// Leaves in use and free leaves, counted; what is done to one leaf or to two neighbours.
ghost use Rattle.std.specs.Prelude.{◌≡◌, ℕ, ◌+◌, ◌-◌, ◌*◌, ◌/◌, ◌^◌, ◌<◌, ◌≤◌, [], ◌∷◌, ◌++◌, length, slice_get, slice_set, insert, remove, Some, OnOk, IsOk, IfSome, IfNone, IsTrue, ◌⊎◌, vec_len, vec_capacity};
ghost use Rattle.sorted_table.specs.Tables.{value_there, with_value};
ghost use Rattle.leaf_blocks.specs.Leaves.{joined, before, leaf_at, rank, excesses, split_run, join_leaf, AreBlocks, IsSpot};
ghost use Rattle.leaf_piles.specs.Piles.{IsShorter};

use crate::shelf::{Guess, Seat, Shelf};
use idb_base::NoMemory;
use leaf_blocks::{HALF, HALF_WIDTH, Leaf, WIDTH};
use std::alloc::Global;
use std::marker::Model;
use std::sync::atomic::{AtomicUsize, Ordering};

/// How many leaves there may be.
const MOST_LEAVES: usize = 1 << 40;

/// Leaves in use, in order, and free ones. The leaf that was sought last is kept as a number that promises nothing: whoever reads it
/// looks at the leaf.
#[derive(Drop)]
pub struct Pile<T> {
    shelf: Shelf<T>,
    free: Vec<Leaf<T>>,
    leaves: usize,
    excess: usize,
    sought: AtomicUsize,
    alloc: Global,
}

impl<T> Model for Pile<T> {
    ghost use Rattle.std.specs.Prelude.{vec_len, vec_capacity};
    ghost use Rattle.leaf_piles.specs.Piles.{Pile as Leaves, IsPile};

    ghost Value = { Leaves T };

    ghost view = { λ a. record { blocks = a.shelf.blocks; free = vec_len a.free } };

    ghost invariant = { λ a. IsPile a.shelf (vec_len a.free) a.leaves a.excess (vec_capacity a.free) };
}

impl<T: Drop> Pile<T> {
    /// No leaf; it takes no memory.
    pub fn new(alloc: Global) -> Pile<T>
        ensures blocks { result.blocks ≡ [] }
        ensures free { result.free ≡ 0 }
    {
        Pile {
            shelf: Shelf::new(alloc),
            free: Vec::new(alloc),
            leaves: 0,
            excess: 0,
            sought: AtomicUsize::new(0),
            alloc,
        }
    }

    /// How many leaves are in use.
    pub fn len(&self) -> usize
        ensures value { result ≡ length (joined self.now.blocks) }
        ensures most { result ≤ 2 ^ 40 }
    {
        self.leaves
    }

    /// How many leaves are free.
    pub fn free(&self) -> usize
        ensures value { result ≡ self.now.free }
        ensures most { result ≤ 2 ^ 40 }
    {
        self.free.len()
    }

    /// How many items there are.
    pub fn count(&self) -> usize
        ensures { result ≡ length (joined (joined self.now.blocks)) }
    {
        self.shelf.count()
    }

    /// How many items the leaves have above 32 each.
    pub fn excess(&self) -> usize
        ensures { result ≡ excesses (joined self.now.blocks) }
    {
        self.excess
    }

    /// The seat of a place.
    pub fn seat(&self, place: usize) -> Seat
        requires some { 0 < length (joined self.now.blocks) }
        requires within { place ≤ length (joined (joined self.now.blocks)) }
        ensures spot { IsSpot self.now.blocks result.block result.leaf }
        ensures place { place ≡ before (joined self.now.blocks)
            (rank self.now.blocks result.block result.leaf) + result.offset }
        ensures offset { result.offset
            ≤ length (leaf_at (joined self.now.blocks) (rank self.now.blocks result.block result.leaf)) }
        ensures inner { place < length (joined (joined self.now.blocks)) → result.offset
            < length (leaf_at (joined self.now.blocks) (rank self.now.blocks result.block result.leaf)) }
        ensures few { length (joined self.now.blocks) ≤ 2 ^ 40 }
    {
        let sought = self.sought.load(Ordering::SeqCst);
        match self
            .shelf
            .seat_within(sought / WIDTH, sought % WIDTH, place)
        {
            Some(seat) => seat,
            None => {
                let seat = self.shelf.seat(place);
                keep_sought(&self.sought, seat);
                seat
            }
        }
    }

    /// How many items stand before this leaf.
    pub fn start(&self, seat: Seat) -> usize
        requires { IsSpot self.now.blocks seat.block seat.leaf }
        ensures { result ≡ before (joined self.now.blocks) (rank self.now.blocks seat.block seat.leaf) }
    {
        self.shelf.start(seat)
    }

    /// How many items this leaf has.
    pub fn size(&self, seat: Seat) -> usize
        requires { IsSpot self.now.blocks seat.block seat.leaf }
        ensures value { result
            ≡ length (leaf_at (joined self.now.blocks) (rank self.now.blocks seat.block seat.leaf)) }
        ensures most { result ≤ 64 }
    {
        self.shelf.size(seat)
    }

    /// The items of this leaf.
    pub fn leaf(&self, seat: Seat) -> &[T]
        requires { IsSpot self.now.blocks seat.block seat.leaf }
        ensures items { result.now
            ≡ leaf_at (joined self.now.blocks) (rank self.now.blocks seat.block seat.leaf) }
        ensures few { length (joined self.now.blocks) ≤ 2 ^ 40 }
    {
        self.shelf.leaf(seat)
    }

    /// The leaf behind this one, if there is one.
    pub fn behind(&self, seat: Seat) -> Option<Seat>
        requires { IsSpot self.now.blocks seat.block seat.leaf }
        ensures spot { IfSome result (λ next. IsSpot self.now.blocks next.block next.leaf) }
        ensures next { IfSome result (λ next. rank self.now.blocks next.block next.leaf
            ≡ rank self.now.blocks seat.block seat.leaf + 1) }
        ensures none { IfNone result
            (rank self.now.blocks seat.block seat.leaf + 1 ≡ length (joined self.now.blocks)) }
    {
        if seat.leaf < self.shelf.width(seat.block) - 1 {
            return Some(seat_of(seat.block, seat.leaf + 1));
        }
        if seat.block < self.shelf.len() - 1 {
            return Some(seat_of(seat.block + 1, 0));
        }
        None
    }

    /// The leaf before this one, if there is one.
    pub fn ahead(&self, seat: Seat) -> Option<Seat>
        requires { IsSpot self.now.blocks seat.block seat.leaf }
        ensures spot { IfSome result (λ prior. IsSpot self.now.blocks prior.block prior.leaf) }
        ensures prior { IfSome result (λ prior. rank self.now.blocks prior.block prior.leaf + 1
            ≡ rank self.now.blocks seat.block seat.leaf) }
        ensures none { IfNone result (rank self.now.blocks seat.block seat.leaf ≡ 0) }
    {
        if seat.leaf > 0 {
            return Some(seat_of(seat.block, seat.leaf - 1));
        }
        if seat.block > 0 {
            let block = seat.block - 1;
            return Some(seat_of(block, self.shelf.width(block) - 1));
        }
        None
    }

    /// Sees that this many leaves are free.
    pub fn reserve(&mut self, free: usize) -> Result<(), NoMemory>
        ensures blocks { self.new.blocks ≡ self.old.blocks }
        ensures kept { self.old.free ≤ self.new.free }
        ensures room { OnOk result (free ≤ self.new.free) }
        ensures enough { free ≤ self.old.free → IsOk result }
    {
        if free <= self.free.len() {
            return Ok(());
        }
        if free > MOST_LEAVES - self.leaves {
            return Err(NoMemory);
        }
        let all = self.leaves + free;
        self.shelf
            .reserve(self.alloc, 2 * all.div_ceil(HALF_WIDTH))?;
        self.free.reserve(all)?;
        fill(&mut self.free, free, self.alloc)
    }

    /// The first leaf, with one item.
    pub fn begin(&mut self, item: T)
        requires empty { joined self.old.blocks ≡ [] }
        requires free { 0 < self.old.free }
        ensures leaves { joined self.new.blocks ≡ (item ∷ []) ∷ [] }
        ensures free { self.new.free + 1 ≡ self.old.free }
    {
        let mut leaf = take_free(&mut self.free);
        leaf.insert(0, item);
        self.shelf.begin(leaf);
        self.leaves += 1;
    }

    /// The seat of this leaf once its block has room for one more.
    pub fn make_room(&mut self, seat: Seat) -> Seat
        requires spot { IsSpot self.old.blocks seat.block seat.leaf }
        requires small { length (joined (joined self.old.blocks)) < 2 ^ 63 }
        ensures leaves { joined self.new.blocks ≡ joined self.old.blocks }
        ensures free { self.new.free ≡ self.old.free }
        ensures spot { IsSpot self.new.blocks result.block result.leaf }
        ensures same { rank self.new.blocks result.block result.leaf
            ≡ rank self.old.blocks seat.block seat.leaf }
        ensures offset { result.offset ≡ seat.offset }
        ensures room { length (leaf_at self.new.blocks result.block) < 128 }
    {
        if self.shelf.width(seat.block) < WIDTH {
            return seat;
        }
        self.shelf.halve(seat.block);
        seat_in_half(seat)
    }

    /// Splits a full leaf into halves.
    pub fn split(&mut self, seat: Seat)
        requires spot { IsSpot self.old.blocks seat.block seat.leaf }
        requires full { length (leaf_at (joined self.old.blocks)
            (rank self.old.blocks seat.block seat.leaf)) ≡ 64 }
        requires room { length (leaf_at self.old.blocks seat.block) < 128 }
        requires free { 0 < self.old.free }
        ensures leaves { joined self.new.blocks
            ≡ split_run 32 (joined self.old.blocks) (rank self.old.blocks seat.block seat.leaf) }
        ensures lower { IsSpot self.new.blocks seat.block seat.leaf }
        ensures upper { IsSpot self.new.blocks seat.block (seat.leaf + 1) }
        ensures same { before self.new.blocks seat.block ≡ before self.old.blocks seat.block }
        ensures free { self.new.free + 1 ≡ self.old.free }
    {
        let upper = take_free(&mut self.free);
        self.shelf.split(seat, upper);
        self.leaves += 1;
        self.excess -= HALF;
    }

    /// Puts an item into a leaf, before the one at this offset.
    pub fn put(&mut self, seat: Seat, item: T)
        requires spot { IsSpot self.old.blocks seat.block seat.leaf }
        requires offset { seat.offset
            ≤ length (leaf_at (joined self.old.blocks) (rank self.old.blocks seat.block seat.leaf)) }
        requires room { length (leaf_at (joined self.old.blocks)
            (rank self.old.blocks seat.block seat.leaf)) < 64 }
        requires small { length (joined (joined self.old.blocks)) < 2 ^ 63 }
        ensures leaves { joined self.new.blocks ≡ slice_set (joined self.old.blocks)
            (rank self.old.blocks seat.block seat.leaf)
            (insert (leaf_at (joined self.old.blocks) (rank self.old.blocks seat.block seat.leaf)) seat.offset item) }
        ensures spot { IsSpot self.new.blocks seat.block seat.leaf }
        ensures free { self.new.free ≡ self.old.free }
    {
        self.excess = one_more(self.excess, self.shelf.size(seat));
        self.shelf.put(seat, item);
    }

    /// Takes an item out of a leaf, which may then be empty.
    pub fn take(&mut self, seat: Seat) -> T
        requires spot { IsSpot self.old.blocks seat.block seat.leaf }
        requires offset { seat.offset
            < length (leaf_at (joined self.old.blocks) (rank self.old.blocks seat.block seat.leaf)) }
        ensures taken { slice_get (leaf_at (joined self.old.blocks)
            (rank self.old.blocks seat.block seat.leaf))
            seat.offset ≡ Some result }
        ensures leaves { joined self.new.blocks ≡ slice_set (joined self.old.blocks)
            (rank self.old.blocks seat.block seat.leaf)
            (remove (leaf_at (joined self.old.blocks) (rank self.old.blocks seat.block seat.leaf)) seat.offset) }
        ensures spot { IsSpot self.new.blocks seat.block seat.leaf }
        ensures same { before self.new.blocks seat.block ≡ before self.old.blocks seat.block }
        ensures free { self.new.free ≡ self.old.free }
    {
        self.excess = one_less(self.excess, self.shelf.size(seat));
        self.shelf.take(seat)
    }

    /// Joins a leaf and the one behind it, which have at most 32 items together, and gives a leaf back.
    pub fn join(&mut self, seat: Seat, next: Seat)
        requires spot { IsSpot self.old.blocks seat.block seat.leaf }
        requires behind { IsSpot self.old.blocks next.block next.leaf }
        requires next { rank self.old.blocks next.block next.leaf
            ≡ rank self.old.blocks seat.block seat.leaf + 1 }
        requires few { length (leaf_at (joined self.old.blocks) (rank self.old.blocks seat.block seat.leaf))
            + length (leaf_at (joined self.old.blocks) (rank self.old.blocks seat.block seat.leaf + 1)) ≤ 32 }
        requires small { length (joined (joined self.old.blocks)) < 2 ^ 63 }
        ensures leaves { joined self.new.blocks
            ≡ join_leaf (joined self.old.blocks) (rank self.old.blocks seat.block seat.leaf) }
        ensures free { self.new.free ≡ self.old.free + 1 }
    {
        let mut upper = self.shelf.pull(next);
        self.shelf.append(seat, &mut upper);
        keep(&mut self.free, upper);
        self.leaves -= 1;
        settle(&mut self.shelf, next.block);
    }

    /// Gives an empty leaf back.
    pub fn leave_out(&mut self, seat: Seat)
        requires spot { IsSpot self.old.blocks seat.block seat.leaf }
        requires empty { leaf_at (joined self.old.blocks) (rank self.old.blocks seat.block seat.leaf) ≡ [] }
        requires small { length (joined (joined self.old.blocks)) < 2 ^ 63 }
        ensures leaves { joined self.new.blocks
            ≡ remove (joined self.old.blocks) (rank self.old.blocks seat.block seat.leaf) }
        ensures free { self.new.free ≡ self.old.free + 1 }
    {
        let empty = self.shelf.pull(seat);
        keep(&mut self.free, empty);
        self.leaves -= 1;
        settle(&mut self.shelf, seat.block);
    }

    /// The number in place of the first key of this leaf is this one.
    pub fn set_head(&mut self, seat: Seat, head: i64)
        ensures { self.new ≡ self.old }
    {
        self.shelf.set_head(seat, head);
    }

    /// The leaves between which a key of this number may be.
    pub fn guess(&self, number: i64) -> Option<Guess>
        ensures first { IfSome result (λ g. IsSpot self.now.blocks g.first.block g.first.leaf) }
        ensures last { IfSome result (λ g. IsSpot self.now.blocks g.last.block g.last.leaf) }
    {
        let guess = self.shelf.guess(number)?;
        keep_sought(&self.sought, guess.first);
        Some(guess)
    }
}

impl<K: Drop, V: Drop> Pile<(K, V)> {
    /// Puts another value into the pair at this seat.
    pub fn replace(&mut self, seat: Seat, value: V) -> V
        requires spot { IsSpot self.old.blocks seat.block seat.leaf }
        requires offset { seat.offset
            < length (leaf_at (joined self.old.blocks) (rank self.old.blocks seat.block seat.leaf)) }
        ensures given { value_there (leaf_at (joined self.old.blocks)
            (rank self.old.blocks seat.block seat.leaf))
            seat.offset ≡ Some result }
        ensures leaves { joined self.new.blocks ≡ slice_set (joined self.old.blocks)
            (rank self.old.blocks seat.block seat.leaf)
            (with_value (leaf_at (joined self.old.blocks) (rank self.old.blocks seat.block seat.leaf)) seat.offset value) }
        ensures free { self.new.free ≡ self.old.free }
    {
        self.shelf.replace(seat, value)
    }
}

/// Keeps the leaf of this seat as the one that was sought last.
fn keep_sought(sought: &AtomicUsize, seat: Seat) {
    let number = seat.block.wrapping_mul(WIDTH).wrapping_add(seat.leaf);
    if sought.load(Ordering::SeqCst) != number {
        sought.store(number, Ordering::SeqCst);
    }
}

/// The first item of a leaf.
fn seat_of(block: usize, leaf: usize) -> Seat
    ensures block { result.block ≡ block }
    ensures leaf { result.leaf ≡ leaf }
{
    Seat {
        block,
        leaf,
        offset: 0,
    }
}

/// Where a leaf of a full block is once the block is split.
fn seat_in_half(seat: Seat) -> Seat
    requires { seat.block < 2 ^ 63 }
    ensures half { ((seat.leaf < 64) × (result.block ≡ seat.block) × (result.leaf ≡ seat.leaf))
        ⊎ ((64 ≤ seat.leaf) × (result.block ≡ seat.block + 1) × (result.leaf + 64 ≡ seat.leaf)) }
    ensures offset { result.offset ≡ seat.offset }
{
    if seat.leaf < HALF_WIDTH {
        seat
    } else {
        Seat {
            block: seat.block + 1,
            leaf: seat.leaf - HALF_WIDTH,
            offset: seat.offset,
        }
    }
}

/// Sees that a block which has lost a leaf is neither empty nor too small.
fn settle<T: Drop>(shelf: &mut Shelf<T>, block: usize)
    requires shorter { IsShorter shelf.old.blocks block }
    requires small { length (joined (joined shelf.old.blocks)) < 2 ^ 63 }
    ensures leaves { joined shelf.new.blocks ≡ joined shelf.old.blocks }
    ensures filled { AreBlocks shelf.new.blocks }
    ensures kept { length shelf.new.blocks + shelf.new.kept ≡ length shelf.old.blocks + shelf.old.kept }
{
    if shelf.width(block) == 0 {
        shelf.leave_out(block);
    } else if has_few_behind(shelf, block) {
        shelf.absorb(block);
    } else if has_few_before(shelf, block) {
        shelf.absorb(block - 1);
    }
}

/// Whether this block and the one behind it have at most 64 leaves together.
fn has_few_behind<T: Drop>(shelf: &Shelf<T>, block: usize) -> bool
    requires { block < length shelf.now.blocks }
    ensures yes { IsTrue result → (block + 1 < length shelf.now.blocks)
        × (length (leaf_at shelf.now.blocks block) + length (leaf_at shelf.now.blocks (block + 1)) ≤ 64) }
    ensures no { ¬ (IsTrue result) → block + 1 < length shelf.now.blocks
        → 64 < length (leaf_at shelf.now.blocks block) + length (leaf_at shelf.now.blocks (block + 1)) }
{
    block < shelf.len() - 1 && shelf.width(block) + shelf.width(block + 1) <= HALF_WIDTH
}

/// Whether this block and the one before it have at most 64 leaves together.
fn has_few_before<T: Drop>(shelf: &Shelf<T>, block: usize) -> bool
    requires { block < length shelf.now.blocks }
    ensures yes { IsTrue result → (0 < block)
        × (length (leaf_at shelf.now.blocks (block - 1)) + length (leaf_at shelf.now.blocks block) ≤ 64) }
    ensures no { ¬ (IsTrue result) → 0 < block
        → 64 < length (leaf_at shelf.now.blocks (block - 1)) + length (leaf_at shelf.now.blocks block) }
{
    block > 0 && shelf.width(block - 1) + shelf.width(block) <= HALF_WIDTH
}

/// The excess where a leaf of this size gets one item more.
fn one_more(excess: usize, size: usize) -> usize
    requires { excess < 2 ^ 63 }
    ensures { result + (size - 32) ≡ excess + (size + 1 - 32) }
{
    if size < HALF { excess } else { excess + 1 }
}

/// The excess where a leaf of this size loses an item.
fn one_less(excess: usize, size: usize) -> usize
    requires part { size - 32 ≤ excess }
    requires some { 0 < size }
    ensures { result + (size - 32) ≡ excess + (size - 1 - 32) }
{
    if size > HALF { excess - 1 } else { excess }
}
/// Keeps a leaf for later.
fn keep<T: Drop>(free: &mut Vec<Leaf<T>>, leaf: Leaf<T>)
    requires { vec_len free.old < vec_capacity free.old }
    ensures len { vec_len free.new ≡ vec_len free.old + 1 }
    ensures capacity { vec_capacity free.old ≤ vec_capacity free.new }
{
    match free.push(leaf) {
        Ok(()) => {}
        Err(_) => unreachable!(),
    }
}

/// Makes new leaves until there are this many.
fn fill<T: Drop>(free: &mut Vec<Leaf<T>>, count: usize, alloc: Global) -> Result<(), NoMemory>
    requires few { vec_len free.old ≤ count }
    requires room { count ≤ vec_capacity free.old }
    ensures kept { vec_len free.old ≤ vec_len free.new }
    ensures most { vec_len free.new ≤ count }
    ensures filled { OnOk result (count ≤ vec_len free.new) }
    ensures capacity { vec_capacity free.old ≤ vec_capacity free.new }
{
    while free.len() < count {
        let leaf = Leaf::new(alloc)?;
        keep(free, leaf);
    }
    Ok(())
}

/// Takes a free leaf, which is empty.
fn take_free<T: Drop>(free: &mut Vec<Leaf<T>>) -> Leaf<T>
    requires { 0 < vec_len free.old }
    ensures empty { result ≡ [] }
    ensures len { vec_len free.new + 1 ≡ vec_len free.old }
    ensures capacity { vec_capacity free.new ≡ vec_capacity free.old }
{
    match free.pop() {
        Some(leaf) => cleared(leaf),
        None => unreachable!(),
    }
}

/// A leaf without its items.
fn cleared<T: Drop>(mut leaf: Leaf<T>) -> Leaf<T>
    ensures { result ≡ [] }
{
    leaf.clear();
    leaf
}
