//! A queue of the entries that wait, first in, first out.
//!
//! At first all of them wait, in rising order; later they are put at the back one by one. Those that are put are threaded through a
//! table that the caller lends, with one 32-bit place for each. So each call but `clear` costs a few reads and writes, a start writes
//! nothing, and nothing is allocated.
//!
//! No `VecDeque` or `Box`: no heap is allowed here, and the places are the caller's. The table comes with each call and is no field, so that
//! a queue is `Copy` and the caller can use the table between calls.

ghost use Rattle.std.specs.Prelude.{◌≡◌, ℕ, ◌<◌, ◌≤◌, ◌^◌, ◌↔◌, IsSome, IfSome, not, List, [], ◌∷◌, ◌++◌, length, is_some, if◌then◌else◌, IsTrue, MatchBool, slice_index};
ghost use Rattle.queues.specs.Calls.{StaysWithin, written, rising_queue, front, head_of, table_unthreaded, queue_unthreaded, table_taken, queue_taken, free, table_threaded, queue_threaded, wiped, emptied};
ghost use Rattle.queues.specs.Places.{code_of};
ghost use Rattle.queues.specs.Threads.{In, Threads, first, rest};
ghost use Rattle.std.specs.List.{range_with_len};

use crate::place::Place;

/// A queue is for at most this many entries, numbered from 0: one at or past it is never put.
pub const MOST: usize = 131_072;

/// The oldest and the newest entry of the threaded ones.
#[derive(Clone, Copy)]
struct Ends {
    head: usize,
    tail: usize,
}

/// First wait the entries `fresh .. size`, which were not taken yet, in rising order. After them wait the threaded ones, if any.
#[derive(Clone, Copy)]
pub struct Queue {
    fresh: usize,
    size: usize,
    ends: Option<Ends>,
}

/// Makes the first `size` places of the table idle.
fn wipe(waiting: &mut [u32], size: usize)
    ensures { waiting.new ≡ wiped size waiting.old }
{
    let end = size.min(waiting.len());
    waiting[..end].fill(Place::Idle.code());
}

impl Queue {
    /// A queue in which the entries below `size` wait in rising order. It suits a table that is 0 at each of them.
    pub fn rising(size: usize) -> Queue
        ensures value { result ≡ rising_queue size }
        ensures lists { (w : List ℕ) → size ≤ length w → size ≤ MOST → ((k : ℕ) → k < size → slice_index w k ≡ 0) → Threads w result (range_with_len 0 size) }
    {
        Queue {
            fresh: 0,
            size,
            ends: None,
        }
    }

    /// Whether no entry waits.
    pub fn is_empty(&self) -> bool
        ensures value { result ≡ not (is_some (head_of self.now)) }
        ensures lists { (w l : List ℕ) → Threads w self.now l → IsTrue result ↔ (l ≡ []) }
    {
        self.head().is_none()
    }

    /// The entry that `take` gives next.
    ///
    /// Where something else wrote to the table, it can be any number, so the caller tests it.
    pub fn head(&self) -> Option<usize>
        ensures value { result ≡ head_of self.now }
        ensures lists { (w l : List ℕ) → Threads w self.now l → result ≡ first l }
    {
        if self.fresh < self.size {
            Some(self.fresh)
        } else {
            self.ends.map(|ends| ends.head)
        }
    }

    /// What the table says of an entry, if it is one of the queue's and has a place.
    fn place(&self, waiting: &[u32], entry: usize) -> Option<Place>
        ensures inside { IsSome result ↔ ((entry < self.now.size) × (entry < length waiting.now)) }
        ensures code { IfSome result (λ place. code_of place ≡ slice_index waiting.now entry) }
    {
        if entry >= self.size {
            return None;
        }
        waiting.get(entry).map(|code| Place::from(*code))
    }

    /// Writes an entry's place; outside the queue or the table it writes nothing.
    fn mark(&self, waiting: &mut [u32], entry: usize, place: Place)
        requires { code_of place < 2 ^ 32 }
        ensures { waiting.new ≡ written self.now.size waiting.old entry (code_of place) }
    {
        // No `get_mut`: of a slice that is written through it the library's contract says only the length, so the clause stays open.
        if entry < self.size && entry < waiting.len() {
            waiting[entry] = place.code();
        }
    }

    /// Whether an entry can be put: it is one of the queue's, has a place, and does not wait.
    fn is_free(&self, waiting: &[u32], entry: usize) -> bool
        ensures { result ≡ free self.now waiting.now entry }
    {
        entry < self.fresh
            && entry < MOST
            && matches!(self.place(waiting, entry), Some(Place::Idle))
    }

    /// Takes the first of the threaded entries, and makes its place idle.
    fn unthread(&mut self, waiting: &mut [u32]) -> Option<usize>
        ensures value { result ≡ front self.old.ends }
        ensures table { waiting.new ≡ table_unthreaded self.old waiting.old }
        ensures queue { self.new ≡ queue_unthreaded self.old waiting.old }
    {
        let Ends { head, tail } = self.ends?;
        self.ends = match self.place(waiting, head) {
            Some(Place::Before(next)) => Some(Ends { head: next, tail }),
            _ => None,
        };
        self.mark(waiting, head, Place::Idle);
        Some(head)
    }

    /// Threads an entry behind the others.
    ///
    /// Its place is written last, so that it says "last" even where the tail's place is the same.
    fn thread(&mut self, waiting: &mut [u32], entry: usize)
        requires { entry < MOST }
        ensures table { waiting.new ≡ table_threaded self.old waiting.old entry }
        ensures queue { self.new ≡ queue_threaded self.old entry }
    {
        let head = match self.ends {
            None => entry,
            Some(Ends { head, tail }) => {
                self.mark(waiting, tail, Place::Before(entry));
                head
            }
        };
        self.mark(waiting, entry, Place::Last);
        self.ends = Some(Ends { head, tail: entry });
    }

    /// Takes the entry that waits longest, if any does.
    ///
    /// One that was threaded has its place wiped; no other place changes. After it comes what its place says: where something else wrote
    /// there, that can lie outside the queue, and the queue is empty after it.
    pub fn take(&mut self, waiting: &mut [u32]) -> Option<usize>
        ensures value { result ≡ head_of self.old }
        ensures table { waiting.new ≡ table_taken self.old waiting.old }
        ensures queue { self.new ≡ queue_taken self.old waiting.old }
        ensures stays { StaysWithin self.old waiting.old self.new waiting.new }
        ensures lists { (l : List ℕ) → Threads waiting.old self.old l → (result ≡ first l) × Threads waiting.new self.new (rest l) }
    {
        if self.fresh < self.size {
            let entry = self.fresh;
            self.fresh += 1;
            return Some(entry);
        }
        self.unthread(waiting)
    }

    /// Puts an entry at the back, and answers whether it did: not where it waits already, or is none of the queue's or has no place.
    pub fn put(&mut self, waiting: &mut [u32], entry: usize) -> bool
        ensures value { result ≡ free self.old waiting.old entry }
        ensures table { waiting.new ≡ (if result then table_threaded self.old waiting.old entry else waiting.old) }
        ensures queue { self.new ≡ (if result then queue_threaded self.old entry else self.old) }
        ensures stays { StaysWithin self.old waiting.old self.new waiting.new }
        ensures lists { (l : List ℕ) → Threads waiting.old self.old l → entry < self.old.size → MatchBool result ((In entry l → ⊥) × Threads waiting.new self.new (l ++ entry ∷ [])) (In entry l × Threads waiting.new self.new l) }
    {
        if !self.is_free(waiting, entry) {
            return false;
        }
        self.thread(waiting, entry);
        true
    }

    /// Empties the queue, and wipes the places of all its entries, also of those that the ends do not lead to.
    pub fn clear(&mut self, waiting: &mut [u32])
        ensures below { (k : ℕ) → k < self.old.size → slice_index waiting.new k ≡ 0 }
        ensures stays { StaysWithin self.old waiting.old self.new waiting.new }
        ensures queue { self.new ≡ emptied self.old }
        ensures lists { self.old.size ≤ length waiting.old → self.old.size ≤ MOST → Threads waiting.new self.new [] }
    {
        wipe(waiting, self.size);
        self.fresh = self.size;
        self.ends = None;
    }
}
