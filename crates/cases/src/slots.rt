// The slices of a case, in one arena of words. A call reads slices there, and is lent copies of those that it writes to, which are put back after it: the arena cannot be lent for both.
use graph::{Counts, Graph};
use std::ops::Range;

// How many slots there are. Each has its number in oracle/FORMAT.md, and not all have a name.
const SLOTS: usize = 32;

// The graph.
pub const ROWS: usize = 0;

pub const INPUTS: usize = 1;

pub const LATCHES: usize = 2;

pub const CONSTRAINTS: usize = 3;

pub const BADS: usize = 4;

pub const OUTPUTS: usize = 5;

pub const ENDS: usize = 6;

pub const EDGES: usize = 7;

pub const FAIRNESS: usize = 8;

// A list of edges or ids, or a map.
pub const LIST: usize = 18;

pub const MARKS: usize = 19;

// A second slice of marks.
pub const STACK: usize = 20;

// An output of words: flags, clauses, new-to-old, old bads.
pub const WORDS: usize = 21;

// Bytes: inputs, state, values.
pub const INPUT_BYTES: usize = 22;

pub const STATE_BYTES: usize = 23;

pub const VALUE_BYTES: usize = 24;

// Where the words of a slot stand in the arena.
#[derive(Clone, Copy)]
struct Place {
    from: usize,
    end: usize,
}

#[derive(Drop)]
pub struct Slots<'a> {
    // The slots as they were given: of each its number, its length and its words.
    arena: &'a mut [u32],
    // How much of the arena they take: no slice of it, since a slot more needs the rest.
    used: usize,
    // Where each slot stands, if it was given.
    places: [Option<Place>; SLOTS],
}

// An element of a slice that is lent. The arena has a word for each.
pub trait Element: Copy {
    fn of(word: u32) -> Self;

    fn word(self) -> u32;
}

impl Element for u32 {
    fn of(word: u32) -> u32 {
        word
    }

    fn word(self) -> u32 {
        self
    }
}

// A byte, modulo 256.
impl Element for u8 {
    fn of(word: u32) -> u8 {
        (word % 256) as u8
    }

    fn word(self) -> u32 {
        self as u32
    }
}

impl<'a> Slots<'a> {
    pub fn new(arena: &'a mut [u32]) -> Slots<'a> {
        Slots {
            arena,
            used: 0,
            places: [None; SLOTS],
        }
    }

    // Gives up the slots of a case.
    pub fn clear(&mut self) {
        self.used = 0;
        self.places = [None; SLOTS];
    }

    // Begins a slot, and lends its words to be filled: none where there is no such slot, it was given before, or the arena is full.
    pub fn open(&mut self, slot: u32, len: u32) -> Option<&mut [u32]> {
        let from = self.used.checked_add(2)?;
        let end = from.checked_add(len as usize)?;
        let head = self.arena.get_mut(self.used..from)?;
        head.copy_from_slice(&[slot, len]);
        let place = self.places.get_mut(slot as usize)?;
        if place.replace(Place { from, end }).is_some() {
            return None;
        }
        self.used = end;
        self.arena.get_mut(from..end)
    }

    // The slots as they were given.
    pub fn given(&self) -> &[u32] {
        self.arena.get(..self.used).unwrap_or(&[])
    }

    // The words of a slot: none where it was not given.
    pub fn words(&self, slot: usize) -> &[u32] {
        self.arena.get(self.range(slot)).unwrap_or(&[])
    }

    fn words_mut(&mut self, slot: usize) -> &mut [u32] {
        let range = self.range(slot);
        self.arena.get_mut(range).unwrap_or(&mut [])
    }

    fn range(&self, slot: usize) -> Range<usize> {
        match self.places.get(slot) {
            Some(Some(place)) => place.from..place.end,
            _ => 0..0,
        }
    }

    // The graph of slots 0 to 8.
    pub fn graph(&self, counts: Counts) -> Graph<'_> {
        Graph {
            rows: self.words(ROWS),
            inputs: self.words(INPUTS),
            latches: self.words(LATCHES),
            constraints: self.words(CONSTRAINTS),
            bads: self.words(BADS),
            outputs: self.words(OUTPUTS),
            ends: self.words(ENDS),
            edges: self.words(EDGES),
            fairness: self.words(FAIRNESS),
            counts,
        }
    }

    // Copies a slot, for a call to write to: none where it is longer than the room.
    pub fn copied<'b, T: Element>(&self, slot: usize, room: &'b mut [T]) -> Option<&'b mut [T]> {
        let words = self.words(slot);
        let copy = room.get_mut(..words.len())?;
        for (to, word) in copy.iter_mut().zip(words) {
            *to = T::of(*word);
        }
        Some(copy)
    }

    // Puts a slot back as a call left it.
    pub fn put_back<T: Element>(&mut self, slot: usize, left: &[T]) {
        for (word, x) in self.words_mut(slot).iter_mut().zip(left) {
            *word = x.word();
        }
    }
}
