// The latch table, flat: three words a latch.
ghost use Rattle.std.specs.Prelude.{◌≡◌, ◌+◌, ◌*◌, ◌≤◌, length};
ghost use Rattle.graph.specs.Latches.{latch_words, latch, with_edges, with_next, without_init, latch_at, latch_set};

use rows::kinds::NONE;

#[derive(Clone, Copy)]
pub struct Latch {
    // A leaf's id.
    pub input: u32,
    // An edge.
    pub next: u32,
    // An edge, or none: a word, as document 01 lends it.
    pub init: u32,
}

// How many words a latch has.
pub const LATCH_WORDS: usize = 3;

// A new latch.
pub fn latch_of(input: u32, next: u32, init: u32) -> Latch
    ensures { result ≡ latch input next init }
{
    Latch { input, next, init }
}

// The latch with another input and other edges. Not `latch_of`: whatever else a latch may come to hold stays.
pub fn with_edges(l: Latch, input: u32, next: u32, init: u32) -> Latch
    ensures { result ≡ with_edges l input next init }
{
    Latch { input, next, init }
}

pub fn with_next(l: Latch, next: u32) -> Latch
    ensures { result ≡ with_next l next }
{
    with_edges(l, l.input, next, l.init)
}

pub fn without_init(l: Latch) -> Latch
    ensures { result ≡ without_init l }
{
    with_edges(l, l.input, l.next, NONE)
}

pub fn latch_at(latches: &[u32], i: usize) -> Latch
    requires { latch_words * (i + 1) ≤ length latches.now }
    ensures { result ≡ latch_at latches.now i }
{
    let at = LATCH_WORDS * i;
    Latch {
        input: latches[at],
        next: latches[at + 1],
        init: latches[at + 2],
    }
}

// Writes latch i.
pub fn write_latch(latches: &mut [u32], i: usize, l: Latch)
    requires { latch_words * (i + 1) ≤ length latches.old }
    ensures { latches.new ≡ latch_set latches.old i l }
{
    let at = LATCH_WORDS * i;
    latches[at] = l.input;
    latches[at + 1] = l.next;
    latches[at + 2] = l.init;
}
