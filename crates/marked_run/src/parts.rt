// Reading the table: lists that stand one after the other, each with its length before it.
ghost use Rattle.std.specs.Prelude.{◌+◌, ◌^◌, ◌<◌, ◌≤◌, length};
ghost use Rattle.std.specs.Iterator.{at_most};

use graph::{Counts, Graph};
use std::cmp::min;

// The lists that are left. One that is not there whole is what there is of it.
#[derive(Clone, Copy)]
pub struct Lists<'a>(pub &'a [u32]);

impl<'a> Iterator for Lists<'a> {
    type Item = &'a [u32];

    ghost remaining = { λ s. at_most (length s.0.now) };

    fn next(&mut self) -> Option<&'a [u32]> {
        let (size, rest) = self.0.split_first()?;
        let n = min(wide(*size), rest.len());
        self.0 = &rest[n..];
        Some(&rest[..n])
    }
}

// List k.
pub fn list(words: &[u32], k: usize) -> &[u32] {
    Lists(words).nth(k).unwrap_or(&[])
}

// What stands from list k on.
pub fn tail(words: &[u32], k: usize) -> &[u32] {
    let mut lists = Lists(words);
    for _ in 0..k {
        lists.next();
    }
    lists.0
}

pub fn word(words: &[u32], i: usize) -> u32 {
    words.get(i).copied().unwrap_or(0)
}

pub fn size(words: &[u32], i: usize) -> usize
    ensures { result < 2 ^ 32 }
{
    wide(word(words, i))
}

// The nine counts that stand from word i on.
pub fn counts(words: &[u32], i: usize) -> Counts
    requires { i ≤ 9 }
{
    Counts {
        rows: size(words, i),
        inputs: size(words, i + 1),
        latches: size(words, i + 2),
        constraints: size(words, i + 3),
        bads: size(words, i + 4),
        outputs: size(words, i + 5),
        sets: size(words, i + 6),
        edges: size(words, i + 7),
        fairness: size(words, i + 8),
    }
}

// The graph whose nine lists stand from list k on.
pub fn graph(case: &[u32], k: usize, counts: Counts) -> Graph<'_>
    requires { k ≤ 11 }
{
    Graph {
        rows: list(case, k),
        inputs: list(case, k + 1),
        latches: list(case, k + 2),
        constraints: list(case, k + 3),
        bads: list(case, k + 4),
        outputs: list(case, k + 5),
        ends: list(case, k + 6),
        edges: list(case, k + 7),
        fairness: list(case, k + 8),
        counts,
    }
}

// A word as a number whose bound the check knows.
fn wide(word: u32) -> usize
    ensures { result < 2 ^ 32 }
{
    word as usize
}
