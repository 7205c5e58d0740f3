// The latch table as records and as the flat words that every call on a whole graph takes. Where the words have no room for every record, none is copied.
// Memory is lent with room beyond the used entries, and a promise speaks of all that is lent: so how many are used stands beside a table.
ghost use Rattle.std.specs.Prelude.{◌≡◌};
ghost use Rattle.records.specs.Table.{laid_out, nexts_back, records_back, wiped};

use graph::latch::{LATCH_WORDS, Latch, latch_at, write_latch};
use graph::marks::clear;

// The records' words, in front of the others.
pub fn to_words(table: &[Latch], words: &mut [u32])
    ensures { words.new ≡ laid_out table.now words.old }
{
    if table.len() <= words.len() / LATCH_WORDS {
        for (i, latch) in table.iter().enumerate() {
            write_latch(words, i, *latch);
        }
    }
}

// The next of each latch, as the words have it. A loop of its own is plainer than one with a closure that says what is taken of a latch.
pub fn nexts_back(table: &mut [Latch], words: &[u32])
    ensures { table.new ≡ nexts_back table.old words.now }
{
    if table.len() <= words.len() / LATCH_WORDS {
        for (i, latch) in table.iter_mut().enumerate() {
            latch.next = latch_at(words, i).next;
        }
    }
}

// Every record, as the words have it.
pub fn records_back(table: &mut [Latch], words: &[u32])
    ensures { table.new ≡ records_back table.old words.now }
{
    if table.len() <= words.len() / LATCH_WORDS {
        for (i, latch) in table.iter_mut().enumerate() {
            *latch = latch_at(words, i);
        }
    }
}

// Work words that n records stood in are zero again.
pub fn wipe(words: &mut [u32], n: usize)
    ensures { words.new ≡ wiped n words.old }
{
    if n <= words.len() / LATCH_WORDS {
        clear(words, LATCH_WORDS * n);
    }
}
