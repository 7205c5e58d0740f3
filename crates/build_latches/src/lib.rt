// Constructors of latches, added to a graph that is lent. They look only at counts and edges, and don't scan rows.
#![tactic(auto)]

ghost use Rattle.std.specs.Prelude.{◌≡◌};
ghost use Rattle.build_leaves.specs.Calls.{added_seen};
ghost use Rattle.build_latches.specs.Latches.{new_latch_call, add_latch_call};

use build_leaves::Added;
use build_leaves::calls::{entry_answer, free_row};
use edge::Refusal;
use gates::add_row;
use graph::Counts;
use graph::latch::{LATCH_WORDS, latch_of, write_latch};
use graph::leaves::latch_edges;
use rows::kinds::NONE;

// A new leaf that is a latch's input. Its own row is not used yet, so next and init go to rows before it.
pub fn new_latch(
    rows: &mut [u32],
    latches: &mut [u32],
    counts: Counts,
    next: u32,
    init: u32,
) -> Result<Added, Refusal>
    ensures { added_seen counts result rows.new latches.new ≡ new_latch_call rows.old latches.old counts next init }
{
    let used = counts.rows;
    let good = latch_edges(used, latch_of(0, next, init));
    let free = free_row(rows, used);
    let n = counts.latches;
    entry_answer(rows, used, n, latches.len() / LATCH_WORDS, good, free)?;
    let input = used as u32;
    add_row(rows, used, NONE, 0);
    write_latch(latches, n, latch_of(input, next, init));
    Ok(Added {
        counts: Counts {
            rows: used + 1,
            latches: n + 1,
            ..counts
        },
        id: input,
    })
}

// A used row, listed as a latch's input. It is not looked at.
pub fn add_latch(
    rows: &[u32],
    latches: &mut [u32],
    counts: Counts,
    input: u32,
    next: u32,
    init: u32,
) -> Result<Added, Refusal>
    ensures { added_seen counts result rows.now latches.new ≡ add_latch_call rows.now latches.old counts input next init }
{
    let used = counts.rows;
    let l = latch_of(input, next, init);
    let good = ((input as usize) < used) & latch_edges(used, l);
    let n = counts.latches;
    entry_answer(rows, used, n, latches.len() / LATCH_WORDS, good, true)?;
    write_latch(latches, n, l);
    Ok(Added {
        counts: Counts {
            latches: n + 1,
            ..counts
        },
        id: input,
    })
}
