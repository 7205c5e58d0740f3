// Constructors that change the counts in place: each is the call by value, read from the record and written back to it.
ghost use Rattle.std.specs.Prelude.{◌≡◌, List, ℕ};
ghost use Rattle.build_leaves.specs.Calls.{added_seen};
ghost use Rattle.build_leaves.specs.Leaves.{new_input_call, add_input_call};
ghost use Rattle.build_latches.specs.Latches.{new_latch_call, add_latch_call};
ghost use Rattle.records.specs.Counts.{added};

use build_leaves::Added;
use edge::Refusal;
use graph::Counts;

// Writes the counts that a call by value came to back to the record, and answers the leaf's id.
fn written_back(counts: &mut Counts, answer: Result<Added, Refusal>) -> Result<u32, Refusal>
    ensures { (rows list : List ℕ) → added_seen counts.new (added result counts.new) rows list ≡ added_seen counts.old answer rows list }
{
    let added = answer?;
    *counts = added.counts;
    Ok(added.id)
}

// A new leaf that is an input.
pub fn new_input(rows: &mut [u32], inputs: &mut [u32], counts: &mut Counts) -> Result<u32, Refusal>
    ensures { added_seen counts.new (added result counts.new) rows.new inputs.new
        ≡ new_input_call rows.old inputs.old counts.old }
{
    let answer = build_leaves::new_input(rows, inputs, *counts);
    written_back(counts, answer)
}

// A used row, listed as an input. It is not looked at.
pub fn add_input(
    rows: &[u32],
    inputs: &mut [u32],
    counts: &mut Counts,
    input: u32,
) -> Result<u32, Refusal>
    ensures { added_seen counts.new (added result counts.new) rows.now inputs.new
        ≡ add_input_call rows.now inputs.old counts.old input }
{
    let answer = build_leaves::add_input(rows, inputs, *counts, input);
    written_back(counts, answer)
}

// A new leaf that is a latch's input.
pub fn new_latch(
    rows: &mut [u32],
    latches: &mut [u32],
    counts: &mut Counts,
    next: u32,
    init: u32,
) -> Result<u32, Refusal>
    ensures { added_seen counts.new (added result counts.new) rows.new latches.new
        ≡ new_latch_call rows.old latches.old counts.old next init }
{
    let answer = build_latches::new_latch(rows, latches, *counts, next, init);
    written_back(counts, answer)
}

// A used row, listed as a latch's input. It is not looked at.
pub fn add_latch(
    rows: &[u32],
    latches: &mut [u32],
    counts: &mut Counts,
    input: u32,
    next: u32,
    init: u32,
) -> Result<u32, Refusal>
    ensures { added_seen counts.new (added result counts.new) rows.now latches.new
        ≡ add_latch_call rows.now latches.old counts.old input next init }
{
    let answer = build_latches::add_latch(rows, latches, *counts, input, next, init);
    written_back(counts, answer)
}
