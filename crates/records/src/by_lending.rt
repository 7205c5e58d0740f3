// The constructors in place for callers that hold the counts by value: the record is lent and comes back. Each is written out: of the rows and
// the list that a closure over the call has changed, the proof knows no more than the length.
ghost use Rattle.std.specs.Prelude.{◌≡◌};
ghost use Rattle.build_leaves.specs.Calls.{added_seen};
ghost use Rattle.build_leaves.specs.Leaves.{new_input_call, add_input_call};
ghost use Rattle.build_latches.specs.Latches.{new_latch_call, add_latch_call};

use crate::counts;
use build_leaves::Added;
use edge::Refusal;
use graph::Counts;

// A new leaf that is an input.
pub fn new_input(rows: &mut [u32], inputs: &mut [u32], counts: Counts) -> Result<Added, Refusal>
    ensures { added_seen counts result rows.new inputs.new ≡ new_input_call rows.old inputs.old counts }
{
    let mut held = counts;
    let id = counts::new_input(rows, inputs, &mut held)?;
    Ok(Added { counts: held, id })
}

// A used row, listed as an input.
pub fn add_input(
    rows: &[u32],
    inputs: &mut [u32],
    counts: Counts,
    input: u32,
) -> Result<Added, Refusal>
    ensures { added_seen counts result rows.now inputs.new ≡ add_input_call rows.now inputs.old counts input }
{
    let mut held = counts;
    let id = counts::add_input(rows, inputs, &mut held, input)?;
    Ok(Added { counts: held, id })
}

// A new leaf that is a latch's input.
pub fn new_latch(
    rows: &mut [u32],
    latches: &mut [u32],
    counts: Counts,
    next: u32,
    init: u32,
) -> Result<Added, Refusal>
    ensures { added_seen counts result rows.new latches.new ≡ new_latch_call rows.old latches.old counts next init }
{
    let mut held = counts;
    let id = counts::new_latch(rows, latches, &mut held, next, init)?;
    Ok(Added { counts: held, id })
}

// A used row, listed as a latch's input.
pub fn add_latch(
    rows: &[u32],
    latches: &mut [u32],
    counts: Counts,
    input: u32,
    next: u32,
    init: u32,
) -> Result<Added, Refusal>
    ensures { added_seen counts result rows.now latches.new ≡ add_latch_call rows.now latches.old counts input next init }
{
    let mut held = counts;
    let id = counts::add_latch(rows, latches, &mut held, input, next, init)?;
    Ok(Added { counts: held, id })
}
