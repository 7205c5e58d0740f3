// One record of the latch table: read, and its next written. An index past the table is 4.
ghost use Rattle.std.specs.Prelude.{◌≡◌};
ghost use Rattle.records.specs.Entries.{found_seen, latch_call, table_seen, next_call};

use edge::Refusal;
use graph::latch::Latch;

// What stands in a table before it is read.
pub const NO_LATCH: Latch = Latch {
    input: 0,
    next: 0,
    init: 0,
};

pub fn latch_at(table: &[Latch], i: usize) -> Result<Latch, Refusal>
    ensures { found_seen result ≡ latch_call table.now i }
{
    table.get(i).copied().ok_or(Refusal::BadArgument)
}

pub fn set_next(table: &mut [Latch], i: usize, next: u32) -> Result<(), Refusal>
    ensures { table_seen result table.new ≡ next_call table.old i next }
{
    // By an index: after `get_mut` the proof knows no more of the table than its length.
    if table.len() <= i {
        return Err(Refusal::BadArgument);
    }
    table[i].next = next;
    Ok(())
}
