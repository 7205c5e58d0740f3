// What a constructor answers, with the counts that come back by value.
// Memory is lent with room beyond the used entries, and a promise speaks of all that is lent: so how many are used stands beside a table.
ghost use Rattle.std.specs.Prelude.{◌≡◌, ◌≤◌, ◌<◌, IsOk};
ghost use Rattle.edge.specs.Answers.{told};
ghost use Rattle.rows.specs.Sizes.{max_rows};
ghost use Rattle.build_leaves.specs.Calls.{constructor_answer};
ghost use Rattle.build_leaves.specs.Leaves.{free_row, entry_answer};

use edge::Refusal;
use graph::Counts;
use rows::sizes::{MAX_ENTRIES, fits, rows_fit};

// The edge that was built, with the counts after it.
#[derive(Clone, Copy)]
pub struct Built {
    pub counts: Counts,
    pub edge: u32,
}

// The leaf that was made or listed, with the counts after it. Not one type with `Built`: an id is no edge, and an edge's complement is lost by the one who takes it for an id.
#[derive(Clone, Copy)]
pub struct Added {
    pub counts: Counts,
    pub id: u32,
}

// 1, then 4, then 5.
pub fn answered(sizes: bool, good: bool, room: bool) -> Result<(), Refusal>
    ensures { told result ≡ constructor_answer sizes good room }
{
    if !sizes {
        return Err(Refusal::BadSizes);
    }
    if !good {
        return Err(Refusal::BadArgument);
    }
    if !room {
        return Err(Refusal::NoRoom);
    }
    Ok(())
}

// What a constructor answers that takes the next entry of a list, of which n of so many entries are used: `row` says that a row is free, or that none is needed.
pub fn entry_answer(
    rows: &[u32],
    used: usize,
    n: usize,
    lent: usize,
    good: bool,
    row: bool,
) -> Result<(), Refusal>
    ensures answer { told result ≡ entry_answer rows.now used n lent good row }
    ensures room { IsOk result → (used ≤ max_rows) × (n < lent) }
{
    answered(
        rows_fit(used, rows) & fits(n, lent, MAX_ENTRIES),
        good,
        row & (n < lent),
    )
}

// Is there a row after the used ones?
pub fn free_row(rows: &[u32], used: usize) -> bool
    ensures { result ≡ free_row rows.now used }
{
    used < rows.len() / 2
}
