// Reading one row. The rest of the table is not looked at. Whether so many rows are lent as are said to be used is part of the answer, so the number stands beside the words.
ghost use Rattle.std.specs.Prelude.{◌≡◌, IfOk};
ghost use Rattle.edge.specs.Answers.{told};
ghost use Rattle.edge.specs.Edges.{bool_seen, edge_seen};
ghost use Rattle.rows.specs.Rows.{word0, word1};
ghost use Rattle.rows.specs.Reading.{row_read, is_and_call, is_leaf_call, fanin0_call, fanin1_call, fanin_seen, fanin_call};

use crate::{kinds, sizes};
use edge::Refusal;

// The two words of row `id`, where the rows are lent right and the row is used.
fn row(rows: &[u32], used: usize, id: u32) -> Result<(u32, u32), Refusal>
    ensures answer { told result ≡ row_read rows.now used id }
    ensures words { IfOk result (λ w. (w.0 ≡ word0 rows.now id) × (w.1 ≡ word1 rows.now id)) }
{
    if !sizes::rows_fit(used, rows) {
        return Err(Refusal::BadSizes);
    }
    let i = id as usize;
    if used <= i {
        return Err(Refusal::BadArgument);
    }
    Ok((rows[2 * i], rows[2 * i + 1]))
}

// Is row `id` a gate? This and the next are two calls by document 01's names, each a line over `row`.
pub fn is_and(rows: &[u32], used: usize, id: u32) -> Result<bool, Refusal>
    ensures { bool_seen result ≡ is_and_call rows.now used id }
{
    let (a, b) = row(rows, used, id)?;
    Ok(kinds::is_gate(id as usize, a, b))
}

// Is row `id` a leaf?
pub fn is_leaf(rows: &[u32], used: usize, id: u32) -> Result<bool, Refusal>
    ensures { bool_seen result ≡ is_leaf_call rows.now used id }
{
    let (a, b) = row(rows, used, id)?;
    Ok(kinds::is_leaf(id as usize, a, b))
}

// Both fanins of row `id`. A row that is no gate: 4.
pub fn fanin(rows: &[u32], used: usize, id: u32) -> Result<(u32, u32), Refusal>
    ensures { fanin_seen result ≡ fanin_call rows.now used id }
{
    let (a, b) = row(rows, used, id)?;
    if kinds::is_gate(id as usize, a, b) {
        Ok((a, b))
    } else {
        Err(Refusal::BadArgument)
    }
}

// The first fanin of row `id`. A row that is no gate: 4. This and the next are two calls by document 01's names, each a line over `fanin`.
pub fn fanin0(rows: &[u32], used: usize, id: u32) -> Result<u32, Refusal>
    ensures { edge_seen result ≡ fanin0_call rows.now used id }
{
    let (first, _) = fanin(rows, used, id)?;
    Ok(first)
}

// The second fanin of row `id`. A row that is no gate: 4.
pub fn fanin1(rows: &[u32], used: usize, id: u32) -> Result<u32, Refusal>
    ensures { edge_seen result ≡ fanin1_call rows.now used id }
{
    let (_, second) = fanin(rows, used, id)?;
    Ok(second)
}
