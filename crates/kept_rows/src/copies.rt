// Kept rows and kept inputs are written in order, each at the next place.
// Memory is lent with room beyond the used entries, and a promise speaks of all that is lent: so how many are used stands beside a table.
ghost use Rattle.std.specs.Prelude.{◌≡◌, cond, length};
ghost use Rattle.renumber.specs.Renumber.{renamed as renamed_by, by};
ghost use Rattle.kept_rows.specs.Keeping.{numbered};
ghost use Rattle.kept_rows.specs.Copying.{row_put, rows_kept, inputs_kept, old_kept};
ghost use Rattle.kept_rows.specs.Steps.{WordReady, RowReady, RowsReady, KeptReady};

use crate::numbers::is_numbered;
use renumber::renamed_edge;
use rows::kinds::is_gate;

// A word of a row: one of a gate is an edge, and one of another row stays. It is asked once for both words.
fn row_word(gate: bool, w: u32, map: &[u32]) -> u32
    requires { WordReady gate w map.now }
    ensures { result ≡ cond gate (renamed_by (by map.now) w) w }
{
    if gate {
        return renamed_edge(w, map);
    }
    w
}

// Row i becomes row k.
fn copy_row(rows: &[u32], i: usize, out: &mut [u32], k: usize, map: &[u32])
    requires { RowReady rows.now i out.old k map.now }
    ensures { out.new ≡ row_put (by map.now) rows.now out.old k i }
{
    let a = rows[2 * i];
    let b = rows[2 * i + 1];
    let gate = is_gate(i, a, b);
    out[2 * k] = row_word(gate, a, map);
    out[2 * k + 1] = row_word(gate, b, map);
}

// Writes the kept of the used rows, and for each the row that it was.
pub fn write_rows(rows: &[u32], used: usize, out: &mut [u32], old: &mut [u32], map: &[u32])
    requires { RowsReady rows.now used out.old old.old map.now }
    ensures out_after { out.new ≡ rows_kept (numbered map.now) (by map.now) rows.now out.old used }
    ensures after { old.new ≡ old_kept (numbered map.now) old.old used }
{
    let mut k: usize = 0;
    for i in 0..used {
        if is_numbered(i, map) {
            copy_row(rows, i, out, k, map);
            old[k] = i as u32;
            k += 1;
        }
    }
}

// Writes the kept of the inputs.
pub fn write_inputs(inputs: &[u32], out: &mut [u32], map: &[u32])
    requires { KeptReady map.now inputs.now out.old }
    ensures { out.new ≡ inputs_kept (numbered map.now) (by map.now) inputs.now out.old (length inputs.now) }
{
    let mut k: usize = 0;
    for input in inputs {
        let x = *input as usize;
        if is_numbered(x, map) {
            out[k] = map[x];
            k += 1;
        }
    }
}
