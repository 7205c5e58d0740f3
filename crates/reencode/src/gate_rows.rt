// Gates are numbered and rebuilt in row order. A gate's fanins stand below it, so they have their numbers by then.
// Memory is lent with room beyond the used entries, and a promise speaks of all that is lent: so how many are used stands beside a table.
ghost use Rattle.std.specs.Prelude.{◌≡◌, cond, ◌+◌, set, drop};
ghost use Rattle.rows.specs.Rows.{gate_at};
ghost use Rattle.renumber.specs.Renumber.{by};
ghost use Rattle.renumber.specs.Steps.{MarksHold};
ghost use Rattle.reencode.specs.Numbers.{numbered};
ghost use Rattle.reencode.specs.Rebuilding.{gate_added, gates_added};
ghost use Rattle.reencode.specs.Steps.{GateReady, GatesReady};

use gates::add_gate;
use renumber::renamed_edge;
use rows::kinds::is_gate;

// Row i, if it is a gate, becomes row k; the number of the next gate.
fn rebuild_gate(rows: &[u32], i: usize, out: &mut [u32], k: usize, marks: &mut [u32]) -> usize
    requires { GateReady rows.now i k marks.old }
    ensures value { result ≡ cond (gate_at rows.now i) (k + 1) k }
    ensures out_after { out.new ≡ gate_added (by marks.old) rows.now i k out.old }
    ensures marks_after { marks.new ≡ cond (gate_at rows.now i) (set marks.old i k) marks.old }
{
    let a = rows[2 * i];
    let b = rows[2 * i + 1];
    if !is_gate(i, a, b) {
        return k;
    }
    let x = renamed_edge(a, marks);
    let y = renamed_edge(b, marks);
    marks[i] = k as u32;
    let grown = add_gate(out, k, x, y);
    grown.used
}

// The gates become the rows from `first` on.
pub fn rebuild_gates(rows: &[u32], used: usize, out: &mut [u32], first: usize, marks: &mut [u32])
    requires { GatesReady rows.now used first marks.old }
    ensures out_after { out.new ≡ gates_added (numbered rows.now first (by marks.old)) rows.now first out.old used }
    ensures marks_hold { MarksHold used (numbered rows.now first (by marks.old)) marks.new }
    ensures marks_unchanged { drop used marks.new ≡ drop used marks.old }
{
    let mut k = first;
    for i in 0..used {
        k = rebuild_gate(rows, i, out, k, marks);
    }
}
