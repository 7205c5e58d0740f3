// The fanins below flagged rows. They stand below their gate, so one run from the last row down finds them all.
ghost use Rattle.std.specs.Prelude.{◌≡◌, ◌+◌, ◌*◌, ◌≤◌, ◌<◌, length};
ghost use Rattle.cone.specs.Cone.{mark_row, mark_below};

use root_marks::mark_edges;
use rows::kinds::is_gate;

// Where row i is flagged and is a gate, both fanins are flagged.
fn mark_row(rows: &[u32], i: usize, flags: &mut [u32])
    requires i_in_bounds { 2 * i + 2 ≤ length rows.now }
    requires i_in_bounds_2 { i < length flags.old }
    ensures { flags.new ≡ mark_row rows.now i flags.old }
{
    let a = rows[2 * i];
    let b = rows[2 * i + 1];
    if !((flags[i] == 1) & is_gate(i, a, b)) {
        return;
    }
    mark_edges(&[a, b], flags);
}

pub fn mark_below(rows: &[u32], flags: &mut [u32])
    requires { 2 * length flags.old ≤ length rows.now }
    ensures { flags.new ≡ mark_below rows.now (length flags.old) flags.old }
{
    for i in (0..flags.len()).rev() {
        mark_row(rows, i, flags);
    }
}
