// Inputs and latches are numbered from 1 on; the number of a row is held in its mark.
// Memory is lent with room beyond the used entries, and a promise speaks of all that is lent: so how many are used stands beside a table.
ghost use Rattle.std.specs.Prelude.{◌≡◌, ℕ, ◌+◌, ◌*◌, ◌≤◌, length, get_or};
ghost use Rattle.rows.specs.Sizes.{max_rows};
ghost use Rattle.rows.specs.Rows.{leaf_at, AllRows};
ghost use Rattle.graph.specs.Latches.{latch_words, latch_at};
ghost use Rattle.graph.specs.Count.{count_below};
ghost use Rattle.reencode.specs.Steps.{placed};
ghost use Rattle.reencode.specs.Rebuilding.{leaves_added};
ghost use Rattle.reencode.specs.Steps.{IdsMarked};

use gates::add_row;
use graph::latch::latch_at;
use rows::kinds;

// Of well-formed rows a leaf alone has the none word: nothing else need be asked. The loop has no branch a row; `filter` and `count` made one, and took five times as long.
pub fn count_leaves(rows: &[u32], used: usize) -> usize
    requires used_in_bounds { 2 * used ≤ length rows.now }
    requires used_le_max_rows { used ≤ max_rows }
    requires all_rows { AllRows rows.now used }
    ensures { result ≡ count_below (leaf_at rows.now) used }
{
    let mut n: usize = 0;
    for i in 0..used {
        if rows[2 * i] == kinds::NONE {
            n += 1;
        }
    }
    n
}

pub fn number_inputs(inputs: &[u32], marks: &mut [u32])
    requires { IdsMarked marks.old (λ (j : ℕ). get_or inputs.now j 0) 1 (length inputs.now) }
    ensures { marks.new ≡ placed marks.old (λ (j : ℕ). get_or inputs.now j 0) 1 (length inputs.now) }
{
    for (j, input) in inputs.iter().enumerate() {
        marks[*input as usize] = (1 + j) as u32;
    }
}

// Not one function with `number_inputs`: a latch's input is one word of several, and the proof names each row that it marks.
pub fn number_latches(latches: &[u32], n: usize, first: usize, marks: &mut [u32])
    requires n_in_bounds { latch_words * n ≤ length latches.now }
    requires ids_marked { IdsMarked marks.old (λ (j : ℕ). (latch_at latches.now j).input) first n }
    ensures { marks.new ≡ placed marks.old (λ (j : ℕ). (latch_at latches.now j).input) first n }
{
    for j in 0..n {
        let l = latch_at(latches, j);
        marks[l.input as usize] = (first + j) as u32;
    }
}

// Writes row 0, and n leaves behind it.
pub fn write_leaves(out: &mut [u32], n: usize)
    requires { n ≤ max_rows }
    ensures { out.new ≡ leaves_added out.old n }
{
    add_row(out, 0, kinds::FALSE_ROW, 0);
    for i in 0..n {
        add_row(out, i + 1, kinds::NONE, 0);
    }
}
