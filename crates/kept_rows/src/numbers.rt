// The new numbers: a kept row's is how many kept rows stand below it. Each is held in its row's mark, where the flag was.
ghost use Rattle.std.specs.Prelude.{◌≡◌, ◌≤◌, ◌<◌, length, count_by, All};
ghost use Rattle.rows.specs.Sizes.{max_rows};
ghost use Rattle.root_marks.specs.Flags.{Flags};
ghost use Rattle.graph.specs.Count.{count_below};
ghost use Rattle.kept_rows.specs.Keeping.{kept_row, new_ids, numbered};

// Each flag becomes its row's new number; how many rows are kept.
pub fn number(marks: &mut [u32]) -> usize
    requires marks_len_bound { length marks.old ≤ max_rows }
    requires flags { Flags (length marks.old) marks.old }
    ensures value { result ≡ count_below (kept_row marks.old) (length marks.old) }
    ensures marks_after { marks.new ≡ new_ids marks.old }
{
    let mut k: usize = 0;
    for mark in marks.iter_mut() {
        if *mark == 1 {
            *mark = k as u32;
            k += 1;
        }
    }
    k
}

// Is row i kept? Only row 0 is kept and has the number 0.
pub fn is_numbered(i: usize, map: &[u32]) -> bool
    requires { i < length map.now }
    ensures { result ≡ numbered map.now i }
{
    (i == 0) | (map[i] != 0)
}

// How many of the inputs are kept.
pub fn count_inputs(inputs: &[u32], map: &[u32]) -> usize
    requires { All (λ x. x < length map.now) inputs.now }
    ensures { result ≡ count_by (numbered map.now) inputs.now }
{
    inputs
        .iter()
        .filter(|x| is_numbered(**x as usize, map))
        .count()
}
