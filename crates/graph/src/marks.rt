// Work marks: one word a row.
// Memory is lent with room beyond the used entries, and a promise speaks of all that is lent: so how many are used stands beside a table.
ghost use Rattle.std.specs.Prelude.{◌≡◌, ◌≤◌, length};
ghost use Rattle.graph.specs.Check.{cleared};

// The first n marks are set to 0.
pub fn clear(marks: &mut [u32], n: usize)
    requires { n ≤ length marks.old }
    ensures { marks.new ≡ cleared n marks.old }
{
    marks[..n].fill(0);
}
