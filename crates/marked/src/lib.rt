// Document 01's marked cases, M1 to M13, as the words that the program `marked_run` runs. That they hold is proved beside it, of the same table.
#![tactic(auto)]

mod table;

ghost use Rattle.std.specs.Prelude.{◌≡◌};
ghost use Rattle.marked.specs.Same.{same_words};

pub use table::words;

// Are these the same words?
// By a name of its own: the theorem `same_tells` is of it.
pub fn same(a: &[u32], b: &[u32]) -> bool
    ensures { result ≡ same_words a.now b.now }
{
    a == b
}
