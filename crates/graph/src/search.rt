// How a search for the first bad place is answered.
ghost use Rattle.std.specs.Prelude.{◌≡◌};
ghost use Rattle.edge.specs.Answers.{number_of, told};
ghost use Rattle.graph.specs.Stages.{entry_found};

use edge::{List, Refusal};

// The answer for the first bad entry of a list, if there is one.
pub fn no_bad_entry(list: List, first_bad: Option<usize>) -> Result<(), Refusal>
    ensures { told result ≡ entry_found (number_of list) first_bad }
{
    match first_bad {
        Some(index) => Err(Refusal::BadEntry {
            list: u8::from(list),
            index,
            second: 0,
        }),
        None => Ok(()),
    }
}
