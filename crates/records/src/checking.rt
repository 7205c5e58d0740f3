// The check of a graph whose latches are records: it lends no words for them, so the field `latches` of the graph is not looked at.
// Memory is lent with room beyond the used entries, and a promise speaks of all that is lent: so how many are used stands beside a table.
ghost use Rattle.std.specs.Prelude.{◌≡◌};
ghost use Rattle.graph.specs.Graph.{lent_of};
ghost use Rattle.graph.specs.Check.{check_seen};
ghost use Rattle.records.specs.Working.{worked, on_records};
ghost use Rattle.records.specs.Steps.{on_words};
ghost use Rattle.records.specs.Checking.{check_with, check_refused};

use crate::words::to_words;
use edge::Refusal;
use graph::Graph;
use graph::latch::{LATCH_WORDS, Latch};
use graph::marks::clear;

// The check on the first n latches of the work words.
fn check_words(graph: &Graph, n: usize, words: &mut [u32], marks: &mut [u32]) -> Result<(), Refusal>
    ensures { worked (check_seen result marks.new) words.new
        ≡ on_words n words.old (check_with (lent_of graph.now) marks.old) (check_refused marks.old) }
{
    if words.len() / LATCH_WORDS < n {
        return Err(Refusal::BadSizes);
    }
    let m = LATCH_WORDS * n;
    let checked = Graph {
        latches: &words[..m],
        ..*graph
    };
    let answer = checked.check(marks);
    clear(words, m);
    answer
}

// Is this a well-formed graph? The work words hold three words a record while it is looked at.
pub fn check(
    graph: &Graph,
    latches: &[Latch],
    words: &mut [u32],
    marks: &mut [u32],
) -> Result<(), Refusal>
    ensures { worked (check_seen result marks.new) words.new
        ≡ on_records latches.now words.old (check_with (lent_of graph.now) marks.old) (check_refused marks.old) }
{
    to_words(latches, words);
    check_words(graph, latches.len(), words, marks)
}
