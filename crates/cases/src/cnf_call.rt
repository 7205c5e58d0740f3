// The clauses of a graph, 100.
use crate::arrays::Arrays;
use crate::case::Case;
use crate::outcome::Outcome;
use crate::slots::{MARKS, Slots, WORDS};

// The call writes the marks and the clauses.
pub fn run(case: &Case, slots: &mut Slots, arrays: &mut Arrays) -> Option<Outcome> {
    let marks = slots.copied(MARKS, arrays.small)?;
    let clauses = slots.copied(WORDS, arrays.large)?;
    let answer = cnf::cnf(&slots.graph(case.counts()), case.truth(9), clauses, marks);
    slots.put_back(MARKS, marks);
    slots.put_back(WORDS, clauses);
    Some(Outcome::of(answer, 0))
}
