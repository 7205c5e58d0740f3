// The check of a graph, 30.
use crate::arrays::Arrays;
use crate::case::Case;
use crate::outcome::Outcome;
use crate::slots::{MARKS, Slots};

// The call writes the marks.
pub fn run(case: &Case, slots: &mut Slots, arrays: &mut Arrays) -> Option<Outcome> {
    let marks = slots.copied(MARKS, arrays.small)?;
    let answer = slots.graph(case.counts()).check(marks);
    slots.put_back(MARKS, marks);
    Some(Outcome::of(answer, ()))
}
