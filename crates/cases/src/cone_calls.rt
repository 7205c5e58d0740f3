// The cones, 60 and 61.
use crate::arrays::Arrays;
use crate::case::Case;
use crate::outcome::Outcome;
use crate::slots::{LIST, MARKS, STACK, Slots, WORDS};

// Both calls write the marks and the flags, and `coi` its stack too.
pub fn run(case: &Case, slots: &mut Slots, arrays: &mut Arrays) -> Option<Outcome> {
    let marks = slots.copied(MARKS, arrays.small)?;
    let flags = slots.copied(WORDS, arrays.middle)?;
    let stack = slots.copied(STACK, arrays.large)?;
    let graph = slots.graph(case.counts());
    let list = slots.words(LIST);
    let answer = match case.call {
        60 => cone::fanin_logic_cone(&graph, list, flags, marks),
        _ => coi::coi(&graph, list, flags, marks, stack),
    };
    slots.put_back(MARKS, marks);
    slots.put_back(WORDS, flags);
    slots.put_back(STACK, stack);
    Some(Outcome::of(answer, ()))
}
