// Ternary simulation, 90 to 92.
use crate::arrays::Arrays;
use crate::case::Case;
use crate::outcome::Outcome;
use crate::slots::{INPUT_BYTES, MARKS, STATE_BYTES, Slots, VALUE_BYTES};

// The run writes the marks and the values, and the step the state too.
pub fn run(case: &Case, slots: &mut Slots, arrays: &mut Arrays) -> Option<Outcome> {
    let marks = slots.copied(MARKS, arrays.small)?;
    let input = slots.copied(INPUT_BYTES, arrays.inputs)?;
    let state = slots.copied(STATE_BYTES, arrays.state)?;
    let values = slots.copied(VALUE_BYTES, arrays.values)?;
    let graph = slots.graph(case.counts());
    let outcome = match case.call {
        90 => Outcome::of(
            ternary::ternary_simulate(&graph, input, state, values, marks),
            (),
        ),
        91 => Outcome::of(ternary::simulate(&graph, input, state, values, marks), ()),
        _ => Outcome::of(ternary::value(values, case.size(0), case.word(1)), 0),
    };
    slots.put_back(MARKS, marks);
    slots.put_back(STATE_BYTES, state);
    slots.put_back(VALUE_BYTES, values);
    Some(outcome)
}
