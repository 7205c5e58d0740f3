// The constructors, 40 to 59. They write rows, and some of them a list too.
use crate::arrays::Arrays;
use crate::case::Case;
use crate::outcome::Outcome;
use crate::slots::{INPUTS, LATCHES, LIST, ROWS, Slots};
use build_leaves::{Added, Built};
use edge::Refusal;
use graph::{Counts, no_counts};

pub fn run(case: &Case, slots: &mut Slots, arrays: &mut Arrays) -> Option<Outcome> {
    let slot = list_slot(case.call);
    let rows = slots.copied(ROWS, arrays.middle)?;
    let list = slots.copied(slot, arrays.large)?;
    let outcome = if case.call < 50 {
        leaf(case, rows, list)?
    } else {
        node(case, rows, slots.words(LIST))?
    };
    slots.put_back(ROWS, rows);
    slots.put_back(slot, list);
    Some(outcome)
}

// The list that the call writes: latches for the two that add one, else inputs.
fn list_slot(call: u64) -> usize {
    match call {
        44 | 45 => LATCHES,
        _ => INPUTS,
    }
}

fn leaf(case: &Case, rows: &mut [u32], list: &mut [u32]) -> Option<Outcome> {
    let n = case.counts();
    let a = case.word(9);
    let b = case.word(10);
    let c = case.word(11);
    let none = Added { counts: n, id: 0 };
    let outcome = match case.call {
        40 => Outcome::of(
            build_leaves::new(rows).map(|built| built.counts),
            no_counts(),
        ),
        41 => Outcome::of(build_leaves::new_leaf_node(rows, n), none),
        42 => Outcome::of(build_leaves::new_input(rows, list, n), none),
        43 => listed(build_leaves::add_input(rows, list, n, a), n),
        44 => Outcome::of(build_latches::new_latch(rows, list, n, a, b), none),
        45 => listed(build_latches::add_latch(rows, list, n, a, b, c), n),
        _ => return None,
    };
    Some(outcome)
}

fn node(case: &Case, rows: &mut [u32], edges: &[u32]) -> Option<Outcome> {
    let n = case.counts();
    let a = case.word(9);
    let b = case.word(10);
    let built = match case.call {
        50 => build_nodes::trivial_new_and_node(rows, n, a, b),
        51 => build_nodes::new_and_node(rows, n, a, b),
        52 => build_nodes::trivial_new_or_node(rows, n, a, b),
        53 => build_nodes::new_or_node(rows, n, a, b),
        54 => build_nodes::trivial_new_ands_node(rows, n, edges),
        55 => build_nodes::new_ands_node(rows, n, edges),
        56 => build_nodes::trivial_new_ors_node(rows, n, edges),
        57 => build_nodes::new_ors_node(rows, n, edges),
        58 => build_nodes::new_imply_node(rows, n, a, b),
        59 => build_nodes::new_eq_node(rows, n, a, b),
        _ => return None,
    };
    Some(Outcome::of(built, Built { counts: n, edge: 0 }))
}

// The counts alone: the id was given.
fn listed(added: Result<Added, Refusal>, given: Counts) -> Outcome {
    Outcome::of(added.map(|added| added.counts), given)
}
