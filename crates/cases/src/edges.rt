// The calls on edges, 1 to 11.
use crate::case::Case;
use crate::outcome::Outcome;

pub fn run(case: &Case, map: &[u32]) -> Option<Outcome> {
    let e = case.word(0);
    let flag = case.truth(1);
    let outcome = match case.call {
        1 => Outcome::of(edge::new(e, flag), 0),
        2 => Outcome::done(edge::node_id(e)),
        3 => Outcome::done(edge::compl(e)),
        4 => Outcome::done(edge::not(e)),
        5 => Outcome::done(edge::not_if(e, flag)),
        6 => Outcome::done(edge::constant(case.truth(0))),
        7 => Outcome::done(edge::is_const(e)),
        8 => Outcome::done(edge::is_constant(e, flag)),
        9 => Outcome::done(edge::try_to_constant(e)),
        10 => Outcome::of(edge::to_constant(e), false),
        11 => Outcome::of(edge::map(e, map), 0),
        _ => return None,
    };
    Some(outcome)
}
