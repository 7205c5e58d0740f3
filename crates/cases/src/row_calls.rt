// The calls on rows, 20 to 24.
use crate::case::Case;
use crate::outcome::Outcome;

pub fn run(case: &Case, words: &[u32]) -> Option<Outcome> {
    let used = case.size(0);
    let id = case.word(1);
    let outcome = match case.call {
        20 => Outcome::of(rows::is_and(words, used, id), false),
        21 => Outcome::of(rows::is_leaf(words, used, id), false),
        22 => Outcome::of(rows::fanin0(words, used, id), 0),
        23 => Outcome::of(rows::fanin1(words, used, id), 0),
        24 => Outcome::of(rows::fanin(words, used, id), (0, 0)),
        _ => return None,
    };
    Some(outcome)
}
