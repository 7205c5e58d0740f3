// The calls that build, simulate and translate. A list that a call writes to is copied to an array, and the part that it takes is lent.
use crate::call::Call;
use crate::fill::{copied, copied_bytes};
use crate::parts::{counts, graph, list, word};
use crate::seen::{Seen, counted, word_of};
use build_leaves::Built;

// `build_nodes::new_and_node` and `build_nodes::new_eq_node`: the rows are lent. The call is asked in here, since all else of both is the same.
pub fn built(case: &[u32], call: Call, seen: &mut Seen) {
    let mut rows = [0u32; 16];
    let n = copied(list(case, 2), &mut rows);
    let scalars = list(case, 1);
    let given = counts(scalars, 0);
    let a = word(scalars, 9);
    let b = word(scalars, 10);
    let r = if call == Call::NewAndNode {
        build_nodes::new_and_node(&mut rows[..n], given, a, b)
    } else {
        build_nodes::new_eq_node(&mut rows[..n], given, a, b)
    };
    let nothing = Built {
        counts: given,
        edge: 0,
    };
    let built = r.unwrap_or(nothing);
    seen.put_answer(r.map(|_| ()));
    // in one list the counts and the edge
    seen.put(&[10]);
    seen.put(&counted(built.counts));
    seen.put(&[built.edge]);
    seen.put_list(&rows[..n]);
}

// `ternary::ternary_simulate`: lists 11 to 14 are the codes of inputs and of latches, the values and the marks.
pub fn simulated(case: &[u32], seen: &mut Seen) {
    let mut input = [0u8; 4];
    let mut state = [0u8; 4];
    let mut values = [0u8; 4];
    let mut marks = [0u32; 4];
    let i = copied_bytes(list(case, 11), &mut input);
    let s = copied_bytes(list(case, 12), &mut state);
    let v = copied_bytes(list(case, 13), &mut values);
    let m = copied(list(case, 14), &mut marks);
    let graph = graph(case, 2, counts(list(case, 1), 0));
    let answer = ternary::ternary_simulate(
        &graph,
        &input[..i],
        &state[..s],
        &mut values[..v],
        &mut marks[..m],
    );
    seen.put_answer(answer);
    seen.put_list(&[]);
    seen.put_bytes(&values[..v]);
    seen.put_list(&marks[..m]);
}

// `cnf::cnf`: lists 11 and 12 are the clauses and the marks.
pub fn translated(case: &[u32], seen: &mut Seen) {
    let mut clauses = [0u32; 40];
    let mut marks = [0u32; 8];
    let c = copied(list(case, 11), &mut clauses);
    let m = copied(list(case, 12), &mut marks);
    let scalars = list(case, 1);
    let graph = graph(case, 2, counts(scalars, 0));
    let shortcuts = word(scalars, 9) != 0;
    let r = cnf::cnf(&graph, shortcuts, &mut clauses[..c], &mut marks[..m]);
    seen.put_answer(r.map(|_| ()));
    seen.put_list(&[word_of(r.unwrap_or(0))]);
    seen.put_list(&clauses[..c]);
    seen.put_list(&marks[..m]);
}
