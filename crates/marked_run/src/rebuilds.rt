// The calls that rebuild a graph. In the marked cases the six lists of roots are empty, and so is what is lent for them.
use crate::call::Call;
use crate::fill::copied;
use crate::parts::{counts, graph, list};
use crate::seen::{Seen, counted};
use output::Tables;

// `reencode::reencode`, which writes the second graph that is lent, and `unroll::unroll`, which writes the first. The marks are list 20.
// The call is asked in here, since what is lent to both and shown of both is the same.
pub fn rebuilt(case: &[u32], call: Call, seen: &mut Seen) {
    let first = if call == Call::Reencode { 11 } else { 2 };
    let mut rows = [0u32; 8];
    let mut inputs = [0u32; 4];
    let mut latches = [0u32; 4];
    let mut marks = [0u32; 4];
    let r = copied(list(case, first), &mut rows);
    let i = copied(list(case, first + 1), &mut inputs);
    let l = copied(list(case, first + 2), &mut latches);
    let m = copied(list(case, 20), &mut marks);
    let mut tables = Tables {
        rows: &mut rows[..r],
        inputs: &mut inputs[..i],
        latches: &mut latches[..l],
        constraints: &mut [],
        bads: &mut [],
        outputs: &mut [],
        ends: &mut [],
        edges: &mut [],
        fairness: &mut [],
    };
    let given = counts(list(case, 1), 0);
    let answer = if call == Call::Reencode {
        reencode::reencode(&graph(case, 2, given), &mut tables, &mut marks[..m])
    } else {
        let other = graph(case, 11, counts(list(case, 1), 9));
        unroll::unroll(&mut tables, given, &other, &mut marks[..m])
    };
    seen.put_answer(answer.map(|_| ()));
    seen.put_list(&counted(answer.unwrap_or(given)));
    // the nine lists of the graph that was written: of the six empty ones only the lengths are there
    seen.put_list(&rows[..r]);
    seen.put_list(&inputs[..i]);
    seen.put_list(&latches[..l]);
    seen.put(&[0, 0, 0, 0, 0, 0]);
    seen.put_list(&marks[..m]);
}
