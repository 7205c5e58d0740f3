// The clauses of a graph: the translation that stands in front of a solver.
// Memory is lent with room beyond the used entries, and a promise speaks of all that is lent: so how many are used stands beside a table.
#![tactic(auto)]

mod walk;

ghost use Rattle.std.specs.Prelude.{◌≡◌, ◌*◌, ◌≤◌, length, leb};
ghost use Rattle.graph.specs.Graph.{lent_of};
ghost use Rattle.graph.specs.Count.{gates_below};
ghost use Rattle.root_marks.specs.Steps.{RootsFit};
ghost use Rattle.root_marks.specs.Roots.{roots_of};
ghost use Rattle.gate_clauses.specs.Shapes.{words, WrittenIfRoom};
ghost use Rattle.cnf.specs.Clauses.{clauses_in};
ghost use Rattle.cnf.specs.Steps.{ClausesReady};
ghost use Rattle.cnf.specs.Call.{cnf_seen, cnf_call};

use edge::Refusal;
use gate_clauses::put::put_unit;
use graph::Graph;
use graph::marks::clear;
use root_marks::mark_roots;
use rows::kinds::is_gate;
use walk::put_rows;

// The clauses, the unit clause first, where there is room for them. How many words they are, whether they are written or not. The marks are 0 before and after.
fn put_words(graph: &Graph, shortcuts: bool, clauses: &mut [u32], marks: &mut [u32]) -> usize
    requires roots_fit { RootsFit (lent_of graph.now) }
    requires clauses_ready { ClausesReady graph.now.rows.now (length marks.old) (roots_of (lent_of graph.now)) marks.old }
    ensures number { result ≡ length (words (clauses_in shortcuts graph.now.rows.now (length marks.old) (roots_of (lent_of graph.now)))) }
    ensures written { WrittenIfRoom clauses.old 0 (words (clauses_in shortcuts graph.now.rows.now (length marks.old) (roots_of (lent_of graph.now)))) clauses.new }
    ensures kept { marks.new ≡ marks.old }
{
    mark_roots(graph, marks);
    put_unit(clauses);
    let end = put_rows(shortcuts, graph.rows, clauses, marks);
    let used = marks.len();
    clear(marks, used);
    end
}

// How many gates are among the first n rows. It goes over every row, so by a `for`: `filter` and `count` take half as many steps again.
fn gates_below(rows: &[u32], n: usize) -> usize
    requires { 2 * n ≤ length rows.now }
    ensures { result ≡ gates_below rows.now n }
{
    let mut gates: usize = 0;
    for i in 0..n {
        if is_gate(i, rows[2 * i], rows[2 * i + 1]) {
            gates += 1;
        }
    }
    gates
}

// Is there room for the clauses? They are at most 2 + 16·gates words, and row 0 is no gate: where there is room for that, were every other row a gate, the gates are not counted, and where
// there is room for that, the need is not. The marks are 0 before and after.
fn has_room(graph: &Graph, shortcuts: bool, room: usize, marks: &mut [u32]) -> bool
    requires roots_fit { RootsFit (lent_of graph.now) }
    requires clauses_ready { ClausesReady graph.now.rows.now (length marks.old) (roots_of (lent_of graph.now)) marks.old }
    ensures fits { result ≡ leb (length (words (clauses_in shortcuts graph.now.rows.now (length marks.old) (roots_of (lent_of graph.now))))) room }
    ensures kept { marks.new ≡ marks.old }
{
    let used = marks.len();
    let most = 2 + 16 * (used - 1);
    if most <= room {
        return true;
    }
    if 2 + 16 * gates_below(graph.rows, used) <= room {
        return true;
    }
    let mut nothing = [0u32; 0];
    let need = put_words(graph, shortcuts, &mut nothing, marks);
    need <= room
}

// Writes the clauses of the graph, with shortcuts for xor and if-then-else or without, and answers how many words they are. A buffer that is too short: 5.
pub fn cnf(
    graph: &Graph,
    shortcuts: bool,
    clauses: &mut [u32],
    marks: &mut [u32],
) -> Result<usize, Refusal>
    ensures { cnf_seen result clauses.new marks.new ≡ cnf_call (lent_of graph.now) shortcuts clauses.old marks.old }
{
    graph.check(marks)?;
    let used = graph.counts.rows;
    if !has_room(graph, shortcuts, clauses.len(), &mut marks[..used]) {
        return Err(Refusal::NoRoom);
    }
    let words = put_words(graph, shortcuts, clauses, &mut marks[..used]);
    Ok(words)
}
