// From the last row down each referenced gate is written, and its operands become referenced. A mark of 1 says that a row is referenced.
ghost use Rattle.std.specs.Prelude.{◌≡◌, true, [], ◌∷◌, ◌+◌, ◌*◌, ◌≤◌, ◌<◌, length};
ghost use Rattle.rows.specs.Sizes.{max_rows};
ghost use Rattle.graph.specs.Leaves.{used_edge};
ghost use Rattle.root_marks.specs.Arguments.{every};
ghost use Rattle.root_marks.specs.Marking.{mark_edges};
ghost use Rattle.gate_clauses.specs.Shapes.{operands, words, WrittenIfRoom};
ghost use Rattle.cnf.specs.Clauses.{written_at, walk};

use gate_clauses::put::put_shape;
use gate_clauses::{Shape, shape_of};
use root_marks::mark_edges;
use rows::kinds::is_gate;

// Marks the rows of a shape's operands.
fn mark_operands(s: Shape, marks: &mut [u32])
    requires { every (used_edge (length marks.old)) (operands s) ≡ true }
    ensures { marks.new ≡ mark_edges (operands s) marks.old }
{
    match s {
        Shape::Unwritten => {}
        Shape::Plain(a, b) | Shape::Xor(a, b) => mark_edges(&[a, b], marks),
        Shape::Ite(c, t, e) => mark_edges(&[c, t, e], marks),
    }
}

// What row i is written as. Its operands become referenced.
fn visit(shortcuts: bool, rows: &[u32], i: usize, marks: &mut [u32]) -> Shape
    requires i_in_bounds { 2 * i + 2 ≤ length rows.now }
    requires i_in_bounds_2 { i < length marks.old }
    ensures shape { result ≡ written_at shortcuts rows.now i marks.old }
    ensures marked { marks.new ≡ mark_edges (operands result) marks.old }
{
    let a = rows[2 * i];
    let b = rows[2 * i + 1];
    if !((marks[i] == 1) & is_gate(i, a, b)) {
        return Shape::Unwritten;
    }
    let s = shape_of(shortcuts, rows, a, b);
    mark_operands(s, marks);
    s
}

// The clauses of the rows, behind the unit clause, each row's where there is room for them. The place behind them all, whether they are written or not.
pub fn put_rows(shortcuts: bool, rows: &[u32], clauses: &mut [u32], marks: &mut [u32]) -> usize
    requires marks_in_bounds { 2 * length marks.old ≤ length rows.now }
    requires marks_len_bound { length marks.old ≤ max_rows }
    ensures place { result ≡ 2 + length (words (walk shortcuts rows.now (length marks.old) marks.old)) }
    ensures written { WrittenIfRoom clauses.old 2 (words (walk shortcuts rows.now (length marks.old) marks.old)) clauses.new }
{
    let mut at = 2;
    for i in (0..marks.len()).rev() {
        let s = visit(shortcuts, rows, i, marks);
        at = put_shape(clauses, at, 2 * (i as u32), s);
    }
    at
}
