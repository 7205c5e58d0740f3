// What a gate is written as, an xor, an if-then-else, or plain; and its clauses, written into a buffer.
#![tactic(auto)]

mod four;
pub mod put;

ghost use Rattle.std.specs.Prelude.{◌≡◌, ◌+◌, ◌*◌, ◌≤◌, length};
ghost use Rattle.edge.specs.Edges.{id_of};
ghost use Rattle.gate_clauses.specs.Shapes.{is_xor, ite_or, pairing, recognised, shape_of};

use edge::{compl, node_id, not};
use rows::kinds::is_gate;

// What a row is written as, with its operands. A row that is no gate, or not referenced, is not written: a shape as the others, since the promises give each its clauses.
#[derive(Clone, Copy)]
pub enum Shape {
    Unwritten,
    Plain(u32, u32),
    Xor(u32, u32),
    Ite(u32, u32, u32),
}

// Are the gates (a, b) and (c, d), complemented, the fanins of an xor of a and b?
fn is_xor(a: u32, b: u32, c: u32, d: u32) -> bool
    ensures { result ≡ is_xor a b c d }
{
    (a == not(c)) & (b == not(d)) & (node_id(a) != node_id(b))
}

// If c then t else e, unless two of the three ids are equal.
fn ite_or(plain: Shape, c: u32, t: u32, e: u32) -> Shape
    ensures { result ≡ ite_or plain c t e }
{
    let i = node_id(c);
    let j = node_id(t);
    let k = node_id(e);
    if (i == j) | (i == k) | (j == k) {
        return plain;
    }
    Shape::Ite(c, t, e)
}

// The first pairing of the gates (a, b) and (c, d) that fits.
fn pairing(plain: Shape, a: u32, b: u32, c: u32, d: u32) -> Shape
    ensures { result ≡ pairing plain a b c d }
{
    if a == not(c) {
        return ite_or(plain, a, not(b), not(d));
    }
    if a == not(d) {
        return ite_or(plain, a, not(b), not(c));
    }
    if b == not(c) {
        return ite_or(plain, b, not(a), not(d));
    }
    if b == not(d) {
        return ite_or(plain, b, not(a), not(c));
    }
    plain
}

// The shape of a gate whose fanins are the complements of the gates (a, b) and (c, d).
fn recognised(plain: Shape, a: u32, b: u32, c: u32, d: u32) -> Shape
    ensures { result ≡ recognised plain a b c d }
{
    if is_xor(a, b, c, d) {
        return Shape::Xor(a, b);
    }
    pairing(plain, a, b, c, d)
}

// The shape of the gate (f, g).
pub fn shape_of(shortcuts: bool, rows: &[u32], f: u32, g: u32) -> Shape
    requires f_in_bounds { 2 * id_of f + 2 ≤ length rows.now }
    requires g_in_bounds { 2 * id_of g + 2 ≤ length rows.now }
    ensures { result ≡ shape_of shortcuts rows.now f g }
{
    let plain = Shape::Plain(f, g);
    if !shortcuts {
        return plain;
    }
    let j = (f / 2) as usize;
    let a = rows[2 * j];
    let b = rows[2 * j + 1];
    let k = (g / 2) as usize;
    let c = rows[2 * k];
    let d = rows[2 * k + 1];
    if !((compl(f) & is_gate(j, a, b)) & (compl(g) & is_gate(k, c, d))) {
        return plain;
    }
    recognised(plain, a, b, c, d)
}
