// Clauses, written into the buffer at a place: a length word, then the literals. Where the buffer has no room for them nothing is written, and so an empty one counts the need.
ghost use Rattle.std.specs.Prelude.{◌≡◌, [], ◌∷◌, map, ◌+◌, ◌≤◌, length};
ghost use Rattle.std.proofs.lemmas.List.Edits.{sets};
ghost use Rattle.gate_clauses.specs.Shapes.{clauses_of, words, unit, WrittenIfRoom};
ghost use Rattle.gate_clauses.specs.Steps.{place_limit};

use crate::Shape;
use crate::four::{ite_clauses, xor_clauses};
use edge::not;

// The unit clause: row 0 is false.
pub fn put_unit(clauses: &mut [u32])
    ensures { WrittenIfRoom clauses.old 0 (words (unit ∷ [])) clauses.new }
{
    if clauses.len() < 2 {
        return;
    }
    put_clause(clauses, 0, [1]);
}

// A clause of N literals.
fn put_clause<const N: usize>(clauses: &mut [u32], at: usize, literals: [u32; N])
    requires { (N ≤ 3) × (at + N + 1 ≤ length clauses.old) }
    ensures { clauses.new ≡ sets clauses.old at (N ∷ literals.entry) }
{
    clauses[at] = N as u32;
    for (i, literal) in literals.iter().enumerate() {
        clauses[at + 1 + i] = *literal;
    }
}

// Four clauses of three literals. The place behind them.
fn put_four(clauses: &mut [u32], at: usize, four: [[u32; 3]; 4]) -> usize
    requires at_le_place_limit { at ≤ place_limit }
    requires four_value { map length four ≡ 3 ∷ 3 ∷ 3 ∷ 3 ∷ [] }
    ensures place { result ≡ at + 16 }
    ensures written { WrittenIfRoom clauses.old at (words four) clauses.new }
{
    let end = at + 16;
    if clauses.len() < end {
        return end;
    }
    for (i, clause) in four.iter().enumerate() {
        put_clause(clauses, at + 4 * i, *clause);
    }
    end
}

// The three clauses of a plain gate: g is a and b. The place behind them.
fn put_plain(clauses: &mut [u32], at: usize, g: u32, a: u32, b: u32) -> usize
    requires { at ≤ place_limit }
    ensures place { result ≡ at + 10 }
    ensures written { WrittenIfRoom clauses.old at (words (clauses_of g (Shape.Plain a b))) clauses.new }
{
    let end = at + 10;
    if clauses.len() < end {
        return end;
    }
    let ng = not(g);
    let na = not(a);
    let nb = not(b);
    put_clause(clauses, at, [ng, a]);
    put_clause(clauses, at + 3, [ng, b]);
    put_clause(clauses, at + 6, [g, na, nb]);
    end
}

// The clauses of the gate with literal g. The place behind them, whether they are written or not.
pub fn put_shape(clauses: &mut [u32], at: usize, g: u32, s: Shape) -> usize
    requires { at ≤ place_limit }
    ensures place { result ≡ at + length (words (clauses_of g s)) }
    ensures written { WrittenIfRoom clauses.old at (words (clauses_of g s)) clauses.new }
{
    match s {
        Shape::Unwritten => at,
        Shape::Plain(a, b) => put_plain(clauses, at, g, a, b),
        Shape::Xor(a, b) => put_four(clauses, at, xor_clauses(g, a, b)),
        Shape::Ite(c, t, e) => put_four(clauses, at, ite_clauses(g, c, t, e)),
    }
}
