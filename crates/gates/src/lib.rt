// Rows and gates, step by step. Each step takes the rows as they are lent: where there is none left it writes nothing, and so it counts the need.
// Memory is lent with room beyond the used entries, and a promise speaks of all that is lent: so how many are used stands beside a table.
#![tactic(auto)]

pub mod lists;

ghost use Rattle.std.specs.Prelude.{◌≡◌, ◌≤◌, length, set};
ghost use Rattle.gates.specs.Steps.{step_limit};
ghost use Rattle.gates.specs.Gates.{state_of, row_added, Sorted, first, second, add_gate, folded, add_and, add_step};

// How many rows are used after a step, and the edge that it built.
#[derive(Clone, Copy)]
pub struct Grown {
    pub used: usize,
    pub edge: u32,
}

// Writes one row at the front of the free rows.
fn write_row(free: &mut [u32], a: u32, b: u32)
    requires { 2 ≤ length free.old }
    ensures { free.new ≡ set (set free.old 0 a) 1 b }
{
    free[0] = a;
    free[1] = b;
}

// Adds a row after the used ones, if one is lent there.
pub fn add_row(rows: &mut [u32], used: usize, a: u32, b: u32)
    requires { used ≤ step_limit }
    ensures { rows.new ≡ row_added rows.old used a b }
{
    let start = 2 * used;
    if rows.len() < start + 2 {
        return;
    }
    write_row(&mut rows[start..], a, b);
}

// A gate's two edges in order: the smaller id first, and the given order for equal ids.
fn ordered(a: u32, b: u32) -> (u32, u32)
    ensures { result ≡ (first a b, second a b) }
{
    if b / 2 < a / 2 { (b, a) } else { (a, b) }
}

// Adds a gate: always a row.
pub fn add_gate(rows: &mut [u32], used: usize, a: u32, b: u32) -> Grown
    requires { used ≤ step_limit }
    ensures { state_of rows.new result ≡ add_gate rows.old used a b }
{
    let (first, second) = ordered(a, b);
    add_row(rows, used, first, second);
    Grown {
        used: used + 1,
        edge: 2 * (used as u32),
    }
}

// The edge that the AND of two edges in order is already, if there is one. Of edges in order the second is a constant only where the first is one, and equal and complementary edges have one id: so two questions do.
fn folded(a: u32, b: u32) -> Option<u32>
    requires { Sorted a b }
    ensures { result ≡ folded a b }
{
    if a < 2 {
        return Some(if a == 1 { b } else { 0 });
    }
    if a / 2 == b / 2 {
        return Some(if a == b { a } else { 0 });
    }
    None
}

// The AND of two edges: what it folds to, or a gate.
pub fn add_and(rows: &mut [u32], used: usize, a: u32, b: u32) -> Grown
    requires { used ≤ step_limit }
    ensures { state_of rows.new result ≡ add_and rows.old used a b }
{
    let (first, second) = ordered(a, b);
    match folded(first, second) {
        Some(edge) => Grown { used, edge },
        None => add_gate(rows, used, a, b),
    }
}

// The one or the other. A flag and not a closure: contracts name the step by it.
pub fn add_step(rows: &mut [u32], used: usize, trivial: bool, a: u32, b: u32) -> Grown
    requires { used ≤ step_limit }
    ensures { state_of rows.new result ≡ add_step trivial rows.old used a b }
{
    if trivial {
        add_gate(rows, used, a, b)
    } else {
        add_and(rows, used, a, b)
    }
}
