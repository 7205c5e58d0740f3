// Three-valued codes: 0 false, 1 true, 2 unknown. They stay bytes, since a state lent to a call is one such byte a latch.
ghost use Rattle.std.specs.Prelude.{◌≡◌, ◌<◌, length};
ghost use Rattle.edge.specs.Edges.{id_of};
ghost use Rattle.ternary_run.specs.Codes.{and3, not3, edge3, all_codes};

pub const UNKNOWN: u8 = 2;

// The nine answers of the three-valued AND, rows and columns in the order false, true, unknown. A look-up needs no branch, and a run makes one for every gate.
const AND3: [u8; 9] = [0, 0, 0, 0, 1, 2, 0, 2, 2];

pub fn and3(a: u8, b: u8) -> u8
    requires { (a < 3) × (b < 3) }
    ensures { result ≡ and3 a b }
{
    AND3[3 * (a as usize) + (b as usize)]
}

fn not3(a: u8) -> u8
    ensures { result ≡ not3 a }
{
    match a {
        0 => 1,
        1 => 0,
        _ => a,
    }
}

// The code of an edge, by its row's.
pub fn edge_code(values: &[u8], e: u32) -> u8
    requires { id_of e < length values.now }
    ensures { result ≡ edge3 values.now e }
{
    let i = edge::node_id(e) as usize;
    if edge::compl(e) {
        return not3(values[i]);
    }
    values[i]
}

// Is there no code above 2?
pub fn all_codes(list: &[u8]) -> bool
    ensures { result ≡ all_codes list.now }
{
    list.iter().all(|code| *code <= UNKNOWN)
}
