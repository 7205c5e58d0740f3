// Steps over edges: a list of them, and equality.
ghost use Rattle.std.specs.Prelude.{◌≡◌, ◌+◌, ◌≤◌, length};
ghost use Rattle.rows.specs.Sizes.{max_rows, max_entries};
ghost use Rattle.gates.specs.Gates.{state_of};
ghost use Rattle.gates.specs.Lists.{list_of, eq_of};

use crate::{Grown, add_and, add_step};

// The AND of a list of edges, or their OR: the complement of the AND of the complements. Two flags and not closures: contracts name the list by them.
pub fn add_list(rows: &mut [u32], used: usize, trivial: bool, or: bool, edges: &[u32]) -> Grown
    requires used_bound { used ≤ max_rows + 2 }
    requires edges_len_bound { length edges.now ≤ max_entries }
    ensures { state_of rows.new result ≡ list_of trivial or rows.old used edges.now }
{
    let Some((first, rest)) = edges.split_first() else {
        return Grown {
            used,
            edge: edge::not_if(1, or),
        };
    };
    let mut grown = Grown {
        used,
        edge: edge::not_if(*first, or),
    };
    for e in rest {
        grown = add_step(rows, grown.used, trivial, grown.edge, edge::not_if(*e, or));
    }
    Grown {
        edge: edge::not_if(grown.edge, or),
        ..grown
    }
}

// Are two edges equal: both true, or both false.
pub fn add_eq(rows: &mut [u32], used: usize, a: u32, b: u32) -> Grown
    requires { used ≤ max_rows }
    ensures { state_of rows.new result ≡ eq_of rows.old used a b }
{
    let x = add_and(rows, used, a, b);
    let y = add_and(rows, x.used, edge::not(a), edge::not(b));
    add_list(rows, y.used, false, true, &[x.edge, y.edge])
}
