// The cone of edges: their rows and all fanins below.
#![tactic(auto)]

pub mod below;

ghost use Rattle.std.specs.Prelude.{◌≡◌, true, ◌&&◌, ◌*◌, ◌≤◌, length};
ghost use Rattle.std.specs.List.{list_all};
ghost use Rattle.graph.specs.Leaves.{used_edge};
ghost use Rattle.graph.specs.Graph.{lent_of};
ghost use Rattle.root_marks.specs.Arguments.{every};
ghost use Rattle.cone.specs.Cone.{cone_of};
ghost use Rattle.cone.specs.Call.{cone_seen, cone_call};

use below::mark_below;
use edge::Refusal;
use graph::Graph;
use graph::lists::all_used;
use graph::marks::clear;
use root_marks::{asked, mark_edges};
use rows::sizes::MAX_ENTRIES;

// The flags of the cone, one for each used row. What they held does not matter.
fn write(rows: &[u32], roots: &[u32], flags: &mut [u32])
    requires flags_in_bounds { 2 * length flags.old ≤ length rows.now }
    requires roots_value { every (used_edge (length flags.old)) roots.now ≡ true }
    ensures { flags.new ≡ cone_of rows.now (length flags.old) roots.now }
{
    let used = flags.len();
    clear(flags, used);
    mark_edges(roots, flags);
    mark_below(rows, flags);
}

// Is every root an edge to a used row? Where there is no room the roots, which may be any number, are not looked at.
fn roots_good(room: bool, roots: &[u32], used: usize) -> bool
    ensures { result ≡ (room && list_all (used_edge used) roots.now) }
{
    room && all_used(roots, used)
}

// Flags the rows of the roots and all fanins below, not across latches: 0 or 1 for each used row. A root whose row is not used: 4.
pub fn fanin_logic_cone(
    graph: &Graph,
    roots: &[u32],
    flags: &mut [u32],
    marks: &mut [u32],
) -> Result<(), Refusal>
    ensures { cone_seen result flags.new marks.new ≡ cone_call (lent_of graph.now) roots.now flags.old marks.old }
{
    let used = graph.counts.rows;
    let room = (used <= flags.len()) & (roots.len() <= MAX_ENTRIES);
    asked(graph, room, roots_good(room, roots, used), marks)?;
    write(graph.rows, roots, &mut flags[..used]);
    Ok(())
}
