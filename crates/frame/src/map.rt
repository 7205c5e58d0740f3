// The map of a frame: one word a row of `from`, the edge that stands for it in the target, or none.
// Memory is lent with room beyond the used entries, and a promise speaks of all that is lent: so how many are used stands beside a table.
ghost use Rattle.std.specs.Prelude.{◌≡◌, ◌+◌, ◌*◌, ◌≤◌, ◌<◌, length};
ghost use Rattle.edge.specs.Edges.{id_of};
ghost use Rattle.rows.specs.Sizes.{max_rows};
ghost use Rattle.graph.specs.Graph.{lent_of};
ghost use Rattle.graph.specs.Latches.{latch_words};
ghost use Rattle.output.specs.Writing.{written};
ghost use Rattle.output.specs.Tables.{lent_in, SameLists};
ghost use Rattle.renumber.specs.Renumber.{lists_of};
ghost use Rattle.renumber.specs.Steps.{UsedEdges};
ghost use Rattle.frame.specs.Map.{mapped as mapped_by, start_map, mapped_of, nexts_set, lists_grown};
ghost use Rattle.frame.specs.Steps.{LatchesWithin, NextsUsed, ListsReady};
ghost use Rattle.frame.specs.Steps.{new_leaves};

use graph::latch::{latch_at, with_next, write_latch};
use graph::{Counts, Graph};
use output::{Tables, write_each};
use renumber::write_ends;
use rows::kinds::NONE;

// The map at the start, where no row is mapped yet but these: row 0 stays false, and each latch input goes to the target's next.
pub fn start_map(target: &Graph, map: &mut [u32])
    requires map_nonzero { 0 < length map.old }
    requires latches_within { LatchesWithin target.now.latches.now target.now.counts.latches (length map.old) }
    ensures { map.new ≡ start_map target.now.latches.now target.now.counts.latches (length map.old) }
{
    map.fill(NONE);
    map[0] = 0;
    for j in 0..target.counts.latches {
        let l = latch_at(target.latches, j);
        map[l.input as usize] = l.next;
    }
}

// How many leaves of `from` the map has no edge for yet: each becomes an input. Of rows that are sound the first word tells a leaf.
pub fn new_leaves(from: &[u32], map: &[u32]) -> usize
    requires { (2 * length map.now ≤ length from.now) × (length map.now ≤ max_rows) }
    ensures { result ≡ new_leaves from.now map.now 0 (length map.now) }
{
    // A count of 32 bits: the compiler adds up more of them at once.
    let mut n = 0u32;
    for i in 0..map.len() {
        if (from[2 * i] == NONE) & (map[i] == NONE) {
            n += 1;
        }
    }
    n as usize
}

// The edge that stands for an edge of `from`.
pub fn mapped(map: &[u32], e: u32) -> u32
    requires { id_of e < length map.now }
    ensures { result ≡ mapped_by map.now e }
{
    edge::not_if(map[(e / 2) as usize], edge::compl(e))
}

// Writes n mapped edges from place `at` on. Not the `write_edges` of `renumber`: this map gives edges, that one ids.
fn write_mapped(out: &mut [u32], at: usize, list: &[u32], n: usize, map: &[u32])
    requires n_in_bounds { at + n ≤ length out.old }
    requires used_edges { UsedEdges (length map.now) list.now n }
    ensures { out.new ≡ written out.old at (mapped_of map.now list.now) n }
{
    write_each(out, at, &list[..n], |e| mapped(map, e));
}

// The first n latches take the mapped next of `from`'s. Input and init stay.
fn write_nexts(latches: &mut [u32], from: &[u32], n: usize, map: &[u32])
    requires n_in_bounds { latch_words * n ≤ length latches.old }
    requires nexts_used { NextsUsed (length map.now) from.now n }
    ensures { latches.new ≡ nexts_set map.now latches.old from.now n }
{
    for j in 0..n {
        let next = mapped(map, latch_at(from, j).next);
        let l = latch_at(latches, j);
        write_latch(latches, j, with_next(l, next));
    }
}

// The latches, and each root list grown by the graph's mapped entries, justice by whole sets.
// Not one function with `write_lists` of `renumber`: latches are set in place here and written behind there, and each promise names its map, which a closure would hide.
pub fn grow_lists(tables: &mut Tables, at: Counts, graph: &Graph, map: &[u32])
    requires { ListsReady map.now (lists_of (lent_in tables.old at)) at (lists_of (lent_of graph.now)) graph.now.counts }
    ensures same_lists { SameLists tables.new tables.old }
    ensures leaves_kept { (tables.new.rows.now ≡ tables.old.rows.now) × (tables.new.inputs.now ≡ tables.old.inputs.now) }
    ensures lists_grown { lists_of (lent_in tables.new at) ≡ lists_grown map.now (lists_of (lent_in tables.old at)) at (lists_of (lent_of graph.now)) graph.now.counts }
{
    let n = graph.counts;
    write_nexts(tables.latches, graph.latches, n.latches, map);
    write_mapped(
        tables.constraints,
        at.constraints,
        graph.constraints,
        n.constraints,
        map,
    );
    write_mapped(tables.bads, at.bads, graph.bads, n.bads, map);
    write_mapped(tables.outputs, at.outputs, graph.outputs, n.outputs, map);
    write_ends(tables.ends, at.sets, graph.ends, n.sets, at.edges as u32);
    write_mapped(tables.edges, at.edges, graph.edges, n.edges, map);
    write_mapped(
        tables.fairness,
        at.fairness,
        graph.fairness,
        n.fairness,
        map,
    );
}
