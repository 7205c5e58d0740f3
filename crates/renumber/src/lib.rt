// Writing the lists of a graph anew, every edge and id by a map from old row numbers to new ones.
// Memory is lent with room beyond the used entries, and a promise speaks of all that is lent: so how many are used stands beside a table.
#![tactic(auto)]

ghost use Rattle.std.specs.Prelude.{◌≡◌, ◌+◌, ◌*◌, ◌<◌, ◌^◌};
ghost use Rattle.graph.specs.Graph.{lent_of};
ghost use Rattle.output.specs.Writing.{written};
ghost use Rattle.output.specs.Tables.{lent_in, SameLists};
ghost use Rattle.renumber.specs.Renumber.{renamed as renamed_by, renamed_latch, edges_of, ids_of, ends_of, latches_written, lists_of, renumber, by};
ghost use Rattle.renumber.specs.Steps.{Mapped, MappedEdge, MappedLatch, IdsReady, EdgesReady, LatchesReady, EndsReady, ListsReady};

use graph::latch::{Latch, latch_at, with_edges, write_latch};
use graph::{Counts, Graph};
use output::{Tables, write_each};
use rows::kinds::NONE;

// The edge to the new number of its row, with its sign. It is not the none word: the words of a gate never are.
pub fn renamed_edge(e: u32, map: &[u32]) -> u32
    requires { MappedEdge map.now e }
    ensures { result ≡ renamed_by (by map.now) e }
{
    2 * map[(e / 2) as usize] + e % 2
}

// The same, where the word may be none, which stays.
fn renamed(e: u32, map: &[u32]) -> u32
    requires { Mapped map.now e }
    ensures { result ≡ renamed_by (by map.now) e }
{
    if e == NONE {
        return e;
    }
    renamed_edge(e, map)
}

// Writes n edges from place `at` on.
fn write_edges(out: &mut [u32], at: usize, list: &[u32], n: usize, map: &[u32])
    requires { EdgesReady map.now out.old at list.now n }
    ensures { out.new ≡ written out.old at (edges_of (by map.now) list.now) n }
{
    write_each(out, at, &list[..n], |e| renamed(e, map));
}

// Writes n ids: the map gives each as it is.
pub fn write_ids(out: &mut [u32], at: usize, list: &[u32], n: usize, map: &[u32])
    requires { IdsReady map.now out.old at list.now n }
    ensures { out.new ≡ written out.old at (ids_of (by map.now) list.now) n }
{
    write_each(out, at, &list[..n], |id| map[id as usize]);
}

// Justice ends, each `by` further.
pub fn write_ends(out: &mut [u32], at: usize, ends: &[u32], n: usize, by: u32)
    requires { EndsReady by out.old at ends.now n }
    ensures { out.new ≡ written out.old at (ends_of by ends.now) n }
{
    write_each(out, at, &ends[..n], |end| end + by);
}

fn renamed_latch(l: Latch, map: &[u32]) -> Latch
    requires { MappedLatch map.now l }
    ensures { result ≡ renamed_latch (by map.now) l }
{
    with_edges(
        l,
        map[l.input as usize],
        renamed(l.next, map),
        renamed(l.init, map),
    )
}

fn write_latches(out: &mut [u32], at: usize, latches: &[u32], n: usize, map: &[u32])
    requires { LatchesReady map.now out.old at latches.now n }
    ensures { out.new ≡ latches_written (by map.now) out.old at latches.now n }
{
    for j in 0..n {
        let l = renamed_latch(latch_at(latches, j), map);
        write_latch(out, at + j, l);
    }
}

// Writes every list of the graph but the inputs behind the entries that `at` counts. Justice goes by whole sets.
pub fn write_lists(tables: &mut Tables, at: Counts, graph: &Graph, map: &[u32])
    requires edges_bound { at.edges < 2 ^ 32 }
    requires lists_ready { ListsReady map.now (lists_of (lent_in tables.old at)) at (lists_of (lent_of graph.now)) graph.now.counts }
    ensures same_lists { SameLists tables.new tables.old }
    ensures leaves_kept { (tables.new.rows.now ≡ tables.old.rows.now) × (tables.new.inputs.now ≡ tables.old.inputs.now) }
    ensures lists_written { lists_of (lent_in tables.new at) ≡ renumber (by map.now) (lists_of (lent_in tables.old at)) at (lists_of (lent_of graph.now)) graph.now.counts }
{
    let n = graph.counts;
    write_latches(tables.latches, at.latches, graph.latches, n.latches, map);
    write_edges(
        tables.constraints,
        at.constraints,
        graph.constraints,
        n.constraints,
        map,
    );
    write_edges(tables.bads, at.bads, graph.bads, n.bads, map);
    write_edges(tables.outputs, at.outputs, graph.outputs, n.outputs, map);
    write_ends(tables.ends, at.sets, graph.ends, n.sets, at.edges as u32);
    write_edges(tables.edges, at.edges, graph.edges, n.edges, map);
    write_edges(
        tables.fairness,
        at.fairness,
        graph.fairness,
        n.fairness,
        map,
    );
}
