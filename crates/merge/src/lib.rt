// Another graph is added to a graph. The two have row 0 in common, and the other rows of the second follow the used rows of the first.
#![tactic(auto)]

ghost use Rattle.std.specs.Prelude.{◌≡◌, ◌+◌, ◌≤◌, length};
ghost use Rattle.rows.specs.Sizes.{max_rows};
ghost use Rattle.edge.specs.Answers.{value_or};
ghost use Rattle.graph.specs.Graph.{lent_of};
ghost use Rattle.graph.specs.Check.{cleared, check_seen};
ghost use Rattle.output.specs.Writing.{written};
ghost use Rattle.output.specs.Tables.{lent_in, SameLists};
ghost use Rattle.renumber.specs.Renumber.{renamed, edges_of};
ghost use Rattle.merge.specs.Merge.{shifted as shifted_by, summed, merged, MergeLent};
ghost use Rattle.merge.specs.Steps.{Addable, Movable, RowsReady};
ghost use Rattle.renumber.specs.Seen.{rebuilt_seen};
ghost use Rattle.merge.specs.Call.{merge_checked, merge_call};

use edge::Refusal;
use graph::marks::clear;
use graph::{Counts, Graph};
use output::{Tables, fits, write_each};
use renumber::{write_ids, write_lists};
use rows::kinds::NONE;
use two_graphs::check_two;

// The new number of row i.
fn shifted(i: usize, by: usize) -> u32
    requires { i + by ≤ max_rows }
    ensures { result ≡ shifted_by by i }
{
    if i == 0 {
        return 0;
    }
    (i + by) as u32
}

// The map from the second graph's row numbers to the new ones. By index: of what is written through `iter_mut().enumerate()` no proof knows the words.
fn fill(map: &mut [u32], by: usize)
    requires { length map.old + by ≤ max_rows + 1 }
    ensures { map.new ≡ written map.old 0 (shifted_by by) (length map.old) }
{
    for i in 0..map.len() {
        map[i] = shifted(i, by);
    }
}

// A word of a row, `by` rows further. Constants and the none word stay.
fn moved(e: u32, by: u32) -> u32
    requires { Movable by e }
    ensures { result ≡ renamed (shifted_by by) e }
{
    if (e < 2) | (e == NONE) {
        return e;
    }
    e + 2 * by
}

// Writes words of rows from place `at` on. They are many: adding is cheaper than reading the map.
fn write_rows(out: &mut [u32], at: usize, words: &[u32], by: u32)
    requires { RowsReady by out.old at words.now }
    ensures { out.new ≡ written out.old at (edges_of (shifted_by by) words.now) (length words.now) }
{
    write_each(out, at, words, |word| moved(word, by));
}

// The counts of the whole.
fn sum(counts: Counts, more: Counts) -> Counts
    requires addable { Addable counts }
    requires addable_2 { Addable more }
    ensures { result ≡ summed counts more }
{
    Counts {
        rows: counts.rows + more.rows - 1,
        inputs: counts.inputs + more.inputs,
        latches: counts.latches + more.latches,
        constraints: counts.constraints + more.constraints,
        bads: counts.bads + more.bads,
        outputs: counts.outputs + more.outputs,
        sets: counts.sets + more.sets,
        edges: counts.edges + more.edges,
        fairness: counts.fairness + more.fairness,
    }
}

// Answers 1, 2, 3 and 5.
fn checked(tables: &Tables, counts: Counts, other: &Graph, marks: &mut [u32]) -> Result<(), Refusal>
    ensures { check_seen result marks.new ≡ merge_checked (lent_in tables.now counts) (lent_of other.now) marks.old }
{
    check_two(&tables.graph(counts), other, marks)?;
    if fits(tables.room(), sum(counts, other.counts)) {
        Ok(())
    } else {
        Err(Refusal::NoRoom)
    }
}

// The second graph's rows and entries behind those of the first. The marks hold the map, and are cleared.
fn write(tables: &mut Tables, counts: Counts, other: &Graph, marks: &mut [u32])
    requires { MergeLent (lent_in tables.old counts) (lent_of other.now) (length marks.old) }
    ensures same_lists { SameLists tables.new tables.old }
    ensures all_written { lent_in tables.new (summed counts other.now.counts) ≡ merged (lent_in tables.old counts) (lent_of other.now) }
    ensures marks_after { marks.new ≡ cleared other.now.counts.rows marks.old }
{
    let used = other.counts.rows;
    let by = counts.rows - 1;
    fill(&mut marks[..used], by);
    write_rows(
        tables.rows,
        2 * counts.rows,
        &other.rows[2..2 * used],
        by as u32,
    );
    write_ids(
        tables.inputs,
        counts.inputs,
        other.inputs,
        other.counts.inputs,
        marks,
    );
    write_lists(tables, counts, other, marks);
    clear(marks, used);
}

// Adds another graph to the one in the tables, and answers the counts of the whole: its ids other than 0 grow by the first's used rows less one, in every column. Justice goes by whole sets. A
// refusal changes nothing but the marks.
pub fn merge(
    tables: &mut Tables,
    counts: Counts,
    other: &Graph,
    marks: &mut [u32],
) -> Result<Counts, Refusal>
    ensures same_lists { SameLists tables.new tables.old }
    ensures merged { rebuilt_seen result (lent_in tables.new (value_or counts result)) marks.new ≡ merge_call (lent_in tables.old counts) (lent_of other.now) marks.old }
{
    checked(tables, counts, other, marks)?;
    write(tables, counts, other, marks);
    Ok(sum(counts, other.counts))
}
