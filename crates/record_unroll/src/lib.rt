// Unrolling for callers whose latches are records; and, for `record_bridge`, the same on words that are read into records.
// Memory is lent with room beyond the used entries, and a promise speaks of all that is lent: so how many are used stands beside a table.
#![tactic(auto)]

ghost use Rattle.std.specs.Prelude.{◌≡◌, ◌*◌, length};
ghost use Rattle.edge.specs.Answers.{value_or};
ghost use Rattle.graph.specs.Graph.{lent_of};
ghost use Rattle.graph.specs.Latches.{latch_words};
ghost use Rattle.output.specs.Tables.{lent_in, SameLists};
ghost use Rattle.renumber.specs.Seen.{rebuilt_seen};
ghost use Rattle.unroll.specs.Unroll.{unroll_call};
ghost use Rattle.records.specs.Checking.{with_words};
ghost use Rattle.records.specs.Held.{held};
ghost use Rattle.records.specs.Table.{front, behind};
ghost use Rattle.records.specs.Local.{table_size};
ghost use Rattle.records.specs.Steps.{fronted, on_both};
ghost use Rattle.records.specs.Pairing.{pair_seen, on_both_records};
ghost use Rattle.record_unroll.specs.Call.{unroll_with, unroll_refused};
ghost use Rattle.record_unroll.specs.Tables.{on_full};

use edge::Refusal;
use graph::latch::{LATCH_WORDS, Latch};
use graph::{Counts, Graph};
use output::Tables;
use records::{NO_LATCH, TABLE_SIZE, nexts_back, records_back, to_words, wipe};

// Unrolls with other words as the latches of the tables.
fn unroll_on(
    tables: &mut Tables,
    counts: Counts,
    latches: &mut [u32],
    graph: &Graph,
    marks: &mut [u32],
) -> Result<Counts, Refusal>
    ensures same_lists { SameLists tables.new tables.old }
    ensures latches_kept { tables.new.latches.now ≡ tables.old.latches.now }
    ensures unrolled { rebuilt_seen result (with_words (lent_in tables.new (value_or counts result)) latches.new) marks.new
        ≡ unroll_call (with_words (lent_in tables.old counts) latches.old) (lent_of graph.now) marks.old }
{
    // Not `..tables`: the other lists are lent on, not moved.
    let mut target = Tables {
        rows: tables.rows,
        inputs: tables.inputs,
        latches,
        constraints: tables.constraints,
        bads: tables.bads,
        outputs: tables.outputs,
        ends: tables.ends,
        edges: tables.edges,
        fairness: tables.fairness,
    };
    unroll::unroll(&mut target, counts, graph, marks)
}

// Unrolls with the first n latches of the work words as those of the tables, and the first n2 of `words2` as those of the graph.
fn unroll_words(
    tables: &mut Tables,
    counts: Counts,
    n: usize,
    words: &mut [u32],
    graph: &Graph,
    n2: usize,
    words2: &[u32],
    marks: &mut [u32],
) -> Result<Counts, Refusal>
    ensures same_lists { SameLists tables.new tables.old }
    ensures latches_kept { tables.new.latches.now ≡ tables.old.latches.now }
    ensures unrolled { fronted (rebuilt_seen result (with_words (lent_in tables.new (value_or counts result)) (front n words.new)) marks.new) (behind n words.new)
        ≡ on_both n words.old n2 words2.now (unroll_with (lent_in tables.old counts) (lent_of graph.now) marks.old) (unroll_refused (lent_in tables.old counts) marks.old) }
{
    if words.len() / LATCH_WORDS < n {
        return Err(Refusal::BadSizes);
    }
    if words2.len() / LATCH_WORDS < n2 {
        return Err(Refusal::BadSizes);
    }
    let m = LATCH_WORDS * n;
    let m2 = LATCH_WORDS * n2;
    let from = Graph {
        latches: &words2[..m2],
        ..*graph
    };
    unroll_on(tables, counts, &mut words[..m], &from, marks)
}

// Adds a frame of the graph to the one that stands in the tables. The latches of both are records, and of the first's the nexts are written. Neither lends words for
// them, so the fields `latches` of the tables and of the graph are not looked at.
pub fn unroll(
    tables: &mut Tables,
    counts: Counts,
    latches: &mut [Latch],
    graph: &Graph,
    latches2: &[Latch],
    words: &mut [u32],
    words2: &mut [u32],
    marks: &mut [u32],
) -> Result<Counts, Refusal>
    ensures same_lists { SameLists tables.new tables.old }
    ensures latches_kept { tables.new.latches.now ≡ tables.old.latches.now }
    ensures unrolled { pair_seen (rebuilt_seen result (held (lent_in tables.new (value_or counts result)) latches.new) marks.new) words.new words2.new
        ≡ on_both_records latches.old words.old latches2.now words2.old
        (unroll_with (lent_in tables.old counts) (lent_of graph.now) marks.old) (unroll_refused (lent_in tables.old counts) marks.old) }
{
    let n = latches.len();
    let n2 = latches2.len();
    to_words(latches, words);
    to_words(latches2, words2);
    let answer = unroll_words(tables, counts, n, words, graph, n2, words2, marks);
    nexts_back(latches, words);
    wipe(words, n);
    wipe(words2, n2);
    answer
}

// On words that lend a table of latches each: read into records, unrolled as records, and the first graph's written back.
pub fn unroll_tables(
    tables: &mut Tables,
    counts: Counts,
    graph: &Graph,
    words: &mut [u32],
    words2: &mut [u32],
    marks: &mut [u32],
) -> Result<Counts, Refusal>
    requires { (length tables.old.latches.now ≡ latch_words * table_size) × (length graph.now.latches.now ≡ latch_words * table_size) }
    ensures same_lists { SameLists tables.new tables.old }
    ensures unrolled { pair_seen (rebuilt_seen result (lent_in tables.new (value_or counts result)) marks.new) words.new words2.new
        ≡ on_full tables.old.latches.now words.old graph.now.latches.now words2.old
        (unroll_with (lent_in tables.old counts) (lent_of graph.now) marks.old) (unroll_refused (lent_in tables.old counts) marks.old) }
{
    let mut table = [NO_LATCH; TABLE_SIZE];
    let mut table2 = [NO_LATCH; TABLE_SIZE];
    records_back(&mut table, tables.graph(counts).latches);
    records_back(&mut table2, graph.latches);
    let answer = unroll(
        tables, counts, &mut table, graph, &table2, words, words2, marks,
    );
    to_words(&table, tables.latches);
    answer
}
