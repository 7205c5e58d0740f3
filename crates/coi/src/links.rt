// Which latch has a row as its input: 1 + the latch, in the row's mark.
ghost use Rattle.std.specs.Prelude.{◌≡◌, length, replicate};
ghost use Rattle.coi.specs.Steps.{Links, LatchesKnown};

use graph::Graph;
use graph::latch::latch_at;

pub fn link(graph: &Graph, marks: &mut [u32])
    requires latches_known { LatchesKnown graph.now.latches.now graph.now.counts.latches (length marks.old) }
    requires marks_value { marks.old ≡ replicate (length marks.old) 0 }
    ensures { Links graph.now.latches.now graph.now.counts.latches marks.new }
{
    for k in 0..graph.counts.latches {
        let x = latch_at(graph.latches, k).input as usize;
        marks[x] = (k + 1) as u32;
    }
}
