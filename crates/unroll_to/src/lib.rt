// A copy of a graph, unrolled by a number of frames.
#![tactic(auto)]

ghost use Rattle.std.specs.Prelude.{◌≡◌, Err};
ghost use Rattle.edge.specs.Answers.{told};
ghost use Rattle.graph.specs.Graph.{lent_of};
ghost use Rattle.output.specs.Tables.{lent_in, SameLists};
ghost use Rattle.unroll_to.specs.declared.Unrolled.{Unrolled};
ghost use Rattle.unroll_to.specs.Frames.{frames as frames_of, frames_on};
ghost use Rattle.unroll_to.specs.Steps.{FramesReady};
ghost use Rattle.unroll_to.specs.Call.{frames_answer, frames_seen, unroll_to_call};

use edge::Refusal;
use frame::add_frame;
use graph::{Counts, Graph, no_counts};
use output::{Tables, asked, fits};

// At most so many frames.
const MAX_FRAMES: usize = 4096;

// What `unroll_to` answers, with the number of finished frames and the counts of the output. It is no `Result`, since here a refusal comes with both: at 5 the copy and the frames finished
// so far stand. After 1 to 4 the counts are as given, and where the copy itself does not fit they are 0.
#[derive(Clone, Copy)]
pub struct Unrolled {
    pub answer: Result<(), Refusal>,
    pub finished: usize,
    pub counts: Counts,
}

// How many frames are finished, and the counts of the target with them.
#[derive(Clone, Copy)]
struct Finished {
    finished: usize,
    counts: Counts,
}

// Adds frames of the graph to the one that stands in the tables, one after the other, up to the first that does not fit.
fn add_frames(
    tables: &mut Tables,
    counts: Counts,
    graph: &Graph,
    frames: usize,
    marks: &mut [u32],
) -> Finished
    requires { FramesReady (lent_in tables.old counts) (lent_of graph.now) marks.old }
    ensures same_lists { SameLists tables.new tables.old }
    ensures frames_added { frames_of result.finished (lent_in tables.new result.counts)
        ≡ frames_on (lent_of graph.now) frames (frames_of 0 (lent_in tables.old counts)) }
    ensures marks_unchanged { marks.new ≡ marks.old }
{
    let mut at = counts;
    for j in 0..frames {
        match add_frame(tables, at, graph, marks) {
            Some(after) => at = after,
            None => {
                return Finished {
                    finished: j,
                    counts: at,
                };
            }
        }
    }
    Finished {
        finished: frames,
        counts: at,
    }
}

// Done where all frames are finished, and else 5.
fn answer_of(finished: usize, frames: usize) -> Result<(), Refusal>
    ensures { told result ≡ frames_answer finished frames }
{
    if finished < frames {
        return Err(Refusal::NoRoom);
    }
    Ok(())
}

// Nothing was written.
fn refused(refusal: Refusal, counts: Counts) -> Unrolled
    ensures { result ≡ record { answer = Err refusal; finished = 0; counts = counts } }
{
    Unrolled {
        answer: Err(refusal),
        finished: 0,
        counts,
    }
}

// Writes a copy of the graph into the tables, and unrolls it by frames of the graph. More than 4,096 frames: 4. Where the room ends, the copy and the frames finished so far stand, and their
// number is answered; where the copy itself does not fit, nothing is written.
pub fn unroll_to(graph: &Graph, frames: usize, tables: &mut Tables, marks: &mut [u32]) -> Unrolled
    ensures same_lists { SameLists tables.new tables.old }
    ensures unrolled { frames_seen result (lent_in tables.new result.counts) marks.new
        ≡ unroll_to_call (lent_of graph.now) (lent_in tables.old graph.now.counts) frames marks.old }
{
    let counts = graph.counts;
    let room = tables.room();
    if let Err(refusal) = asked(graph, frames <= MAX_FRAMES, room, marks) {
        return refused(refusal, counts);
    }
    if !fits(room, counts) {
        return refused(Refusal::NoRoom, no_counts());
    }
    tables.copy(graph);
    let made = add_frames(tables, counts, graph, frames, marks);
    Unrolled {
        answer: answer_of(made.finished, frames),
        finished: made.finished,
        counts: made.counts,
    }
}
