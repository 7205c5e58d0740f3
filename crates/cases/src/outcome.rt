// What a call leaves beside the slices: its answer and its results.
use build_leaves::{Added, Built};
use edge::{Given, Refusal, told};
use graph::Counts;
use std::fmt;

#[derive(Clone, Copy)]
pub struct Outcome {
    answer: Given,
    results: Results,
}

// Counts stand for nine results.
#[derive(Clone, Copy)]
pub enum Results {
    Nothing,
    One(u64),
    Two(u64, u64),
    Counts(Counts),
    CountsAnd(Counts, u64),
}

impl Outcome {
    // What a call answers, and what its results are where it is refused.
    pub fn of<T: Into<Results> + Drop>(answer: Result<T, Refusal>, refused: T) -> Outcome {
        match answer {
            Ok(value) => Outcome::done(value),
            Err(refusal) => Outcome {
                answer: Given::from(refusal),
                results: refused.into(),
            },
        }
    }

    // What a call that is not refused leaves.
    pub fn done<T: Into<Results>>(value: T) -> Outcome {
        Outcome {
            answer: told(Ok(())),
            results: value.into(),
        }
    }
}

impl From<()> for Results {
    fn from(_nothing: ()) -> Results {
        Results::Nothing
    }
}

impl From<bool> for Results {
    fn from(truth: bool) -> Results {
        Results::One(u64::from(truth))
    }
}

// Which constant: 2 where it is neither.
impl From<Option<bool>> for Results {
    fn from(constant: Option<bool>) -> Results {
        Results::One(constant.map_or(2, |truth| u64::from(truth)))
    }
}

impl From<u8> for Results {
    fn from(code: u8) -> Results {
        Results::One(u64::from(code))
    }
}

impl From<u32> for Results {
    fn from(word: u32) -> Results {
        Results::One(u64::from(word))
    }
}

impl From<usize> for Results {
    fn from(size: usize) -> Results {
        Results::One(size as u64)
    }
}

impl From<(u32, u32)> for Results {
    fn from(pair: (u32, u32)) -> Results {
        let (first, second) = pair;
        Results::Two(u64::from(first), u64::from(second))
    }
}

impl From<Counts> for Results {
    fn from(counts: Counts) -> Results {
        Results::Counts(counts)
    }
}

impl From<Built> for Results {
    fn from(built: Built) -> Results {
        Results::CountsAnd(built.counts, u64::from(built.edge))
    }
}

impl From<Added> for Results {
    fn from(added: Added) -> Results {
        Results::CountsAnd(added.counts, u64::from(added.id))
    }
}

// The number and the place of the answer, how many results there are, and the results.
impl fmt::Display for Outcome {
    fn fmt<W: fmt::Write>(&self, f: &mut fmt::Formatter<W>) -> fmt::Result {
        let Given {
            number,
            place,
            index,
            second,
        } = self.answer;
        write!(f, "{number} {place} {index} {second} ")?;
        match self.results {
            Results::Nothing => write!(f, "0"),
            Results::One(x) => write!(f, "1 {x}"),
            Results::Two(x, y) => write!(f, "2 {x} {y}"),
            Results::Counts(counts) => {
                write!(f, "9")?;
                write_counts(f, counts)
            }
            Results::CountsAnd(counts, x) => {
                write!(f, "10")?;
                write_counts(f, counts)?;
                write!(f, " {x}")
            }
        }
    }
}

fn write_counts<W: fmt::Write>(f: &mut fmt::Formatter<W>, counts: Counts) -> fmt::Result {
    let Counts {
        rows,
        inputs,
        latches,
        constraints,
        bads,
        outputs,
        sets,
        edges,
        fairness,
    } = counts;
    write!(
        f,
        " {rows} {inputs} {latches} {constraints} {bads} {outputs} {sets} {edges} {fairness}"
    )
}
