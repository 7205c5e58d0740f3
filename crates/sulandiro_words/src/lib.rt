// Numbers that pass between a caller and the library in slices of words: counts, and what a call answers.
#![tactic(auto)]

ghost use Rattle.std.specs.Prelude.{◌≡◌, [], ◌∷◌, get_or, set};
ghost use Rattle.std.proofs.lemmas.List.Edits.{sets};
ghost use Rattle.edge.specs.Answers.{told as told_of, value_or};
ghost use Rattle.sulandiro_words.specs.Words.{counts_in, given_words, count_words};
ghost use Rattle.sulandiro_words.specs.Told.{told_words, told_rebuilt};

use edge::Refusal;
use graph::Counts;

// Word i, and 0 where there is none.
fn at(words: &[u64], i: usize) -> usize
    ensures { result ≡ get_or words.now i 0 }
{
    words.get(i).map_or(0, |word| *word as usize)
}

// The nine counts, in the order of `Counts`; one that is not there is 0.
pub fn counts_in(words: &[u64]) -> Counts
    ensures { result ≡ counts_in words.now }
{
    Counts {
        rows: at(words, 0),
        inputs: at(words, 1),
        latches: at(words, 2),
        constraints: at(words, 3),
        bads: at(words, 4),
        outputs: at(words, 5),
        sets: at(words, 6),
        edges: at(words, 7),
        fairness: at(words, 8),
    }
}

// Writes a word, where there is room for it. By the length: `get_mut` was tried, and its proof had to cite names of the prover's own.
pub fn put(words: &mut [u64], i: usize, w: u64)
    ensures { words.new ≡ set words.old i w }
{
    if words.len() <= i {
        return;
    }
    words[i] = w;
}

// Writes the number and the place of an answer: four words, as far as there is room.
pub fn tell(words: &mut [u64], answer: Result<(), Refusal>)
    ensures { words.new ≡ sets words.old 0 (given_words (told_of answer)) }
{
    let given = edge::told(answer);
    put(words, 0, given.number as u64);
    put(words, 1, given.place as u64);
    put(words, 2, given.index as u64);
    put(words, 3, given.second as u64);
}

// Writes the nine counts behind them.
pub fn tell_counts(words: &mut [u64], n: Counts)
    ensures { words.new ≡ sets words.old 4 (count_words n) }
{
    put(words, 4, n.rows as u64);
    put(words, 5, n.inputs as u64);
    put(words, 6, n.latches as u64);
    put(words, 7, n.constraints as u64);
    put(words, 8, n.bads as u64);
    put(words, 9, n.outputs as u64);
    put(words, 10, n.sets as u64);
    put(words, 11, n.edges as u64);
    put(words, 12, n.fairness as u64);
}

// Writes an answer, and behind it the word that comes with it, which is the one given where it is refused.
pub fn tell_word(words: &mut [u64], answer: Result<u64, Refusal>, given: u64)
    ensures { words.new ≡ told_words words.old (told_of answer) (value_or given answer ∷ []) }
{
    tell(words, answer.map(|_| ()));
    put(words, 4, answer.unwrap_or(given));
}

// Writes what a call that rebuilds a graph answers: the answer, then the counts, which are those given where it is refused.
pub fn tell_rebuilt(told: &mut [u64], answer: Result<Counts, Refusal>, given: Counts)
    ensures { told.new ≡ told_rebuilt told.old (told_of answer) (value_or given answer) }
{
    tell(told, answer.map(|_| ()));
    tell_counts(told, answer.unwrap_or(given));
}
