// Why a call is refused, and an answer as document 01 writes it.
ghost use Rattle.std.specs.Prelude.{◌≡◌, eqb};
ghost use Rattle.edge.specs.Answers.{given, number_of, refused, told};

// The lists of a graph, in document 01's order, which numbers them 1 to 7.
#[derive(Clone, Copy, PartialEq, Eq)]
pub enum List {
    Inputs,
    Latches,
    Constraints,
    Bads,
    Outputs,
    Justice,
    Fairness,
}

// Document 01's numbers 1 to 5, in its order. A call that is done answers `Ok`.
#[derive(Clone, Copy, PartialEq, Eq)]
pub enum Refusal {
    BadSizes,
    BadRow(usize),
    // The list by its number: what is told of a refusal is promised of every number, whether a list has it or not.
    BadEntry {
        list: u8,
        index: usize,
        second: usize,
    },
    BadArgument,
    NoRoom,
}

// An answer as document 01 writes it: its number, and its place, which is a row, or a list, an index and a second index.
#[derive(Clone, Copy, PartialEq, Eq)]
pub struct Given {
    pub number: u8,
    pub place: usize,
    pub index: usize,
    pub second: usize,
}

fn numbered(number: u8, place: usize, index: usize, second: usize) -> Given
    ensures { result ≡ given number place index second }
{
    Given {
        number,
        place,
        index,
        second,
    }
}

impl From<List> for u8 {
    ghost from_gives = { λ list number. number ≡ number_of list };

    fn from(list: List) -> u8 {
        match list {
            List::Inputs => 1,
            List::Latches => 2,
            List::Constraints => 3,
            List::Bads => 4,
            List::Outputs => 5,
            List::Justice => 6,
            List::Fairness => 7,
        }
    }
}

impl From<List> for usize {
    ghost from_gives = { λ list number. number ≡ number_of list };

    fn from(list: List) -> usize {
        usize::from(u8::from(list))
    }
}

impl From<Refusal> for Given {
    ghost from_gives = { λ refusal given. given ≡ refused refusal };

    fn from(refusal: Refusal) -> Given {
        match refusal {
            Refusal::BadSizes => numbered(1, 0, 0, 0),
            Refusal::BadRow(row) => numbered(2, row, 0, 0),
            Refusal::BadEntry {
                list,
                index,
                second,
            } => numbered(3, usize::from(list), index, second),
            Refusal::BadArgument => numbered(4, 0, 0, 0),
            Refusal::NoRoom => numbered(5, 0, 0, 0),
        }
    }
}

pub fn told(answer: Result<(), Refusal>) -> Given
    ensures { result ≡ told answer }
{
    match answer {
        Ok(()) => numbered(0, 0, 0, 0),
        Err(refusal) => Given::from(refusal),
    }
}

// By number 0 of document 01, which the promise names.
pub fn is_done(answer: Result<(), Refusal>) -> bool
    ensures { result ≡ eqb (told answer).number 0 }
{
    told(answer).number == 0
}
