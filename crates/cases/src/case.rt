// A case without its slots.
use graph::Counts;

// How many scalars a case may have.
pub const SCALARS: usize = 32;

#[derive(Clone, Copy)]
pub struct Case {
    // The number of the call. There is no enum of the calls: it would be a second table of the numbers, each of which stands once, beside its call.
    pub call: u64,
    // The arguments that are no slices. One that is not given is 0.
    pub scalars: [u64; SCALARS],
}

impl Case {
    fn number(&self, i: usize) -> u64 {
        self.scalars.get(i).copied().unwrap_or(0)
    }

    pub fn size(&self, i: usize) -> usize {
        self.number(i) as usize
    }

    // Modulo 2^32.
    pub fn word(&self, i: usize) -> u32 {
        (self.number(i) % 4294967296) as u32
    }

    pub fn truth(&self, i: usize) -> bool {
        self.number(i) != 0
    }

    // The counts of a graph, which are the first nine scalars.
    pub fn counts(&self) -> Counts {
        Counts {
            rows: self.size(0),
            inputs: self.size(1),
            latches: self.size(2),
            constraints: self.size(3),
            bads: self.size(4),
            outputs: self.size(5),
            sets: self.size(6),
            edges: self.size(7),
            fairness: self.size(8),
        }
    }
}
