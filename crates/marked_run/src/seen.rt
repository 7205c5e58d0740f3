// What is seen of a call, laid out as the table has it: lists, each with its length before it.
use crate::parts::Lists;
use edge::Refusal;
use graph::Counts;
use std::io;

// The words so far: as many as there is room for.
#[derive(Drop)]
pub struct Seen<'a> {
    room: &'a mut [u32],
    // How many there are so far. The room is lent, so it is no `Vec`.
    at: usize,
}

impl<'a> Seen<'a> {
    pub fn new(room: &'a mut [u32]) -> Seen<'a> {
        Seen { room, at: 0 }
    }

    pub fn words(&self) -> &[u32] {
        if self.room.len() < self.at {
            return &[];
        }
        &self.room[..self.at]
    }

    // Words with no length before them.
    pub fn put(&mut self, words: &[u32]) {
        for word in words {
            if self.at < self.room.len() {
                self.room[self.at] = *word;
                self.at += 1;
            }
        }
    }

    pub fn put_list(&mut self, words: &[u32]) {
        self.put(&[word_of(words.len())]);
        self.put(words);
    }

    // Bytes stand one a word.
    pub fn put_bytes(&mut self, bytes: &[u8]) {
        self.put(&[word_of(bytes.len())]);
        for byte in bytes {
            self.put(&[u32::from(*byte)]);
        }
    }

    // The number and the place of an answer.
    pub fn put_answer(&mut self, answer: Result<(), Refusal>) {
        let given = edge::told(answer);
        self.put_list(&[
            u32::from(given.number),
            word_of(given.place),
            word_of(given.index),
            word_of(given.second),
        ]);
    }
}

// The nine counts as words, one by one: they are fields of a struct.
pub fn counted(n: Counts) -> [u32; 9] {
    [
        word_of(n.rows),
        word_of(n.inputs),
        word_of(n.latches),
        word_of(n.constraints),
        word_of(n.bads),
        word_of(n.outputs),
        word_of(n.sets),
        word_of(n.edges),
        word_of(n.fairness),
    ]
}

// A number that is no word stands as the largest one, which is no count and no length of a marked case.
pub fn word_of(size: usize) -> u32 {
    u32::try_from(size).unwrap_or(u32::MAX)
}

// Prints the lists, each after a bar.
pub fn say_lists(rt: &impl Print, words: &[u32]) -> io::Result<()> {
    for list in Lists(words) {
        print!(rt; " |")?;
        for word in list {
            print!(rt; " {word}")?;
        }
    }
    Ok(())
}
