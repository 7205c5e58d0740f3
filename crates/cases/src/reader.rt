// Numbers from standard input, through a buffer that is filled again when it is used up. The loops over the input count their turns: a proved loop has to end.
use crate::fault::Fault;
use std::io::{self, Read};

#[derive(Drop)]
pub struct Reader<'a, S> {
    source: &'a mut S,
    buffer: &'a mut [u8],
    // Which bytes of the buffer are still to be read: no slice of it, which could not be filled again beside it.
    at: usize,
    end: usize,
}

impl<'a, S: Read> Reader<'a, S> {
    pub fn new(source: &'a mut S, buffer: &'a mut [u8]) -> Reader<'a, S> {
        Reader {
            source,
            buffer,
            at: 0,
            end: 0,
        }
    }

    // The next number, below 2^64: none where the input ends before one. Words that begin with anything but a digit are passed over.
    pub fn number_if_any(&mut self) -> Result<Option<u64>, Fault> {
        if self.to_digit()? {
            let number = self.digits()?;
            return Ok(Some(number));
        }
        Ok(None)
    }

    // The next number, of which there has to be one.
    pub fn number(&mut self) -> Result<u64, Fault> {
        self.number_if_any()?.ok_or(Fault::Unreadable)
    }

    // The next number, which has to be below 2^32.
    pub fn word(&mut self) -> Result<u32, Fault> {
        u32::try_from(self.number()?).map_err(|_| Fault::Unreadable)
    }

    // Goes on to the first digit that begins a word. Is there one before the input ends?
    fn to_digit(&mut self) -> io::Result<bool> {
        let mut in_word = false;
        for _ in 0..u64::MAX {
            for (n, byte) in self.rest().iter().enumerate() {
                if byte.is_ascii_digit() & !in_word {
                    self.pass(n);
                    return Ok(true);
                }
                in_word = b' ' < *byte;
            }
            if !self.refill()? {
                break;
            }
        }
        Ok(false)
    }

    // The number whose digits stand next.
    fn digits(&mut self) -> Result<u64, Fault> {
        let mut number = Some(0u64);
        for _ in 0..u64::MAX {
            for (n, byte) in self.rest().iter().enumerate() {
                if !byte.is_ascii_digit() {
                    self.pass(n);
                    return number.ok_or(Fault::Unreadable);
                }
                number = longer(number, byte - b'0');
            }
            if !self.refill()? {
                break;
            }
        }
        number.ok_or(Fault::Unreadable)
    }

    // What the buffer still has.
    fn rest(&self) -> &[u8] {
        self.buffer.get(self.at..self.end).unwrap_or(&[])
    }

    // Goes past n bytes of it.
    fn pass(&mut self, n: usize) {
        self.at = self.at.saturating_add(n);
    }

    // Fills the buffer again, which is used up. Is there a byte more?
    fn refill(&mut self) -> io::Result<bool> {
        self.at = 0;
        self.end = self.source.read(self.buffer)?;
        Ok(0 < self.end)
    }
}

// The number with one more digit: none where it is 2^64 or more, and so it stays.
fn longer(number: Option<u64>, digit: u8) -> Option<u64> {
    number?.checked_mul(10)?.checked_add(u64::from(digit))
}
