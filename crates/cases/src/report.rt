// What is written for a case: the line of the call, and a line for each slot.
use crate::outcome::Outcome;
use crate::slots::Slots;
use std::io::{self, Write};

pub fn write_case<W: Write>(
    w: &mut W,
    call: u64,
    outcome: Outcome,
    slots: &Slots,
) -> io::Result<()> {
    writeln!(w, "{call} {outcome}")?;
    let mut rest = slots.given();
    while let [slot, len, words @ ..] = rest {
        let (words, others) = words.split_at((*len as usize).min(words.len()));
        write!(w, "{slot} {len}")?;
        for word in words {
            write!(w, " {word}")?;
        }
        writeln!(w)?;
        rest = others;
    }
    Ok(())
}
