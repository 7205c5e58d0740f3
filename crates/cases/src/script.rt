// Reading one case.
use crate::case::{Case, SCALARS};
use crate::fault::Fault;
use crate::reader::Reader;
use crate::slots::Slots;
use std::io::Read;

// Reads a case, and its slots into the arena: none where the script has ended.
pub fn next_case<S: Read>(
    reader: &mut Reader<S>,
    slots: &mut Slots,
) -> Result<Option<Case>, Fault> {
    let call = reader.number_if_any()?.unwrap_or(0);
    if call == 0 {
        return Ok(None);
    }
    let scalars = read_scalars(reader)?;
    slots.clear();
    for _ in 0..reader.number()? {
        read_slot(reader, slots)?;
    }
    Ok(Some(Case { call, scalars }))
}

fn read_scalars<S: Read>(reader: &mut Reader<S>) -> Result<[u64; SCALARS], Fault> {
    let mut scalars = [0; SCALARS];
    let count = reader.number()? as usize;
    for scalar in scalars.get_mut(..count).ok_or(Fault::Unreadable)? {
        *scalar = reader.number()?;
    }
    Ok(scalars)
}

// Reads one slot: its number, its length and its words.
fn read_slot<S: Read>(reader: &mut Reader<S>, slots: &mut Slots) -> Result<(), Fault> {
    let slot = reader.word()?;
    let len = reader.word()?;
    for word in slots.open(slot, len).ok_or(Fault::Unreadable)? {
        *word = reader.word()?;
    }
    Ok(())
}
