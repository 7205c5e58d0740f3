// A run over a script.
use crate::arrays::Arrays;
use crate::case::Case;
use crate::fault::Fault;
use crate::outcome::Outcome;
use crate::reader::Reader;
use crate::slots::{self, Slots};
use crate::{
    build_calls, check_call, cnf_call, cone_calls, edges, report, row_calls, script, ternary_calls,
};
use std::io::{self, Read, Write};

// Replays the script, and says so where it cannot go on. Where reading or writing failed, what is not written out yet is lost.
pub fn run<S: Read, W: Write>(
    reader: &mut Reader<S>,
    writer: &mut W,
    slots: &mut Slots,
    arrays: &mut Arrays,
) -> io::Result<()> {
    match replay(reader, writer, slots, arrays) {
        Ok(()) => {}
        Err(Fault::Unreadable) => writeln!(writer, "unreadable")?,
        Err(Fault::Io(error)) => return Err(error),
    }
    writer.flush()
}

// Replays case after case.
//
// A proved loop has to end, and nothing says that a script does. So the loop counts its turns, up to a number that no run reaches.
fn replay<S: Read, W: Write>(
    reader: &mut Reader<S>,
    writer: &mut W,
    slots: &mut Slots,
    arrays: &mut Arrays,
) -> Result<(), Fault> {
    for _ in 0..u64::MAX {
        let Some(case) = script::next_case(reader, slots)? else {
            break;
        };
        let outcome = made(&case, slots, arrays).ok_or(Fault::Unreadable)?;
        report::write_case(writer, case.call, outcome, slots)?;
    }
    Ok(())
}

// Makes the call: none where there is no such call, or a slot is longer than the array that takes it.
fn made(case: &Case, slots: &mut Slots, arrays: &mut Arrays) -> Option<Outcome> {
    match case.call {
        1..=11 => edges::run(case, slots.words(slots::LIST)),
        20..=24 => row_calls::run(case, slots.words(slots::ROWS)),
        30 => check_call::run(case, slots, arrays),
        40..=59 => build_calls::run(case, slots, arrays),
        60 | 61 => cone_calls::run(case, slots, arrays),
        90..=92 => ternary_calls::run(case, slots, arrays),
        100 => cnf_call::run(case, slots, arrays),
        _ => None,
    }
}
