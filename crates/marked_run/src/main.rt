// Runs document 01's marked cases through the compiled calls, and prints what each leaves. The cases are the words of the one table that `marked` proves, and what is seen is compared
// with what stands there.
#![tactic(auto)]

mod call;
mod calls;
mod fill;
mod parts;
mod rebuilds;
mod seen;

use call::Call;
use parts::{Lists, list, size, tail, word};
use seen::{Seen, say_lists};
use std::io;

// How many words what is seen of a case may take.
const ROOM: usize = 128;

fn main(rt: HostRuntime) -> io::Result<()> {
    for case in Lists(&marked::words()) {
        say(&rt, case)?;
    }
    Ok(())
}

// A line: which case it is, the call, what was seen, and whether the table has the same.
fn say(rt: &impl Print, case: &[u32]) -> io::Result<()> {
    let head = list(case, 0);
    let mut room = [0u32; ROOM];
    let mut seen = Seen::new(&mut room);
    print!(rt; "M{}", word(head, 0))?;
    match Call::try_from(word(head, 1)) {
        Ok(call) => {
            made(case, call, &mut seen);
            print!(rt; " {call}")?;
        }
        Err(_) => print!(rt; " unknown")?,
    }
    say_lists(rt, seen.words())?;
    let agrees = marked::same(seen.words(), tail(case, 2 + size(head, 2)));
    if agrees {
        println!(rt; " | as expected")
    } else {
        println!(rt; " | NOT AS EXPECTED")
    }
}

// Makes the call, and lays out what is seen after it.
fn made(case: &[u32], call: Call, seen: &mut Seen) {
    match call {
        Call::NewAndNode | Call::NewEqNode => calls::built(case, call, seen),
        Call::TernarySimulate => calls::simulated(case, seen),
        Call::Cnf => calls::translated(case, seen),
        Call::Reencode | Call::Unroll => rebuilds::rebuilt(case, call, seen),
    }
}
