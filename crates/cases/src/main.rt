// Replays a script of cases from standard input, and writes what each call answers and leaves.
#![tactic(auto)]

mod arrays;
mod build_calls;
mod case;
mod check_call;
mod cnf_call;
mod cone_calls;
mod edges;
mod fault;
mod outcome;
mod reader;
mod report;
mod row_calls;
mod run;
mod script;
mod slots;
mod ternary_calls;
mod writer;

use arrays::Arrays;
use reader::Reader;
use slots::Slots;
use std::io;
use writer::Writer;

// The arena holds 600,000 words, and two words more for each of 32 slots.
fn main(rt: HostRuntime) -> io::Result<()> {
    let mut input = [0u8; 65536];
    let mut output = [0u8; 65536];
    let mut arena = [0u32; 600064];
    let mut small = [0u32; 65600];
    let mut middle = [0u32; 131200];
    let mut large = [0u32; 196800];
    let mut inputs = [0u8; 65600];
    let mut state = [0u8; 65600];
    let mut values = [0u8; 65600];
    let mut stdin = rt.stdin();
    run::run(
        &mut Reader::new(&mut stdin, input.as_mut_slice()),
        &mut Writer::new(&rt, output.as_mut_slice()),
        &mut Slots::new(arena.as_mut_slice()),
        &mut Arrays {
            small: small.as_mut_slice(),
            middle: middle.as_mut_slice(),
            large: large.as_mut_slice(),
            inputs: inputs.as_mut_slice(),
            state: state.as_mut_slice(),
            values: values.as_mut_slice(),
        },
    )
}
