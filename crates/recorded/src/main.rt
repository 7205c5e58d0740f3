// Graphs with latches, through tables of latch records and, beside it, flat: each is checked, three frames are added, and a next is written. After each
// frame the nexts are read back and printed, and the answers, counts, rows, inputs and latches of both are compared.
#![tactic(auto)]

mod circuit;
mod flat;
mod sample;
mod through_records;

use circuit::Circuit;
use records::{NO_LATCH, TABLE_SIZE, records_back};
use sample::Sample;
use std::io;

fn main(rt: HostRuntime) -> io::Result<()> {
    for sample in [Sample::Inverted, Sample::Shifted, Sample::Gated] {
        match sample.circuit() {
            Ok(circuit) => case(&rt, sample, &circuit)?,
            Err(_) => println!(rt; "{sample}, NOT built")?,
        }
    }
    Ok(())
}

fn case(rt: &impl Print, sample: Sample, circuit: &Circuit) -> io::Result<()> {
    checked(rt, sample, circuit)?;
    frames(rt, sample, circuit)?;
    entry(rt, sample, circuit, 0, 1)?;
    entry(rt, sample, circuit, TABLE_SIZE, 1)
}

// A line: what the check through records answers, and whether the flat check answers the same.
fn checked(rt: &impl Print, sample: Sample, circuit: &Circuit) -> io::Result<()> {
    let answer = through_records::check(circuit);
    let number = edge::told(answer).number;
    let like = if answer == flat::check(circuit) {
        "as"
    } else {
        "NOT as"
    };
    println!(rt; "{sample}, check: answer {number}, {like} the flat check's")
}

// Three frames, one after the other, both ways. A line for each: the frame, the answer, the used rows, the nexts, and whether both ways agree.
fn frames(rt: &impl Print, sample: Sample, circuit: &Circuit) -> io::Result<()> {
    let graph = circuit.graph();
    let mut through = *circuit;
    let mut beside = *circuit;
    for frame in 1..4 {
        let answer = through_records::unroll(&mut through, &graph);
        let same = answer == flat::unroll(&mut beside, &graph);
        let number = edge::told(answer).number;
        let rows = through.counts.rows;
        print!(rt; "{sample}, frame {frame}: answer {number}, rows {rows}, nexts")?;
        nexts(rt, &through)?;
        println!(rt;
            ", {} the flat call's",
            every_word(same && through == beside)
        )?;
    }
    Ok(())
}

// The nexts of the used latches.
fn nexts(rt: &impl Print, circuit: &Circuit) -> io::Result<()> {
    let mut table = [NO_LATCH; TABLE_SIZE];
    records_back(&mut table, &circuit.latches);
    for latch in table.iter().take(circuit.counts.latches) {
        print!(rt; " {}", latch.next)?;
    }
    Ok(())
}

// A line: the next of record i written through records, what is read again, and whether the words are those that the flat write leaves.
fn entry(
    rt: &impl Print,
    sample: Sample,
    circuit: &Circuit,
    i: usize,
    next: u32,
) -> io::Result<()> {
    let mut through = *circuit;
    let mut beside = *circuit;
    let found = through_records::set_next(&mut through, i, next);
    flat::set_next(&mut beside, i, next);
    let number = edge::told(found.map(|_| ())).number;
    let read = found.map_or(0, |latch| latch.next);
    let like = every_word(through == beside);
    println!(rt;
        "{sample}, next of record {i} set to {next}: answer {number}, read {read}, {like} written flat"
    )
}

fn every_word(same: bool) -> &'static str {
    if same { "every word as" } else { "NOT as" }
}
