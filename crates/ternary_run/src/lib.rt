// Three-valued simulation of a graph that has been checked: the codes, the run over its rows, and the latches' step.
#![tactic(auto)]

pub mod codes;
pub mod run;
