// The calls of the marked cases, by their numbers in oracle/FORMAT.md.
use std::fmt;

#[derive(Clone, Copy, PartialEq, Eq)]
pub enum Call {
    NewAndNode,
    NewEqNode,
    Reencode,
    Unroll,
    TernarySimulate,
    Cnf,
}

// A number that no call of the marked cases has.
#[derive(Clone, Copy)]
pub struct UnknownCall;

impl TryFrom<u32> for Call {
    type Error = UnknownCall;

    fn try_from(number: u32) -> Result<Call, UnknownCall> {
        match number {
            51 => Ok(Call::NewAndNode),
            59 => Ok(Call::NewEqNode),
            71 => Ok(Call::Reencode),
            80 => Ok(Call::Unroll),
            90 => Ok(Call::TernarySimulate),
            100 => Ok(Call::Cnf),
            _ => Err(UnknownCall),
        }
    }
}

impl fmt::Display for Call {
    fn fmt<W: fmt::Write>(&self, f: &mut fmt::Formatter<W>) -> fmt::Result {
        f.write_str(match self {
            Call::NewAndNode => "new_and_node",
            Call::NewEqNode => "new_eq_node",
            Call::Reencode => "reencode",
            Call::Unroll => "unroll",
            Call::TernarySimulate => "ternary_simulate",
            Call::Cnf => "cnf",
        })
    }
}
