// Edge codes, and what every call answers. An edge is 2·id, or 2·id + 1 if complemented; so 0 is false and 1 is true.
#![tactic(auto)]

mod answer;

ghost use Rattle.std.specs.Prelude.{◌≡◌, eqb};
ghost use Rattle.edge.specs.Edges.{id_of, is_complemented, complement, complement_if, constant_of, which_constant, bool_seen, to_constant_call, edge_seen, new_call, map_call};

pub use answer::{Given, List, Refusal, is_done, told};

// The largest id whose edges have a code.
const MAX_ID: u32 = 2147483647;

// The edge to a row. An id above 2147483647 has no code: 4.
pub fn new(id: u32, complement: bool) -> Result<u32, Refusal>
    ensures { edge_seen result ≡ new_call id complement }
{
    if MAX_ID < id {
        return Err(Refusal::BadArgument);
    }
    Ok(not_if(2 * id, complement))
}

// The row of an edge.
pub fn node_id(e: u32) -> u32
    ensures { result ≡ id_of e }
{
    e / 2
}

// Is the edge complemented?
pub fn compl(e: u32) -> bool
    ensures { result ≡ is_complemented e }
{
    e % 2 == 1
}

// The same row with the other sign. By parts, and not by cases, it is compiled to one exclusive or.
pub fn not(e: u32) -> u32
    ensures { result ≡ complement e }
{
    2 * (e / 2) + (1 - e % 2)
}

// The same edge, complemented once more where `flip` says so.
pub fn not_if(e: u32, flip: bool) -> u32
    ensures { result ≡ complement_if flip e }
{
    if flip { not(e) } else { e }
}

// The constants: false is 0 and true is 1.
pub fn constant(polarity: bool) -> u32
    ensures { result ≡ constant_of polarity }
{
    u32::from(polarity)
}

// Is it an edge to row 0?
pub fn is_const(e: u32) -> bool
    ensures { result ≡ eqb (id_of e) 0 }
{
    node_id(e) == 0
}

pub fn is_constant(e: u32, polarity: bool) -> bool
    ensures { result ≡ eqb e (constant_of polarity) }
{
    e == constant(polarity)
}

// Which constant the edge is, if it is one.
pub fn try_to_constant(e: u32) -> Option<bool>
    ensures { result ≡ which_constant e }
{
    match e {
        0 => Some(false),
        1 => Some(true),
        _ => None,
    }
}

// The value of a constant edge. Another edge: 4.
pub fn to_constant(e: u32) -> Result<bool, Refusal>
    ensures { bool_seen result ≡ to_constant_call e }
{
    try_to_constant(e).ok_or(Refusal::BadArgument)
}

// The edge to the row that the map gives for its row, with its sign. A row outside the map, or mapped above 2147483647: 4.
pub fn map(e: u32, map: &[u32]) -> Result<u32, Refusal>
    ensures { edge_seen result ≡ map_call e map.now }
{
    let id = map.get(node_id(e) as usize).ok_or(Refusal::BadArgument)?;
    new(*id, compl(e))
}
