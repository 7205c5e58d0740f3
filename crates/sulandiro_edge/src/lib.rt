// Edges and single rows, for callers in C. Where a call can refuse, `told` takes the number and the place of the answer, then what comes with it.
#![tactic(auto)]

ghost use Rattle.std.specs.Prelude.{◌≡◌, eqb};
ghost use Rattle.edge.specs.Edges.{id_of, is_complemented, complement, complement_if, constant_of, which_constant, to_constant_call, new_call, map_call};
ghost use Rattle.rows.specs.Reading.{is_and_call, is_leaf_call, fanin0_call, fanin1_call, fanin_seen, fanin_call};
ghost use Rattle.sulandiro_edge.specs.Told.{told_edge, told_truth, told_fanins, constant_number};

use edge::Refusal;
use sulandiro_words::{put, tell_word};

// Writes an answer and both fanins.
fn tell_fanins(told: &mut [u64], r: Result<(u32, u32), Refusal>)
    ensures { told.new ≡ told_fanins (fanin_seen r) told.old }
{
    let (first, second) = r.unwrap_or((0, 0));
    tell_word(told, r.map(|_| first as u64), 0);
    put(told, 5, second as u64);
}

// `edge::new`. Behind the answer `told` takes the edge.
#[unsafe(no_mangle)]
pub extern "C" fn sulandiro_edge_new(id: u32, complement: bool, told: &mut [u64])
    ensures { told.new ≡ told_edge (new_call id complement) told.old }
{
    tell_word(told, edge::new(id, complement).map(u64::from), 0);
}

// `edge::node_id`.
#[unsafe(no_mangle)]
pub extern "C" fn sulandiro_edge_node_id(e: u32) -> u32
    ensures { result ≡ id_of e }
{
    edge::node_id(e)
}

// `edge::compl`.
#[unsafe(no_mangle)]
pub extern "C" fn sulandiro_edge_compl(e: u32) -> bool
    ensures { result ≡ is_complemented e }
{
    edge::compl(e)
}

// `edge::not`.
#[unsafe(no_mangle)]
pub extern "C" fn sulandiro_edge_not(e: u32) -> u32
    ensures { result ≡ complement e }
{
    edge::not(e)
}

// `edge::not_if`.
#[unsafe(no_mangle)]
pub extern "C" fn sulandiro_edge_not_if(e: u32, flip: bool) -> u32
    ensures { result ≡ complement_if flip e }
{
    edge::not_if(e, flip)
}

// `edge::constant`.
#[unsafe(no_mangle)]
pub extern "C" fn sulandiro_edge_constant(polarity: bool) -> u32
    ensures { result ≡ constant_of polarity }
{
    edge::constant(polarity)
}

// `edge::is_const`.
#[unsafe(no_mangle)]
pub extern "C" fn sulandiro_edge_is_const(e: u32) -> bool
    ensures { result ≡ eqb (id_of e) 0 }
{
    edge::is_const(e)
}

// `edge::is_constant`.
#[unsafe(no_mangle)]
pub extern "C" fn sulandiro_edge_is_constant(e: u32, polarity: bool) -> bool
    ensures { result ≡ eqb e (constant_of polarity) }
{
    edge::is_constant(e, polarity)
}

// `edge::try_to_constant`: 0 is false, 1 is true, and 2 is neither.
#[unsafe(no_mangle)]
pub extern "C" fn sulandiro_edge_try_to_constant(e: u32) -> u8
    ensures { result ≡ constant_number (which_constant e) }
{
    match edge::try_to_constant(e) {
        Some(value) => u8::from(value),
        None => 2,
    }
}

// `edge::to_constant`. Behind the answer `told` takes 0 or 1.
#[unsafe(no_mangle)]
pub extern "C" fn sulandiro_edge_to_constant(e: u32, told: &mut [u64])
    ensures { told.new ≡ told_truth (to_constant_call e) told.old }
{
    tell_word(told, edge::to_constant(e).map(u64::from), 0);
}

// `edge::map`. Behind the answer `told` takes the edge.
#[unsafe(no_mangle)]
pub extern "C" fn sulandiro_edge_map(e: u32, map: &[u32], told: &mut [u64])
    ensures { told.new ≡ told_edge (map_call e map.now) told.old }
{
    tell_word(told, edge::map(e, map).map(u64::from), 0);
}

// `rows::is_and`. Behind the answer `told` takes 0 or 1.
#[unsafe(no_mangle)]
pub extern "C" fn sulandiro_is_and(rows: &[u32], used: usize, id: u32, told: &mut [u64])
    ensures { told.new ≡ told_truth (is_and_call rows.now used id) told.old }
{
    tell_word(told, rows::is_and(rows, used, id).map(u64::from), 0);
}

// `rows::is_leaf`. Behind the answer `told` takes 0 or 1.
#[unsafe(no_mangle)]
pub extern "C" fn sulandiro_is_leaf(rows: &[u32], used: usize, id: u32, told: &mut [u64])
    ensures { told.new ≡ told_truth (is_leaf_call rows.now used id) told.old }
{
    tell_word(told, rows::is_leaf(rows, used, id).map(u64::from), 0);
}

// `rows::fanin`. Behind the answer `told` takes both fanins.
#[unsafe(no_mangle)]
pub extern "C" fn sulandiro_fanin(rows: &[u32], used: usize, id: u32, told: &mut [u64])
    ensures { told.new ≡ told_fanins (fanin_call rows.now used id) told.old }
{
    tell_fanins(told, rows::fanin(rows, used, id));
}

// `rows::fanin0`. Behind the answer `told` takes the fanin.
#[unsafe(no_mangle)]
pub extern "C" fn sulandiro_fanin0(rows: &[u32], used: usize, id: u32, told: &mut [u64])
    ensures { told.new ≡ told_edge (fanin0_call rows.now used id) told.old }
{
    tell_word(told, rows::fanin0(rows, used, id).map(u64::from), 0);
}

// `rows::fanin1`. Behind the answer `told` takes the fanin.
#[unsafe(no_mangle)]
pub extern "C" fn sulandiro_fanin1(rows: &[u32], used: usize, id: u32, told: &mut [u64])
    ensures { told.new ≡ told_edge (fanin1_call rows.now used id) told.old }
{
    tell_word(told, rows::fanin1(rows, used, id).map(u64::from), 0);
}
