// The three kinds of row, told by its place and its two words.
ghost use Rattle.std.specs.Prelude.{◌≡◌};
ghost use Rattle.rows.specs.Rows.{is_false_row, is_leaf, is_gate, is_row, larger};

// The first word of row 0.
pub const FALSE_ROW: u32 = 4294967294;

// The first word of a leaf, and the init of a latch that has none.
pub const NONE: u32 = 4294967295;

// Are the words a and b the false row, at place i?
fn is_false_row(i: usize, a: u32, b: u32) -> bool
    ensures { result ≡ is_false_row i a b }
{
    (i == 0) & (a == FALSE_ROW) & (b == 0)
}

// Are the words a and b a leaf, at place i?
pub fn is_leaf(i: usize, a: u32, b: u32) -> bool
    ensures { result ≡ is_leaf i a b }
{
    (0 < i) & (a == NONE) & (b == 0)
}

// Are the words a and b a gate, at place i? A code is below 2·i exactly if its id is below i.
pub fn is_gate(i: usize, a: u32, b: u32) -> bool
    ensures { result ≡ is_gate i a b }
{
    (((a / 2) as usize) < i) & (((b / 2) as usize) < i)
}

// The larger of two words. The library's `max` is no plainer: it is promised by an order, and this by the numbers.
fn larger(a: u32, b: u32) -> u32
    ensures { result ≡ larger a b }
{
    if a <= b { b } else { a }
}

// Are the words a and b a row, at place i? Nearly every row is a gate, so that is asked first, and of the larger word alone: every call on a whole graph asks it of every row.
pub fn is_row(i: usize, a: u32, b: u32) -> bool
    ensures { result ≡ is_row i a b }
{
    if ((larger(a, b) / 2) as usize) < i {
        return true;
    }
    is_false_row(i, a, b) | is_leaf(i, a, b)
}
