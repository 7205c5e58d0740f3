// Sizes of what is lent, for answer 1.
ghost use Rattle.std.specs.Prelude.{◌≡◌};
ghost use Rattle.rows.specs.Sizes.{fits, rows_fit};

// The limits on what is lent: rows, and entries of a list.
pub const MAX_ROWS: usize = 1048576;

pub const MAX_ENTRIES: usize = 65536;

// Is a count within its room, and the room within its limit?
pub fn fits(count: usize, room: usize, limit: usize) -> bool
    ensures { result ≡ fits count room limit }
{
    (count <= room) & (room <= limit)
}

// Are some rows used, no more than are lent, and no more lent than may be?
pub fn rows_fit(used: usize, rows: &[u32]) -> bool
    ensures { result ≡ rows_fit used rows.now }
{
    (0 < used) & fits(used, rows.len() / 2, MAX_ROWS)
}
