// Arrays that a call may write to: the table itself is only read.
ghost use Rattle.std.specs.Prelude.{◌≤◌, length};

use std::cmp::min;

// Copies the words of a list, as far as there is room, and answers how many they are.
pub fn copied(from: &[u32], into: &mut [u32]) -> usize
    ensures { result ≤ length into.old }
{
    let n = min(from.len(), into.len());
    into[..n].copy_from_slice(&from[..n]);
    n
}

// The same to bytes, each word modulo 256: a slice of another type, so the words are not copied as a whole.
pub fn copied_bytes(from: &[u32], into: &mut [u8]) -> usize
    ensures { result ≤ length into.old }
{
    let n = min(from.len(), into.len());
    for (byte, word) in into.iter_mut().zip(from) {
        *byte = (word % 256) as u8;
    }
    n
}
