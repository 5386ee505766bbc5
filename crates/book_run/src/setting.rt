// What a script of books does to its buffer outside the operations, beside what `script::preparing` has: it says whether it was done.

// Byte by byte, in this order: a copy to a later place repeats what lies between the two.
pub(crate) fn copy(buffer: &mut [u8], from: usize, count: usize, to: usize) -> bool {
    if buffer.len() < count || buffer.len() - count < from || buffer.len() - count < to {
        return false;
    }
    // Kept (point 3): (d) `copy_within` copies as the bytes were before, and does not repeat.
    for i in 0..count {
        buffer[to + i] = buffer[from + i];
    }
    true
}
