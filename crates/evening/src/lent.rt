// The buffers that calls are lent: their lengths, what they are filled with, and what of that stays.
use std::io;

// The byte that a journal is filled with when its box is made, and the one that a buffer is filled with before each call.
pub(crate) const UNWRITTEN: u8 = 0xEE;

pub(crate) const UNUSED: u8 = 0xDD;

// A buffer's front of some length, as far as there is one.
pub(crate) fn front(buffer: &mut [u8], length: u32) -> &mut [u8] {
    let n = buffer.len().min(length as usize);
    &mut buffer[..n]
}

// How many bytes are as they were filled.
pub(crate) fn count_of(bytes: &[u8], filling: u8) -> usize {
    bytes.iter().filter(|b| **b == filling).count()
}

// How many bytes a call put at a buffer's front, and how many of the rest are as they were.
pub(crate) fn show(rt: &impl Print, buffer: &[u8], count: u32) -> io::Result<()> {
    let n = buffer.len().min(count as usize);
    let stayed = count_of(&buffer[n..], UNUSED);
    print!(rt; " count {count} stayed {stayed}")
}
