// The bytes of images, before a test and after it.

/// Sectors that can be read, each of which holds its number and 1 in each byte.
pub fn sectors<const N: usize>() -> [u8; N] {
    let mut bytes = [0; N];
    for (number, sector) in bytes.chunks_mut(513).enumerate() {
        if let Some((_, held)) = sector.split_first_mut() {
            held.fill((number % 255 + 1) as u8);
        }
    }
    bytes
}

// The byte that a tail has at `i`.
fn tail_byte(i: usize) -> u8 {
    (i % 251) as u8
}

/// Sets the bytes from `from` on to those of a tail.
pub fn put_tail(bytes: &mut [u8], from: usize) {
    if let Some(tail) = bytes.get_mut(from..) {
        for (i, byte) in (from..).zip(tail) {
            *byte = tail_byte(i);
        }
    }
}

/// How many bytes from `from` on are those of a tail.
pub fn count_tail(bytes: &[u8], from: usize) -> usize {
    (from..)
        .zip(bytes.get(from..).unwrap_or(&[]))
        .filter(|(i, byte)| **byte == tail_byte(*i))
        .count()
}

/// Whether each byte of a block is `value`.
// Not `are_zeros` of `layout`, which is private to that crate and knows zeros alone.
pub fn is_all(block: &[u8; 512], value: u8) -> bool {
    block.iter().all(|byte| *byte == value)
}
