// Slices compared, changed and copied.

// The byte at a place, 0 past the end.
pub fn byte_at(bytes: &[u8], at: usize) -> u8 {
    if at < bytes.len() {
        return bytes[at];
    }
    0
}

// The number that some bytes from `at` on make, the highest first.
pub fn number_at(bytes: &[u8], at: usize, count: usize) -> u64 {
    let mut n: u64 = 0;
    for k in 0..count {
        let byte = byte_at(bytes, std::num::wrapping_add_usize(at, k));
        n = (n << 8) ^ byte as u64;
    }
    n
}

// Where there are not so many as a test asks for, a line says so, which no `stdout` has.
pub fn too_few() {
    io::write_all(1, b"too few\n");
}

// The bytes from one place to another.
pub fn part(bytes: &[u8], from: usize, to: usize) -> &[u8] {
    if from <= to {
        if to <= bytes.len() {
            return &bytes[from..to];
        }
    }
    too_few();
    bytes
}

// The first bytes to be written.
pub fn first(bytes: &mut [u8], count: usize) -> &mut [u8] {
    if count <= bytes.len() {
        return &mut bytes[0..count];
    }
    too_few();
    bytes
}

pub fn put(bytes: &mut [u8], at: usize, byte: u8) {
    if at < bytes.len() {
        bytes[at] = byte;
    }
}

// Other bits at a place.
pub fn flip(bytes: &mut [u8], at: usize, bits: u8) {
    if at < bytes.len() {
        bytes[at] = bytes[at] ^ bits;
    }
}

// Bytes combined with others, by exclusive or.
pub fn combine(bytes: &mut [u8], others: &[u8]) {
    for k in 0..others.len() {
        flip(bytes, k, others[k]);
    }
}

// Bytes to a slice from `at` on.
pub fn copy(from: &[u8], to: &mut [u8], at: usize) {
    for k in 0..from.len() {
        put(to, std::num::wrapping_add_usize(at, k), from[k]);
    }
}

// 1 where place k of a has another byte in b, or none.
fn differs(a: &[u8], b: &[u8], k: usize) -> u64 {
    if k < a.len() {
        if k < b.len() {
            if a[k] == b[k] {
                return 0;
            }
        }
    }
    1
}

// In how many places of a there is another byte in b, or none; places that only b has do not count.
pub fn differing(a: &[u8], b: &[u8]) -> u64 {
    let mut n: u64 = 0;
    for k in 0..a.len() {
        n = std::num::wrapping_add_u64(n, differs(a, b, k));
    }
    n
}
