//! Reads and writes past the end of a list: a read gives what the caller says, a write does nothing.

/// The element of this number, or `otherwise`.
#[inline(always)]
pub fn read<T: Copy>(list: &[T], i: usize, otherwise: T) -> T {
    if i < list.len() { list[i] } else { otherwise }
}

/// The element of this number becomes `x`.
#[inline(always)]
pub fn write<T: Copy>(list: &mut [T], i: usize, x: T) {
    if i < list.len() {
        list[i] = x;
    }
}

/// The number in 32 bits, or the largest.
#[inline(always)]
pub fn small(x: usize) -> u32 {
    if x < 0xffff_ffff {
        x as u32
    } else {
        0xffff_ffff
    }
}
