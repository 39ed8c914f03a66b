//! When to begin anew.

/// The Luby sequence from 1 on: 1, 1, 2, 1, 1, 2, 4, 1 .. (Luby, Sinclair and Zuckerman, 1993). Each power of two comes
/// after two runs of what came before it.
pub fn luby(n: u64) -> u64 {
    let mut k = n;
    for _ in 0..64 {
        let next = k.wrapping_add(1);
        if next.is_power_of_two() {
            return next / 2;
        }
        k = k.wrapping_sub(power_below(k)).wrapping_add(1);
    }
    1
}

// The largest power of two that isn't above the number.
fn power_below(k: u64) -> u64 {
    let mut power: u64 = 1;
    for _ in 0..62 {
        if power.wrapping_mul(2) > k {
            return power;
        }
        power = power.wrapping_mul(2);
    }
    power
}
