//! Shifts, and a bit by its index.

ghost use Rattle.std.specs.Prelude.{◌≡◌, ◌<◌, ◌^◌, min, IfOk};
ghost use Rattle.pe_base.specs.Words.{all_known, value_number, shift_left_of, shift_right_of, picked_bit};

use crate::text::Want;
use crate::value::Val;
use crate::words::bits;
use crate::words::numbers::{all_known, corrupt};
use sqlite_items::Items;
use std::alloc::Global;

/// `a << amount`, filled with 0, and corrupt in every bit where a bit of the amount is.
pub fn shift_left(alloc: Global, a: &[Val], amount: &[Val]) -> Result<Items<Val>, Want>
    ensures { IfOk result (λ r. r ≡ shift_left_of a.now amount.now) }
{
    if !all_known(amount) {
        return corrupt(alloc, a.len());
    }
    let by = number_up_to(amount, a.len());
    let mut bits = vec![in alloc; Val::Zero; by]?;
    bits.extend_from_slice(&a[..a.len() - by])?;
    Ok(Items::from_vec(bits))
}

/// `a >> amount`, filled with 0, and corrupt in every bit where a bit of the amount is.
pub fn shift_right(alloc: Global, a: &[Val], amount: &[Val]) -> Result<Items<Val>, Want>
    ensures { IfOk result (λ r. r ≡ shift_right_of a.now amount.now) }
{
    if !all_known(amount) {
        return corrupt(alloc, a.len());
    }
    let by = number_up_to(amount, a.len());
    let mut bits = Vec::from_slice(alloc, &a[by..])?;
    bits.resize(a.len(), Val::Zero)?;
    Ok(Items::from_vec(bits))
}

/// `a[index]`, of one bit: corrupt where a bit of the index is, and where it is out of range.
pub fn pick(alloc: Global, a: &[Val], index: &[Val]) -> Result<Items<Val>, Want>
    ensures { IfOk result (λ r. r ≡ picked_bit a.now index.now) }
{
    if !all_known(index) {
        return bits::one_bit(alloc, Val::Corrupt);
    }
    match a.get(number_up_to(index, a.len())) {
        Some(bit) => bits::one_bit(alloc, *bit),
        None => bits::one_bit(alloc, Val::Corrupt),
    }
}

// The number that the bits stand for, or the most where it is above that.
fn number_up_to(a: &[Val], most: usize) -> usize
    requires { most < 2 ^ 63 }
    ensures { result ≡ min (value_number a.now) most }
{
    let mut number = 0;
    let mut i = a.len();
    while i > 0 {
        i -= 1;
        let bit = if a[i] == Val::One { 1 } else { 0 };
        number = most.min(2 * number + bit);
    }
    number
}
