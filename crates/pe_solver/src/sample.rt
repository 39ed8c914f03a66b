//! Values of the leaves as a sample.

ghost use Rattle.std.specs.Prelude.{◌≡◌, ◌<◌, length, IfOk};
ghost use Rattle.pe_solver.specs.Sample.{IsSpread, IsSample, AreBreaking, AreNumbered, AreBitsOf};
ghost use Rattle.pe_solver.specs.Answer.{IsMade};

use pe_base::Want;
use pe_cnf::Clauses;
use std::alloc::Global;

/// The sample of these values of the cone's leaves.
pub fn sample(alloc: Global, clauses: &Clauses, bits: &[bool]) -> Result<Vec<bool>, Want>
    requires made { IsMade clauses.now }
    requires breaking { AreBreaking clauses.now bits.now }
    ensures spread { IfOk result (λ values. IsSpread clauses.now bits.now values.items) }
    ensures sample { IfOk result (λ values. IsSample clauses.now values.items) }
{
    let values = spread(alloc, clauses, bits)?;
    Ok(values)
}

// The values of the cone's leaves at their places among all leaves.
fn spread(alloc: Global, clauses: &Clauses, bits: &[bool]) -> Result<Vec<bool>, Want>
    requires bits { length bits.now ≡ length clauses.now.leaves }
    requires numbered { AreNumbered clauses.now }
    ensures { IfOk result (λ values. IsSpread clauses.now bits.now values.items) }
{
    let leaves = clauses.leaves();
    let mut values = vec![in alloc; false; clauses.width() as usize]?;
    for i in 0..leaves.len() {
        values[leaves[i].0 as usize] = bits[i];
    }
    Ok(values)
}

/// The values of so many leaves in the assignment of this number.
pub fn bits_of(alloc: Global, step: u64, count: usize) -> Result<Vec<bool>, Want>
    ensures { IfOk result (λ bits. AreBitsOf step count bits.items) }
{
    let mut bits = vec![in alloc; false; count]?;
    let mut left = count;
    let mut rest = step;
    while left > 0 {
        left -= 1;
        bits[left] = rest % 2 == 1;
        rest /= 2;
    }
    Ok(bits)
}
