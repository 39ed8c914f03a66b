//! How deep a text is nested.

ghost use Rattle.std.specs.Prelude.{◌≡◌, ◌<◌, IfOk, OnOk, reverse};
ghost use Rattle.pe_bool_expr.specs.Nesting.{first_deep as deep_in, closed, opened_with};

use crate::style::Style;
use crate::terminal::{Role, role_in};
use pe_grammar::Token;
use sqlite_items::Items;
use std::alloc::{AllocError, Global};

/// How many parentheses and leading marks may be open at once.
const LIMIT: u32 = 64;

/// How many are open, and how many will be where the operand that is being read ends.
#[derive(Clone, Copy)]
struct Counts {
    now: u32,
    behind: u32,
}

/// Takes out what is open behind the parenthesis that closes, or 0 where none is open.
fn close(outer: &mut Items<u32>) -> u32
    ensures now { (closed (reverse outer.old)).now ≡ result }
    ensures behind { (closed (reverse outer.old)).behind ≡ result }
    ensures outer { (closed (reverse outer.old)).outer ≡ reverse outer.new }
{
    match outer.pop() {
        Some(behind) => behind,
        None => 0,
    }
}

/// Goes over a token that does this.
fn count_in(role: Role, counts: Counts, outer: &mut Items<u32>) -> Result<Counts, AllocError>
    requires { counts.now < 1000 }
    ensures now { IfOk result (λ r. (opened_with role (record { now = counts.now; behind = counts.behind; outer = reverse outer.old })).now ≡ r.now) }
    ensures behind { IfOk result (λ r. (opened_with role (record { now = counts.now; behind = counts.behind; outer = reverse outer.old })).behind ≡ r.behind) }
    ensures outer { OnOk result ((opened_with role (record { now = counts.now; behind = counts.behind; outer = reverse outer.old })).outer ≡ reverse outer.new) }
{
    let Counts { now, behind } = counts;
    match role {
        Role::Leading => Ok(Counts {
            now: now + 1,
            behind,
        }),
        Role::Opening => {
            outer.push(behind)?;
            Ok(Counts {
                now: now + 1,
                behind: now + 1,
            })
        }
        Role::Closing => {
            let behind = close(outer);
            Ok(Counts {
                now: behind,
                behind,
            })
        }
        Role::Operand | Role::Trailing | Role::Joining => Ok(Counts {
            now: behind,
            behind,
        }),
    }
}

/// The first token with which more than 64 parentheses and leading marks are open.
pub(crate) fn first_deep(
    alloc: Global,
    style: Style,
    tokens: &[Token],
) -> Result<Option<Token>, AllocError>
    ensures { IfOk result (λ deep. deep ≡ deep_in style tokens.now) }
{
    let mut counts = Counts { now: 0, behind: 0 };
    let mut outer = Items::new(alloc);
    for token in tokens {
        counts = count_in(role_in(style, token.kind), counts, &mut outer)?;
        if LIMIT < counts.now {
            return Ok(Some(*token));
        }
    }
    Ok(None)
}
