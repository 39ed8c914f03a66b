//! A power intent of one domain (IEEE 1801): whether it is of that form, the design's top, and the domain's primary supplies.
#![tactic(auto)]

mod domain;
mod form;
mod function;
mod primary;

pub use form::{has_top_alone, is_one_domain, top};
pub use function::Function;
pub use primary::primary_supply;
