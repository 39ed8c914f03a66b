//! Targets of assignments.

use crate::expression::Select;
use pe_base::Name;
use sqlite_items::Items;

/// What an assignment drives.
#[derive(Drop)]
pub enum Target {
    Net { name: Name, select: Select },
    /// `{FIRST, ..}`: one or more targets in the order of the text, the highest first.
    Join(Items<Target>),
}
