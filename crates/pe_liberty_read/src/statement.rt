//! What stands in a group: attributes and groups.

ghost use Rattle.std.specs.Prelude.{◌≡◌, OnOk};
ghost use Rattle.pe_liberty_read.specs.Contents.{with_statement};

use crate::tree::{Attr, Group};
use pe_base::Want;
use sqlite_items::Items;

/// A statement of a group.
#[derive(Drop)]
pub(crate) enum Statement {
    Attribute(Attr),
    Group(Group),
}

/// The attributes and the groups that stand directly in a group, each in the order of the text.
#[derive(Drop)]
pub(crate) struct Contents {
    pub(crate) attrs: Items<Attr>,
    pub(crate) groups: Items<Group>,
}

/// Adds one more statement.
pub(crate) fn add(contents: &mut Contents, statement: Statement) -> Result<(), Want>
    ensures { OnOk result (contents.new ≡ with_statement contents.old statement) }
{
    match statement {
        Statement::Attribute(attr) => contents.attrs.push(attr)?,
        Statement::Group(group) => contents.groups.push(group)?,
    }
    Ok(())
}
