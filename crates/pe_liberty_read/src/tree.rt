//! What a library's text is: groups of attributes and groups.

use pe_base::Name;
use sqlite_items::Items;

/// A group: `KIND (ARGS) { ATTRS and GROUPS }`. A quoted argument is without its quotes.
#[derive(Debug, Drop)]
pub struct Group {
    /// What the group describes, as `cell`.
    pub kind: Name,
    /// In the order of the text, as the name of a cell.
    pub args: Items<Name>,
    /// The attributes that stand directly in it, in the order of the text.
    pub attrs: Items<Attr>,
    /// The groups that stand directly in it, in the order of the text.
    pub groups: Items<Group>,
    /// The byte of the text at which its first word starts.
    pub place: u32,
}

/// An attribute: `NAME : VALUES` or `NAME (VALUES)`. A quoted value is without its quotes.
#[derive(Debug, Drop)]
pub struct Attr {
    pub name: Name,
    /// In the order of the text.
    pub values: Items<Name>,
    /// The byte of the text at which its name starts.
    pub place: u32,
}
