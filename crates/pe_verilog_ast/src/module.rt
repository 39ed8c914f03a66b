//! Modules and their heads.

use crate::expression::Ex;
use crate::item::Item;
use pe_base::Name;
use sqlite_items::Items;

/// A text: its modules in their order.
#[derive(Drop)]
pub struct Source {
    pub modules: Items<Module>,
}

/// A module. `params` and `ports` are those of its head.
#[derive(Drop)]
pub struct Module {
    pub name: Name,
    pub params: Items<Param>,
    pub ports: Items<HeadPort>,
    pub items: Items<Item>,
}

/// `[LEFT:RIGHT]`
#[derive(Drop)]
pub struct Range {
    pub left: Ex,
    pub right: Ex,
}

/// A parameter of a head.
#[derive(Drop)]
pub struct Param {
    pub range: Option<Range>,
    pub name: Name,
    pub value: Ex,
}

/// Which way a port leads.
#[derive(Clone, Copy, Debug, PartialEq, Eq)]
pub enum Dir {
    Input,
    Output,
    Inout,
}

/// What a net is declared as.
#[derive(Clone, Copy, Debug, PartialEq, Eq)]
pub enum NetKind {
    Wire,
    Reg,
}

/// A port that is declared.
#[derive(Drop)]
pub struct Port {
    pub dir: Dir,
    pub kind: Option<NetKind>,
    pub range: Option<Range>,
    pub name: Name,
}

/// A port of a head: a name alone, which the items declare, or a whole declaration. A name that follows a declaration has
/// its direction, kind and range, and stands here as a declaration of its own.
#[derive(Drop)]
pub enum HeadPort {
    Named(Name),
    Declared(Port),
}
