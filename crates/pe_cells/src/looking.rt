//! What a group of a library says, by the names of its attributes and groups.

ghost use Rattle.std.specs.Prelude.{◌≡◌};
ghost use Rattle.std.specs.Option.{option_copied};
ghost use Rattle.std.specs.Str.{bytes_eq};
ghost use Rattle.pe_cells.specs.Looking.{attr_in, has_attr as has_attr_in, first_of, text_in, place_in, is_kind as is_kind_of, cell_in};

use pe_base::Name;
use pe_liberty_read::{Attr, Group};

/// Whether a word is this one.
pub(crate) fn same(word: &[u8], other: &[u8]) -> bool
    ensures { result ≡ bytes_eq word.now other.now }
{
    word == other
}

/// The first attribute of the name.
pub(crate) fn attr<'a>(group: &'a Group, name: &[u8]) -> Option<&'a Attr>
    ensures { option_copied result ≡ attr_in group.now name.now }
{
    group
        .attrs
        .as_slice()
        .iter()
        .find(|attr| attr.name.is(name))
}

/// Whether an attribute of the name is there.
pub(crate) fn has_attr(group: &Group, name: &[u8]) -> bool
    ensures { result ≡ has_attr_in group.now name.now }
{
    match attr(group, name) {
        Some(_) => true,
        None => false,
    }
}

/// The first of some values, and the empty text where there is none.
pub(crate) fn first(values: &[Name]) -> &[u8]
    ensures { result.now ≡ first_of values.now }
{
    match values {
        [value, ..] => value.bytes(),
        [] => b"".as_slice(),
    }
}

/// What the attribute of the name says, and the empty text where it says nothing.
pub(crate) fn text<'a>(group: &'a Group, name: &[u8]) -> &'a [u8]
    ensures { result.now ≡ text_in group.now name.now }
{
    match attr(group, name) {
        Some(attr) => first(attr.values.as_slice()),
        None => b"".as_slice(),
    }
}

/// The place of the attribute of the name, and that of the group where it is missing.
pub(crate) fn place(group: &Group, name: &[u8]) -> u32
    ensures { result ≡ place_in group.now name.now }
{
    match attr(group, name) {
        Some(attr) => attr.place,
        None => group.place,
    }
}

/// Whether a group is of a kind.
pub(crate) fn is_kind(group: &Group, kind: &[u8]) -> bool
    ensures { result ≡ is_kind_of kind.now group.now }
{
    group.kind.is(kind)
}

/// The first cell of the name.
pub(crate) fn cell<'a>(library: &'a Group, name: &[u8]) -> Option<&'a Group>
    ensures { option_copied result ≡ cell_in library.now name.now }
{
    library.groups.as_slice().iter().find(|group| {
        is_kind(group, b"cell") && first(group.args.as_slice()) == name
    })
}
