//! The words that the program is given.

ghost use Rattle.std.specs.Prelude.{◌≡◌, ◌∷◌, map, not, string_bytes};
ghost use Rattle.std.specs.List.{list_all};
ghost use Rattle.std.specs.Option.{option_map};
ghost use Rattle.pe_tool.specs.Run.{is_option, names_of, name_list};
ghost use Rattle.pe_tool.specs.Reads.{names_view};

use crate::read::Names;

// Whether a word is an option: two or more bytes that begin with a hyphen.
fn is_option(word: &str) -> bool
    ensures { result ≡ is_option word.now }
{
    match word.as_bytes() {
        [first, _, ..] => *first == b'-',
        _ => false,
    }
}

// The names of the files, where the words are `check` and five names.
pub(crate) fn names_of(words: &[String]) -> Option<Names<'_>>
    ensures { option_map names_view result ≡ names_of (map string_bytes words.now) }
{
    match words {
        [command, rtl, upf, lib, net, map] => named(
            command.as_str(),
            Names {
                rtl: rtl.as_str(),
                upf: upf.as_str(),
                lib: lib.as_str(),
                net: net.as_str(),
                map: map.as_str(),
            },
        ),
        _ => None,
    }
}

// The names, where the command is `check` and none of them is an option.
fn named<'a>(command: &str, names: Names<'a>) -> Option<Names<'a>>
    ensures { option_map names_view result ≡ names_of (command.now ∷ name_list (names_view names.entry)) }
{
    if command == "check" && are_names(names) {
        Some(names)
    } else {
        None
    }
}

// Whether none of the names is an option.
fn are_names(names: Names<'_>) -> bool
    ensures { result ≡ list_all (λ name. not (is_option name)) (name_list (names_view names.entry)) }
{
    if is_option(names.rtl) {
        return false;
    }
    if is_option(names.upf) {
        return false;
    }
    if is_option(names.lib) {
        return false;
    }
    if is_option(names.net) {
        return false;
    }
    !is_option(names.map)
}
