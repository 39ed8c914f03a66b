//! The power domain of an intent, as it is written.

ghost use Rattle.std.specs.Prelude.{◌≡◌};
ghost use Rattle.std.specs.List.{list_any, list_all};
ghost use Rattle.std.specs.Option.{option_map};
ghost use Rattle.pe_intent.specs.Domain.{seen, domain_in, domain_of, is_top_element, has_top, are_top};

use pe_base::Name;
use pe_upf_read::Command;
use sqlite_items::Items;

/// A power domain, as `create_power_domain` gives it.
#[derive(Clone, Copy, Debug)]
pub(crate) struct DomainText<'a> {
    pub name: &'a Name,
    pub elements: &'a Option<Items<Name>>,
    pub include_scope: bool,
    pub primary: &'a Option<Name>,
}

/// The domain that a command makes.
fn domain_in(command: &Command) -> Option<DomainText<'_>>
    ensures { option_map seen result ≡ domain_in command.now }
{
    match command {
        Command::CreatePowerDomain {
            name,
            elements,
            include_scope,
            primary,
        } => Some(DomainText {
            name,
            elements,
            include_scope: *include_scope,
            primary,
        }),
        _ => None,
    }
}

/// The domain that commands make, where they make just one.
pub(crate) fn domain_of(commands: &[Command]) -> Option<DomainText<'_>>
    ensures { option_map seen result ≡ domain_of commands.now }
{
    let mut found = None;
    for command in commands {
        if let Some(domain) = domain_in(command) {
            if found.is_some() {
                return None;
            }
            found = Some(domain);
        }
    }
    found
}

/// Whether an element is the scope itself, and so the top.
fn is_top_element(name: &Name) -> bool
    ensures { result ≡ is_top_element name.now }
{
    name.is(b".")
}

/// Whether some of the elements is the top.
fn has_top_element(elements: &[Name]) -> bool
    ensures { result ≡ list_any is_top_element elements.now }
{
    elements.iter().any(|name| is_top_element(name))
}

/// Whether all of the elements are the top.
fn are_top_elements(elements: &[Name]) -> bool
    ensures { result ≡ list_all is_top_element elements.now }
{
    elements.iter().all(|name| is_top_element(name))
}

/// Whether a domain names the top: by its scope, or as an element.
pub(crate) fn has_top(domain: &DomainText<'_>) -> bool
    ensures { result ≡ has_top (seen domain.now) }
{
    if domain.include_scope {
        return true;
    }
    match domain.elements {
        Some(elements) => has_top_element(elements.as_slice()),
        None => false,
    }
}

/// Whether a domain names no element but the top.
pub(crate) fn are_top(domain: &DomainText<'_>) -> bool
    ensures { result ≡ are_top (seen domain.now) }
{
    match domain.elements {
        Some(elements) => are_top_elements(elements.as_slice()),
        None => true,
    }
}
