//! What the tokens before a place have to do with what starts there.

/// What is kept of the tokens before a place. In most languages it is `Fresh` everywhere.
#[derive(Clone, Copy, Debug, PartialEq, Eq)]
pub enum Mode {
    /// At the start of the text, and wherever none of the others is. In UPF a command could start.
    Fresh,
    /// UPF: a command has begun, and so many braces are open.
    Braces(u32),
    /// Liberty: a `:` stood last, and no value behind it.
    Colon,
    /// Liberty: behind a `:` stand values, which the end of the line ends.
    Values,
}
