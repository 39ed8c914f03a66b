//! What the tokens before a place of a UPF text make of it, and the words that no text which is accepted has.

ghost use Rattle.std.specs.Prelude.{◌≡◌, ◌+◌, ◌<◌, ◌^◌};
ghost use Rattle.pe_text.specs.Commands.{form_of, no_command, begun, behind_word, behind_other, behind_mark, behind_command, is_second, is_switch, is_ignored, is_option_left_out, is_word_left_out, is_kind_left_out};

use crate::among::is_among;
use crate::token::Kind;

static LEFT_OUT_COMMANDS: [&[u8]; 25] = [
    b"source",
    b"load_upf",
    b"set_scope",
    b"set",
    b"foreach",
    b"if",
    b"proc",
    b"create_logic_port",
    b"create_logic_net",
    b"connect_logic_net",
    b"set_isolation_control",
    b"set_retention_control",
    b"set_retention_elements",
    b"map_isolation_cell",
    b"map_level_shifter_cell",
    b"use_interface_cell",
    b"associate_supply_set",
    b"describe_state_transition",
    b"set_repeater",
    b"create_composite_domain",
    b"set_equivalent",
    b"set_simstate_behavior",
    b"set_port_attributes",
    b"set_design_attributes",
    b"add_power_state",
];

static LEFT_OUT_OPTIONS: [&[u8]; 13] = [
    b"-source",
    b"-sink",
    b"-diff_supply_only",
    b"-resolve",
    b"-update",
    b"-scope",
    b"-error_state",
    b"-on_partial_state",
    b"-ack_port",
    b"-isolation_power_net",
    b"-isolation_ground_net",
    b"-retention_power_net",
    b"-retention_ground_net",
];

static IGNORED_COMMANDS: [&[u8]; 3] = [
    b"set_level_shifter",
    b"map_retention_cell",
    b"map_power_switch",
];

/// What kind of command has begun.
#[derive(Clone, Copy, Debug, PartialEq, Eq)]
pub enum Form {
    Plain,
    /// It is read with any words, and has no effect.
    Ignored,
    /// `create_power_switch`
    Switch,
}

impl Form {
    fn is_switch(self) -> bool
        ensures { result ≡ is_switch self }
    {
        matches!(self, Form::Switch)
    }

    fn is_ignored(self) -> bool
        ensures { result ≡ is_ignored self }
    {
        matches!(self, Form::Ignored)
    }
}

/// What stands before a token of a UPF text.
#[derive(Clone, Copy, Debug, PartialEq, Eq)]
pub struct Command {
    /// A command could start here.
    pub is_start: bool,
    pub form: Form,
    /// How many braces are open.
    pub braces: usize,
    /// The command has an `-on_state`.
    pub has_on_state: bool,
    /// The command has an `-input_supply_port`.
    pub has_input: bool,
    /// An `-on_state` or `-off_state` stands right before, or the braces that it stands before are open.
    pub is_state: bool,
}

fn form_of(word: &[u8]) -> Form
    ensures { result ≡ form_of word.now }
{
    if is_among(&IGNORED_COMMANDS, word) {
        Form::Ignored
    } else if word == b"create_power_switch".as_slice() {
        Form::Switch
    } else {
        Form::Plain
    }
}

impl Command {
    /// Before the first token of a text.
    pub(crate) fn none() -> Command
        ensures { result ≡ no_command }
    {
        Command {
            is_start: true,
            form: Form::Plain,
            braces: 0,
            has_on_state: false,
            has_input: false,
            is_state: false,
        }
    }

    fn begun(word: &[u8]) -> Command
        ensures { result ≡ begun word.now }
    {
        Command {
            is_start: false,
            form: form_of(word),
            braces: 0,
            has_on_state: false,
            has_input: false,
            is_state: false,
        }
    }

    fn behind_word(self, word: &[u8]) -> Command
        ensures { result ≡ behind_word self word.now }
    {
        let is_on_state = word == b"-on_state".as_slice();
        Command {
            is_start: false,
            form: self.form,
            braces: 0,
            has_on_state: self.has_on_state || is_on_state,
            has_input: self.has_input || word == b"-input_supply_port".as_slice(),
            is_state: is_on_state || word == b"-off_state".as_slice(),
        }
    }

    fn behind_other(self, braces: usize, is_state: bool) -> Command
        ensures { result ≡ behind_other self braces is_state }
    {
        Command {
            is_start: false,
            form: self.form,
            braces,
            has_on_state: self.has_on_state,
            has_input: self.has_input,
            is_state,
        }
    }

    fn behind_mark(self, mark: &[u8]) -> Command
        requires { self.braces + 1 < 2 ^ 64 }
        ensures { result ≡ behind_mark self mark.now }
    {
        if mark == b"{".as_slice() {
            self.behind_other(self.braces + 1, self.is_state)
        } else if mark == b"}".as_slice() {
            let braces = self.braces.saturating_sub(1);
            self.behind_other(braces, self.is_state && braces != 0)
        } else {
            self.behind_other(self.braces, self.is_state && self.braces != 0)
        }
    }

    /// What stands before the next token.
    pub(crate) fn behind(self, kind: Kind, bytes: &[u8]) -> Command
        requires { self.braces + 1 < 2 ^ 64 }
        ensures { result ≡ behind_command self kind bytes.now }
    {
        match kind {
            Kind::End => Command::none(),
            Kind::Mark => self.behind_mark(bytes),
            Kind::Word => {
                if self.is_start {
                    Command::begun(bytes)
                } else if self.braces == 0 {
                    self.behind_word(bytes)
                } else {
                    self.behind_other(self.braces, self.is_state)
                }
            }
            Kind::Text => self.behind_other(self.braces, self.is_state && self.braces != 0),
            Kind::Escaped | Kind::Number => self,
        }
    }

    fn is_second(self, word: &[u8]) -> bool
        ensures { result ≡ is_second self word.now }
    {
        (self.has_on_state && word == b"-on_state".as_slice())
            || (self.has_input && word == b"-input_supply_port".as_slice())
    }

    fn is_option_left_out(self, word: &[u8]) -> bool
        ensures { result ≡ is_option_left_out self word.now }
    {
        is_among(&LEFT_OUT_OPTIONS, word) || (self.form.is_switch() && self.is_second(word))
    }

    fn is_word_left_out(self, word: &[u8]) -> bool
        ensures { result ≡ is_word_left_out self word.now }
    {
        if self.is_start {
            is_among(&LEFT_OUT_COMMANDS, word)
        } else if self.braces == 0 && !self.form.is_ignored() {
            self.is_option_left_out(word)
        } else {
            false
        }
    }

    /// Whether a token is left out, with this before it.
    pub(crate) fn is_left_out(self, kind: Kind, bytes: &[u8]) -> bool
        ensures { result ≡ is_kind_left_out self kind bytes.now }
    {
        match kind {
            Kind::Word => self.is_word_left_out(bytes),
            Kind::Mark => bytes == b"$".as_slice() || bytes == b"[".as_slice(),
            Kind::Escaped | Kind::Number | Kind::Text | Kind::End => false,
        }
    }
}
