//! The first word that is left out of a text.

ghost use Rattle.std.specs.Prelude.{◌≡◌, ◌≤◌, length};
ghost use Rattle.std.specs.List.{All};
ghost use Rattle.pe_text.specs.Lexemes.{IsPartOf, lexemes_of, first_in};
ghost use Rattle.pe_text.specs.LeftOut.{first_left_out};
ghost use Rattle.pe_text.specs.VerilogLeftOut.{is_verilog_left_out, behind_verilog};
ghost use Rattle.pe_text.specs.Commands.{no_command, is_command_left_out, behind_command};
ghost use Rattle.pe_text.specs.declared.verilog_left_out.Before.TheVariants.{Other};

use crate::command::Command;
use crate::language::Lang;
use crate::token::{Token, bytes_of};
use crate::verilog_left_out::{Before, is_left_out};

/// Which token is the first that is left out of texts of the language, or how many tokens there are where none is.
pub fn first_left_out(lang: Lang, text: &[u8], tokens: &[Token]) -> usize
    requires parts { All (IsPartOf (length text.now)) tokens.now }
    ensures place { result ≡ first_left_out lang (lexemes_of text.now tokens.now) }
    ensures within { result ≤ length tokens.now }
{
    match lang {
        Lang::Rtl => verilog(false, text, tokens),
        Lang::Netlist => verilog(true, text, tokens),
        Lang::Upf => upf(text, tokens),
        Lang::Liberty | Lang::Map => tokens.len(),
    }
}

fn verilog(netlist: bool, text: &[u8], tokens: &[Token]) -> usize
    requires parts { All (IsPartOf (length text.now)) tokens.now }
    ensures place { result ≡ first_in (is_verilog_left_out netlist) behind_verilog Other (lexemes_of text.now tokens.now) }
    ensures within { result ≤ length tokens.now }
{
    let mut before = Before::Other;
    for (i, token) in tokens.iter().enumerate() {
        let bytes = bytes_of(text, *token);
        if is_left_out(netlist, before, token.kind, bytes) {
            return i;
        }
        before = before.behind(token.kind, bytes);
    }
    tokens.len()
}

fn upf(text: &[u8], tokens: &[Token]) -> usize
    requires parts { All (IsPartOf (length text.now)) tokens.now }
    ensures place { result ≡ first_in is_command_left_out behind_command no_command (lexemes_of text.now tokens.now) }
    ensures within { result ≤ length tokens.now }
{
    let mut command = Command::none();
    for (i, token) in tokens.iter().enumerate() {
        let bytes = bytes_of(text, *token);
        if command.is_left_out(token.kind, bytes) {
            return i;
        }
        command = command.behind(token.kind, bytes);
    }
    tokens.len()
}
