//! Reads a text as a boolean function.

ghost use Rattle.std.specs.Prelude.{◌≡◌, ◌≤◌, ◌↔◌, ◌⊎◌, ℕ, Some, Err, Result, IfOk, MatchResult, length, List};
ghost use Rattle.pe_grammar.specs.declared.failure.Failure.TheVariants as failure;
ghost use Rattle.pe_grammar.specs.Derivation.{Derivation, derivation};
ghost use Rattle.pe_grammar.specs.Grammar.{Derives, IsFault, IsRead, Spells};
ghost use Rattle.pe_grammar.specs.Written.{IsOf as IsOfWritten, rule};
ghost use Rattle.pe_text.specs.Cut.{AreInOrder};
ghost use Rattle.pe_bool_expr.specs.declared.expr.Expr.{Expr};
ghost use Rattle.pe_bool_expr.specs.declared.fault.ExprFault.{ExprFault};
ghost use Rattle.pe_bool_expr.specs.declared.fault.ExprFault.TheVariants as fault;
ghost use Rattle.pe_bool_expr.specs.declared.style.Style.{Style};
ghost use Rattle.pe_bool_expr.specs.Reading.{IsOf, IsRefused, IsFunction, IsAnswered, IsSyntaxAt, IsNoNameAt, IsDeepAt, HasInputs, IsOutcome, start_of, IsShallow, IsParse};
ghost use Rattle.pe_bool_expr.specs.Nesting.{first_deep as deep_in};
ghost use Rattle.pe_bool_expr.specs.Terminals.{terminals_from};
ghost use Rattle.pe_bool_expr.specs.Functions.{different, pins_of as pins_in};
ghost use Rattle.pe_bool_expr.specs.Styles.{table_of};
ghost use Rattle.pe_bool_expr.specs.LibertyGrammar.{liberty_grammar};
ghost use Rattle.pe_bool_expr.specs.UpfGrammar.{upf_grammar};

use crate::build::make_level;
use crate::different::add_pins;
use crate::expr::Expr;
use crate::fault::ExprFault;
use crate::liberty_table::{AT_SUM, LIBERTY};
use crate::names::pins_of;
use crate::nesting::first_deep;
use crate::scan::first_wrong;
use crate::style::{Style, class};
use crate::terminal::terminals;
use crate::upf_table::{AT_ANY, UPF};
use pe_base::Name;
use pe_grammar::{Failure, Token as Terminal, Tree, parse as read};
use pe_text::{LexFault, Token, cut};
use sqlite_items::Items;
use std::alloc::Global;

/// How many different names a function may have.
const INPUTS: u32 = 10;

/// The derivation that the terminals have in the grammar of a style.
fn read_tree(alloc: Global, style: Style, terminals: &[Terminal]) -> Result<Tree, Failure>
    ensures found { IfOk result (λ t. Spells (table_of style) 0 terminals.now (derivation t)) }
    ensures only { (d : Derivation) → Spells (table_of style) 0 terminals.now d → IsRead d result }
    ensures fault { (at : ℕ) → result ≡ Err (failure.Syntax at) → IsFault (table_of style) 0 terminals.now at }
{
    match style {
        Style::Liberty => read(alloc, &LIBERTY, 0, terminals),
        Style::Upf => read(alloc, &UPF, 0, terminals),
    }
}

/// Where a token starts by its number, or where the text ends.
fn start(text: &[u8], tokens: &[Token], number: usize) -> u32
    requires { length text.now ≤ 16777216 }
    ensures { result ≡ start_of text.now tokens.now number }
{
    match tokens.get(number) {
        Some(token) => token.span.from,
        None => text.len() as u32,
    }
}

/// How many different pins a function has. More than the greatest u32 are told as want of memory, which so many would be.
fn count_inputs(alloc: Global, e: &Expr) -> Result<u32, ExprFault>
    ensures { MatchResult result (λ count. count ≡ length (different (pins_in e.now))) (λ e. e ≡ fault.Memory) }
{
    let mut pins = Items::new(alloc);
    add_pins(e, &mut pins)?;
    match u32::try_from(pins.len()) {
        Ok(count) => Ok(count),
        Err(_) => Err(ExprFault::Memory),
    }
}

/// The function that the tokens of a text are.
fn read_tokens(
    alloc: Global,
    text: &[u8],
    tokens: &[Token],
    style: Style,
    names: &[Name],
) -> Result<Expr, ExprFault>
    requires order { AreInOrder 0 (length text.now) tokens.now }
    requires short { length text.now ≤ 16777216 }
    ensures { MatchResult result
        (λ e. IsOf style names.now text.now tokens.now e)
        (λ f. IsRefused style names.now text.now tokens.now f) }
{
    let terminals = terminals(alloc, style, text, tokens)?;
    if let Some(deep) = first_deep(alloc, style, terminals.as_slice())? {
        let fault = deep_fault(
            alloc,
            text,
            tokens,
            style,
            names,
            terminals.as_slice(),
            deep,
        );
        return Err(fault);
    }
    match read_tree(alloc, style, terminals.as_slice()) {
        Ok(tree) => read_names(alloc, text, tokens, style, names, &tree),
        Err(Failure::Memory) => Err(ExprFault::Memory),
        Err(Failure::Syntax(number)) => {
            let at = start(text, tokens, number);
            Err(ExprFault::Syntax { at })
        }
    }
}

/// Why the tokens of a text that is nested over 64 from `deep` on are no function. They are judged without recursion, which
/// would be as deep as they are nested.
fn deep_fault(
    alloc: Global,
    text: &[u8],
    tokens: &[Token],
    style: Style,
    names: &[Name],
    terminals: &[Terminal],
    deep: Terminal,
) -> ExprFault
    requires order { AreInOrder 0 (length text.now) tokens.now }
    requires short { length text.now ≤ 16777216 }
    requires terminals { terminals.now ≡ terminals_from style text.now 0 tokens.now }
    requires deep { deep_in style terminals.now ≡ Some deep }
    ensures { IsRefused style names.now text.now tokens.now result }
{
    if let Some(number) = first_wrong(style, terminals) {
        let at = start(text, tokens, number);
        return ExprFault::Syntax { at };
    }
    match pins_of(alloc, names, text, tokens) {
        Ok(_) => {
            let at = start(text, tokens, deep.place as usize);
            ExprFault::Deep { at }
        }
        Err(fault) => fault,
    }
}

/// The function of a derivation.
fn read_names(
    alloc: Global,
    text: &[u8],
    tokens: &[Token],
    style: Style,
    names: &[Name],
    tree: &Tree,
) -> Result<Expr, ExprFault>
    requires order { AreInOrder 0 (length text.now) tokens.now }
    requires shallow { IsShallow style text.now tokens.now }
    requires parsed { IsParse style text.now tokens.now (derivation tree.now) }
    ensures { MatchResult result
        (λ e. IsOf style names.now text.now tokens.now e)
        (λ f. IsRefused style names.now text.now tokens.now f) }
{
    match pins_of(alloc, names, text, tokens) {
        Ok(pins) => {
            let function = make_level(alloc, style, pins.as_slice(), 0, tree)?;
            match count_inputs(alloc, &function) {
                Ok(count) if count <= INPUTS => Ok(function),
                Ok(count) => Err(ExprFault::Inputs { count }),
                Err(fault) => Err(fault),
            }
        }
        Err(fault) => Err(fault),
    }
}

/// The boolean function that a text is, its names as pins: each the first place that it has among the names.
///
/// A chain of operands of one operator is a balanced tree, and `!`, `~` and `'` are `Not`: a run of `'` is one where it is
/// odd, and none where it is even. So a tree is no deeper than 64 and, for each level of parentheses, the logarithms of its
/// chains.
///
/// A text is refused for the first of these that holds: a byte begins no token, or the tokens are no text of the grammar,
/// which is `Syntax`; a name is not among the names, which is `NoName`; it is nested over 64, which is `Deep`; it has more
/// than 10 different names, which is `Inputs`. Each name is compared with the names one after the other, so they should be
/// few.
pub fn parse(alloc: Global, text: &[u8], style: Style, names: &[Name]) -> Result<Expr, ExprFault>
    requires { length text.now ≤ 16777216 }
    // What is answered is the function that the text is.
    ensures found { IfOk result (λ e. IsFunction style names.now text.now e) }
    // The function that a text is is answered, unless memory runs out.
    ensures only { (e : Expr) → IsFunction style names.now text.now e → IsAnswered e result }
    // So it may be evaluated.
    ensures few { IfOk result (λ e. length (different (pins_in e)) ≤ 10) }
    ensures syntax { (at : ℕ) → result ≡ Err (fault.Syntax at) → IsSyntaxAt style text.now at }
    ensures no_name { (at : ℕ) → result ≡ Err (fault.NoName at) → IsNoNameAt style names.now text.now at }
    ensures deep { (at : ℕ) → result ≡ Err (fault.Deep at) → IsDeepAt style names.now text.now at }
    ensures inputs { (count : ℕ) → result ≡ Err (fault.Inputs count) → HasInputs style names.now text.now count }
    // And what is so of the text is answered, unless memory runs out.
    ensures exact { (outcome : Result Expr ExprFault) → IsOutcome style names.now text.now outcome → (result ≡ outcome) ⊎ (result ≡ Err fault.Memory) }
{
    match cut(alloc, class(style), text) {
        Ok(tokens) => {
            let answer = read_tokens(alloc, text, tokens.as_slice(), style, names);
            answer
        }
        Err(LexFault::Memory) => Err(ExprFault::Memory),
        Err(LexFault::Bad { at }) => Err(ExprFault::Syntax { at }),
    }
}

/// A text is one function over the names and in a style or is none for one reason, and its grammar is as it is written.
pub fn one_function()
    ensures outcome { (style : Style) (names : List (List ℕ)) (text : List ℕ) (a b : Result Expr ExprFault) → IsOutcome style names text a → IsOutcome style names text b → a ≡ b }
    ensures one { (style : Style) (names : List (List ℕ)) (text : List ℕ) (e f : Expr) → IsFunction style names text e → IsFunction style names text f → e ≡ f }
    ensures liberty { (d : Derivation) → Derives LIBERTY AT_SUM d ↔ IsOfWritten liberty_grammar (rule 0) d }
    ensures upf { (d : Derivation) → Derives UPF AT_ANY d ↔ IsOfWritten upf_grammar (rule 0) d }
{}
