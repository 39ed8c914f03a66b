//! The three copies of the rules of expressions: where each has its rules in the table.

ghost use Rattle.std.specs.Prelude.{◌≡◌};
ghost use Rattle.pe_verilog_read.specs.Copies.{IsCopy};
ghost use Rattle.pe_verilog_read.specs.declared.verilog_table.TheConstants.{VERILOG};

use crate::verilog_table::{
    AT_ANY, AT_BRACES, AT_BRACES_2, AT_BRACES_3, AT_BRACES_PART_3, AT_BRACES_PART_3_PART_1,
    AT_BRACES_PART_3_PART_1_EACH, AT_CONSTANT_ANY, AT_CONSTANT_BRACES, AT_CONSTANT_BRACES_2,
    AT_CONSTANT_BRACES_3, AT_CONSTANT_BRACES_PART_3, AT_CONSTANT_BRACES_PART_3_PART_1,
    AT_CONSTANT_BRACES_PART_3_PART_1_EACH, AT_CONSTANT_EX, AT_CONSTANT_EX_PART_2,
    AT_CONSTANT_EX_PART_2_PART_1, AT_CONSTANT_GROUP, AT_CONSTANT_GROUP_2, AT_CONSTANT_INNER,
    AT_CONSTANT_INNER_2, AT_CONSTANT_LIST, AT_CONSTANT_OPERAND, AT_CONSTANT_PRIMARY,
    AT_CONSTANT_PRIMARY_2, AT_CONSTANT_SELECT, AT_CONSTANT_SELECT_2, AT_CONSTANT_SELECT_3,
    AT_CONSTANT_SELECT_PART_3, AT_CONSTANT_SIDES, AT_CONSTANT_SIDES_2, AT_CONSTANT_UNARY,
    AT_CONSTANT_UNARY_PART_1, AT_EX, AT_EX_PART_2, AT_EX_PART_2_PART_1, AT_GROUP, AT_GROUP_2,
    AT_INNER, AT_INNER_2, AT_LABEL_ANY, AT_LABEL_BRACES, AT_LABEL_BRACES_2, AT_LABEL_BRACES_3,
    AT_LABEL_BRACES_PART_3, AT_LABEL_BRACES_PART_3_PART_1, AT_LABEL_BRACES_PART_3_PART_1_EACH,
    AT_LABEL_EX, AT_LABEL_EX_PART_2, AT_LABEL_EX_PART_2_PART_1, AT_LABEL_GROUP, AT_LABEL_GROUP_2,
    AT_LABEL_INNER, AT_LABEL_INNER_2, AT_LABEL_LIST, AT_LABEL_OPERAND, AT_LABEL_OPERAND_PART_2,
    AT_LABEL_OPERAND_PART_2_PART_2, AT_LABEL_PRIMARY, AT_LABEL_PRIMARY_2, AT_LABEL_SELECT,
    AT_LABEL_SELECT_2, AT_LABEL_SELECT_3, AT_LABEL_SELECT_PART_3, AT_LABEL_SIDES, AT_LABEL_SIDES_2,
    AT_LABEL_UNARY, AT_LABEL_UNARY_PART_1, AT_LIST, AT_OPERAND, AT_OPERAND_PART_2,
    AT_OPERAND_PART_2_PART_2, AT_PRIMARY, AT_PRIMARY_2, AT_SELECT, AT_SELECT_2, AT_SELECT_3,
    AT_SELECT_PART_3, AT_SIDES, AT_SIDES_2, AT_SIMPLE_OPERAND_PART_2,
    AT_SIMPLE_OPERAND_PART_2_PART_2, AT_UNARY, AT_UNARY_PART_1,
};

/// Which expressions are meant.
#[derive(Clone, Copy, Debug, PartialEq, Eq)]
pub(crate) enum Scope {
    /// Those of RTL.
    Whole,
    /// Labels of `casez`, whose numbers may have digits `z` and `?`.
    Label,
    /// Those without names.
    Constant,
}

/// The places of a copy of the rules: of each rule, and with a number behind it of what is left of it from that part on.
#[derive(Clone, Copy)]
pub(crate) struct Rules {
    pub(crate) scope: Scope,
    pub(crate) ex: u16,
    /// What may stand behind the weakest operators.
    pub(crate) choice: u16,
    /// `? ex : ex`
    pub(crate) chosen: u16,
    /// The weakest operators; the stronger ones follow, one place after the other, up to `unary`.
    pub(crate) any: u16,
    pub(crate) unary: u16,
    /// An operator before an operand.
    pub(crate) signed: u16,
    pub(crate) primary: u16,
    pub(crate) primary_2: u16,
    pub(crate) group: u16,
    pub(crate) group_2: u16,
    pub(crate) braces: u16,
    pub(crate) braces_2: u16,
    pub(crate) braces_3: u16,
    /// What stands behind the first expression in braces: others, or a repetition's inner braces.
    pub(crate) joined: u16,
    pub(crate) others: u16,
    /// A comma and an expression.
    pub(crate) each: u16,
    pub(crate) inner: u16,
    pub(crate) inner_2: u16,
    pub(crate) list: u16,
    pub(crate) sides: u16,
    /// A colon and an expression.
    pub(crate) colon: u16,
    pub(crate) select: u16,
    pub(crate) select_2: u16,
    pub(crate) select_3: u16,
    /// What may stand behind the first bound of a select.
    pub(crate) upto: u16,
    pub(crate) operand: u16,
    /// A name, with an index or without.
    pub(crate) named: u16,
    pub(crate) selection: u16,
}

/// The rules of expressions.
pub(crate) fn whole() -> Rules
    ensures copy { IsCopy VERILOG result }
    ensures ex { result.ex ≡ AT_EX }
    ensures list { result.list ≡ AT_LIST }
    ensures sides { result.sides ≡ AT_SIDES }
    ensures select { result.select ≡ AT_SELECT }
    ensures named { result.named ≡ AT_OPERAND_PART_2 }
{
    Rules {
        scope: Scope::Whole,
        ex: AT_EX,
        choice: AT_EX_PART_2,
        chosen: AT_EX_PART_2_PART_1,
        any: AT_ANY,
        unary: AT_UNARY,
        signed: AT_UNARY_PART_1,
        primary: AT_PRIMARY,
        primary_2: AT_PRIMARY_2,
        group: AT_GROUP,
        group_2: AT_GROUP_2,
        braces: AT_BRACES,
        braces_2: AT_BRACES_2,
        braces_3: AT_BRACES_3,
        joined: AT_BRACES_PART_3,
        others: AT_BRACES_PART_3_PART_1,
        each: AT_BRACES_PART_3_PART_1_EACH,
        inner: AT_INNER,
        inner_2: AT_INNER_2,
        list: AT_LIST,
        sides: AT_SIDES,
        colon: AT_SIDES_2,
        select: AT_SELECT,
        select_2: AT_SELECT_2,
        select_3: AT_SELECT_3,
        upto: AT_SELECT_PART_3,
        operand: AT_OPERAND,
        named: AT_OPERAND_PART_2,
        selection: AT_OPERAND_PART_2_PART_2,
    }
}

/// The rules of labels of `casez`.
pub(crate) fn label() -> Rules
    ensures copy { IsCopy VERILOG result }
    ensures ex { result.ex ≡ AT_LABEL_EX }
    ensures list { result.list ≡ AT_LABEL_LIST }
    ensures sides { result.sides ≡ AT_LABEL_SIDES }
    ensures select { result.select ≡ AT_LABEL_SELECT }
    ensures named { result.named ≡ AT_LABEL_OPERAND_PART_2 }
{
    Rules {
        scope: Scope::Label,
        ex: AT_LABEL_EX,
        choice: AT_LABEL_EX_PART_2,
        chosen: AT_LABEL_EX_PART_2_PART_1,
        any: AT_LABEL_ANY,
        unary: AT_LABEL_UNARY,
        signed: AT_LABEL_UNARY_PART_1,
        primary: AT_LABEL_PRIMARY,
        primary_2: AT_LABEL_PRIMARY_2,
        group: AT_LABEL_GROUP,
        group_2: AT_LABEL_GROUP_2,
        braces: AT_LABEL_BRACES,
        braces_2: AT_LABEL_BRACES_2,
        braces_3: AT_LABEL_BRACES_3,
        joined: AT_LABEL_BRACES_PART_3,
        others: AT_LABEL_BRACES_PART_3_PART_1,
        each: AT_LABEL_BRACES_PART_3_PART_1_EACH,
        inner: AT_LABEL_INNER,
        inner_2: AT_LABEL_INNER_2,
        list: AT_LABEL_LIST,
        sides: AT_LABEL_SIDES,
        colon: AT_LABEL_SIDES_2,
        select: AT_LABEL_SELECT,
        select_2: AT_LABEL_SELECT_2,
        select_3: AT_LABEL_SELECT_3,
        upto: AT_LABEL_SELECT_PART_3,
        operand: AT_LABEL_OPERAND,
        named: AT_LABEL_OPERAND_PART_2,
        selection: AT_LABEL_OPERAND_PART_2_PART_2,
    }
}

/// The rules of expressions without names.
pub(crate) fn constant() -> Rules
    ensures copy { IsCopy VERILOG result }
    ensures ex { result.ex ≡ AT_CONSTANT_EX }
    ensures list { result.list ≡ AT_CONSTANT_LIST }
    ensures sides { result.sides ≡ AT_CONSTANT_SIDES }
    ensures select { result.select ≡ AT_CONSTANT_SELECT }
    ensures named { result.named ≡ AT_SIMPLE_OPERAND_PART_2 }
{
    Rules {
        scope: Scope::Constant,
        ex: AT_CONSTANT_EX,
        choice: AT_CONSTANT_EX_PART_2,
        chosen: AT_CONSTANT_EX_PART_2_PART_1,
        any: AT_CONSTANT_ANY,
        unary: AT_CONSTANT_UNARY,
        signed: AT_CONSTANT_UNARY_PART_1,
        primary: AT_CONSTANT_PRIMARY,
        primary_2: AT_CONSTANT_PRIMARY_2,
        group: AT_CONSTANT_GROUP,
        group_2: AT_CONSTANT_GROUP_2,
        braces: AT_CONSTANT_BRACES,
        braces_2: AT_CONSTANT_BRACES_2,
        braces_3: AT_CONSTANT_BRACES_3,
        joined: AT_CONSTANT_BRACES_PART_3,
        others: AT_CONSTANT_BRACES_PART_3_PART_1,
        each: AT_CONSTANT_BRACES_PART_3_PART_1_EACH,
        inner: AT_CONSTANT_INNER,
        inner_2: AT_CONSTANT_INNER_2,
        list: AT_CONSTANT_LIST,
        sides: AT_CONSTANT_SIDES,
        colon: AT_CONSTANT_SIDES_2,
        select: AT_CONSTANT_SELECT,
        select_2: AT_CONSTANT_SELECT_2,
        select_3: AT_CONSTANT_SELECT_3,
        upto: AT_CONSTANT_SELECT_PART_3,
        operand: AT_CONSTANT_OPERAND,
        named: AT_SIMPLE_OPERAND_PART_2,
        selection: AT_SIMPLE_OPERAND_PART_2_PART_2,
    }
}
