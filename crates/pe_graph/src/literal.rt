//! Literals: a node of a graph, or its complement.

ghost use Rattle.std.specs.Prelude.{◌≡◌, ◌<◌, ◌^◌};
ghost use Rattle.pe_graph.specs.Literals.{var_of, is_negated, complement_of, truth_of, lit_of};

use std::marker::Model;

/// A node of a graph or its complement. Contracts see it as a number: twice the number of its node, and one more where
/// it is complemented.
#[derive(Clone, Copy, Debug, Default, PartialEq, Eq, Hash)]
pub struct Lit {
    code: u64,
}

impl Model for Lit {
    ghost use Rattle.std.specs.Prelude.{ℕ};
    ghost use Rattle.std.specs.Coded.{coded_ℕ};

    ghost Value = { ℕ };

    ghost coded = { coded_ℕ };

    ghost view = { λ l. l.code };

    ghost inverse = { λ n. record { code = n } };
}

impl Lit {
    /// The constant. Node 0 of each graph is the constant true.
    pub fn truth(value: bool) -> Lit
        ensures { result ≡ truth_of value }
    {
        Lit {
            code: if value { 0 } else { 1 },
        }
    }

    /// The node of this number, or its complement.
    pub fn of(var: u64, negated: bool) -> Lit
        requires { var < 2 ^ 62 }
        ensures { result ≡ lit_of var negated }
    {
        Lit {
            code: if negated { 2 * var + 1 } else { 2 * var },
        }
    }

    /// The number of its node.
    pub fn var(self) -> u64
        ensures { result ≡ var_of self }
    {
        self.code / 2
    }

    /// Whether it is complemented.
    pub fn negated(self) -> bool
        ensures { result ≡ is_negated self }
    {
        self.code % 2 == 1
    }

    /// The complement.
    pub fn complement(self) -> Lit
        ensures { result ≡ complement_of self }
    {
        Lit {
            code: if self.negated() {
                self.code - 1
            } else {
                self.code + 1
            },
        }
    }

    /// Its number, for tables: twice the number of its node, and one more where it is complemented.
    pub fn code(self) -> u64
        ensures { result ≡ self }
    {
        self.code
    }
}
