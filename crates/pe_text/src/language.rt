//! Languages, and the classes of tokens that they have.

ghost use Rattle.std.specs.Prelude.{◌≡◌};
ghost use Rattle.pe_text.specs.Language.{class_of};

/// The languages of the five texts.
#[derive(Clone, Copy, Debug, PartialEq, Eq)]
pub enum Lang {
    Rtl,
    Netlist,
    Upf,
    Liberty,
    Map,
}

/// What tokens a text is cut into: those of a language, or of the boolean functions that stand in a text of one.
#[derive(Clone, Copy, Debug, PartialEq, Eq)]
pub enum Class {
    /// IEEE 1364, RTL and netlists.
    Verilog,
    /// IEEE 1801, over Tcl.
    Upf,
    Liberty,
    /// The map file.
    Map,
    /// Boolean functions in the style of Liberty.
    LibertyFunction,
    /// Boolean functions in the style of UPF.
    UpfFunction,
}

impl Lang {
    /// The tokens of the language.
    pub fn class(self) -> Class
        ensures { result ≡ class_of self }
    {
        match self {
            Lang::Rtl | Lang::Netlist => Class::Verilog,
            Lang::Upf => Class::Upf,
            Lang::Liberty => Class::Liberty,
            Lang::Map => Class::Map,
        }
    }
}
