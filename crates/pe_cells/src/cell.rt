//! What a cell of a library has.

use pe_base::{Name, Val};
use pe_bool_expr::Expr;
use sqlite_items::Items;

/// A cell. In its functions a pin's number counts the signal pins, then the power and ground pins, then the two values of the
/// register, IQ and IQN. Everywhere else a pin is a place among the signal pins or among the power and ground pins.
#[derive(Debug, Drop)]
pub struct CellView {
    /// The signal pins, in the order of the text.
    pub signals: Items<Signal>,
    /// The power and ground pins, in the order of the text.
    pub pgs: Items<Pg>,
    pub register: Option<CellRegister>,
    pub retention: Option<CellRetention>,
    /// In the order of the pins that they drive.
    pub switches: Items<CellSwitch>,
}

/// A pin that carries a value.
#[derive(Debug, Drop)]
pub struct Signal {
    pub name: Name,
    /// The cell drives it.
    pub output: bool,
    pub function: Option<Expr>,
    /// Where this is not a known 0, the output is corrupt.
    pub down: Option<Expr>,
    /// The power pin that it depends on, and the ground pin: places among the power and ground pins.
    pub power: Option<u32>,
    pub ground: Option<u32>,
}

/// What a power or ground pin is for.
#[derive(Clone, Copy, Debug, PartialEq, Eq)]
pub enum PgKind {
    PrimaryPower,
    PrimaryGround,
    BackupPower,
    BackupGround,
    InternalPower,
    InternalGround,
    /// A well: it has no effect.
    Well,
}

/// A power or ground pin.
#[derive(Debug, Drop)]
pub struct Pg {
    pub name: Name,
    pub kind: PgKind,
}

/// The flip-flop of a cell.
#[derive(Debug, Drop)]
pub struct CellRegister {
    pub next: Expr,
    pub clock: Expr,
    pub clear: Option<Expr>,
    pub preset: Option<Expr>,
    /// The values of IQ and of IQN while both clear and preset are active.
    pub both: (Val, Val),
}

/// A pin that saves or restores a retained value.
#[derive(Clone, Copy, Debug, PartialEq, Eq)]
pub struct RetentionPin {
    /// A place among the signal pins.
    pub pin: u32,
    /// The value at which it does nothing.
    pub disable: bool,
    /// Which edge of it acts, and none where its level does.
    pub rising: Option<bool>,
}

/// What a cell with a register keeps while its primary power is off.
#[derive(Clone, Copy, Debug, PartialEq, Eq)]
pub struct CellRetention {
    pub save: Option<RetentionPin>,
    pub restore: Option<RetentionPin>,
}

/// A switch of a cell: places among the power and ground pins of the pin that it drives and of the pin that it passes on,
/// and the function that turns it off.
#[derive(Debug, Drop)]
pub struct CellSwitch {
    pub output: u32,
    pub input: u32,
    pub function: Expr,
}
