//! Why an intent has no supplies.

ghost use Rattle.std.specs.Prelude.{◌≡◌};
ghost use Rattle.pe_supply.specs.declared.fault.SupplyFault.TheVariants as fault;

use pe_base::{Name, Want};
use std::alloc::AllocError;
use thiserror::Error;

/// Why an intent has no supplies. Each refusal comes only where none before it does.
#[derive(Debug, Drop, Error)]
pub enum SupplyFault {
    /// Memory could not be had.
    #[error("out of memory")]
    Memory,
    /// No command makes what a command names, the first of them.
    #[error("no such supply")]
    NoSupply { name: Name },
    /// Two outputs of switches are names of one supply, whose first name this is.
    #[error("two drivers")]
    TwoDrivers { name: Name },
    /// The port is on two nets.
    #[error("two nets")]
    TwoNets { port: Name },
    /// The supply of this first name reaches itself through inputs of switches.
    #[error("a supply loop")]
    SupplyLoop { name: Name },
    /// An expression of the switch is no function of its control ports.
    #[error("no function")]
    Expression { name: Name },
    /// The power state table has no row.
    #[error("no rows")]
    NoRows,
    /// A second power state table is made.
    #[error("two tables")]
    TwoTables { name: Name },
    /// The row is not as long as the table.
    #[error("a row's length")]
    RowLength { name: Name },
    /// A row has this word, which is no state of its supply.
    #[error("no such state")]
    NoState { name: Name },
    /// There are more than 64 rows, so many; the greatest u32 where they are more.
    #[error("{count} rows")]
    TooManyRows { count: u32 },
    /// There are more than 64 supplies, so many; the greatest u32 where they are more.
    #[error("{count} supplies")]
    TooManySupplies { count: u32 },
}

impl From<Want> for SupplyFault {
    ghost from_gives = { λ _ e. e ≡ fault.Memory };

    fn from(_want: Want) -> SupplyFault {
        SupplyFault::Memory
    }
}

impl From<AllocError> for SupplyFault {
    ghost from_gives = { λ _ e. e ≡ fault.Memory };

    fn from(_error: AllocError) -> SupplyFault {
        SupplyFault::Memory
    }
}
