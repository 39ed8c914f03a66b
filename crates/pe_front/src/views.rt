//! The views of the cells that a netlist uses.

ghost use Rattle.std.specs.Prelude.{◌≡◌, true, [], ◌∷◌, ◌++◌, IfOk, IfErr, OnOk};
ghost use Rattle.std.specs.List.{All};
ghost use Rattle.pe_cells.specs.Functions.{are_short_cells};
ghost use Rattle.pe_cells.specs.WellFormed.{IsWellFormed};
ghost use Rattle.pe_front.specs.Views.{AreViews, AreUnviewed};

use pe_base::{Name, Want};
use pe_cells::{CellFault, CellView, view};
use pe_liberty_read::Group;
use sqlite_items::Items;
use std::alloc::Global;

/// Adds a view at the end.
fn add(views: &mut Items<CellView>, view: CellView) -> Result<(), Want>
    ensures { OnOk result (views.new ≡ views.old ++ view ∷ []) }
{
    views.push(view)?;
    Ok(())
}

/// The views of cells, or why the first that has none has none.
pub(crate) fn views(
    alloc: Global,
    library: &Group,
    cells: &[Name],
) -> Result<Items<CellView>, CellFault>
    requires { are_short_cells library.now ≡ true }
    ensures found { IfOk result (AreViews library.now cells.now) }
    ensures well_formed { IfOk result (All IsWellFormed) }
    ensures refused { IfErr result (AreUnviewed library.now cells.now) }
{
    let mut views = Items::new(alloc);
    for cell in cells {
        match view(alloc, library, cell) {
            Ok(view) => {
                add(&mut views, view)?;
            }
            Err(fault) => return Err(fault),
        }
    }
    Ok(views)
}
