// Tables of cells. Past its end a table reads as null.
ghost use Rattle.std.specs.Prelude.{◌≡◌, get_or, map};
ghost use Rattle.plc_mem.specs.State.{null_cell, cut};

use crate::cell::Cell;
use plc_moves::entry_or;

/// The cell at a place of a table.
pub fn cell_or_null(cells: &[Cell], i: usize) -> Cell
    ensures { result ≡ get_or cells.now i null_cell }
{
    entry_or(cells, i, Cell::null())
}

/// Makes the cells invalid that hold an address.
pub fn cut_cells(cells: &mut [Cell], a: u32)
    ensures { cells.new ≡ map (cut a) cells.old }
{
    for cell in cells.iter_mut() {
        if cell.number == a {
            cell.valid = false;
        }
    }
}
