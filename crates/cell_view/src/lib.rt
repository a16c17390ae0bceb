// A view over cells: the sheet's bytes and a cell's number, held in one struct. The work is done by crate `layout`, on the slice and the number; `cell_of`
// stands above the view with plain parameters.
#![tactic(auto)]

ghost use Rattle.std.specs.Prelude.{◌≡◌, ◌<◌};
ghost use Rattle.sheet.specs.Parts.{cell_count};
ghost use Rattle.sheet.specs.Cell as Sheet;
ghost use Rattle.layout.specs.Layout.{Whole, IsCell};

#[derive(Clone, Copy)]
pub struct CellView<'a> {
    pub sheet: &'a [u8],
    pub number: usize,
}

impl<'a> CellView<'a> {
    // The view of cell `number` of a sheet.
    pub fn new(sheet: &'a [u8], number: usize) -> CellView<'a>
        ensures { (result.sheet ≡ sheet.entry) × (result.number ≡ number) }
    {
        CellView { sheet, number }
    }

    // The cell that is viewed.
    pub fn cell(&self) -> layout::Cell
        requires { Whole self.now.sheet.now × (self.now.number < cell_count self.now.sheet.now) }
        ensures { IsCell (Sheet.cell self.now.sheet.now self.now.number) result }
    {
        layout::cell_at(self.sheet, self.number)
    }
}

// Cell `number` of a sheet, read through a view.
pub fn cell_of(sheet: &[u8], number: usize) -> layout::Cell
    requires { Whole sheet.now × (number < cell_count sheet.now) }
    ensures { IsCell (Sheet.cell sheet.now number) result }
{
    CellView::new(sheet, number).cell()
}
