ghost use Rattle.part_layout.specs.LayoutLaws.{TableLaw, LaidLaw};

/// The cells of keys are a table over which the code of uses may run, where all has cells that their sides read.
pub fn table_law()
    ensures { TableLaw }
{}

/// The layout of equations has a cell for each name that they reach and for all that they read.
pub fn laid_law()
    ensures { LaidLaw }
{}
