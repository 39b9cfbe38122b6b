ghost use Rattle.input_table.specs.Laws.{TableLaw};

/// The records of a file stand for one table, or break one first rule, but for want of memory.
pub fn table_law()
    ensures { TableLaw }
{}
