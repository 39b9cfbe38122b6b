use sync_values::Text;

/// The place of a broken rule.
#[derive(Debug, Drop)]
pub enum Place {
    /// A line and a column of the text, both from 1; columns count bytes.
    At { line: u32, column: u32 },
    Equation(u32),
    Name(Text),
    /// A row and a column of the table; the header is row 0, and columns are from 1.
    Cell { row: u32, column: u32 },
    Model,
    Table,
    Plan,
}
