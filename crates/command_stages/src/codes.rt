//! The codes of the layers as those that are printed.
ghost use Rattle.std.specs.Prelude.{◌≡◌};
ghost use Rattle.command_answer.specs.Codes.{code_of_lexical, code_of_syntax, code_of_name, code_of_type, code_of_order, code_of_table};

use eq_order::OrderCode;
use flat_answer::NameCode;
use flat_types::TypeCode;
use input_table::TableCode;
use mo_lexer::LexCode;
use mo_parser::SyntaxCode;
use trace_print::Code;

pub fn lexical_code(code: LexCode) -> Code
    ensures { result ≡ code_of_lexical code }
{
    match code {
        LexCode::L1 => Code::L1,
        LexCode::L2 => Code::L2,
        LexCode::L3 => Code::L3,
        LexCode::L4 => Code::L4,
    }
}

pub fn syntax_code(code: SyntaxCode) -> Code
    ensures { result ≡ code_of_syntax code }
{
    match code {
        SyntaxCode::S1 => Code::S1,
        SyntaxCode::S2 => Code::S2,
        SyntaxCode::S3 => Code::S3,
    }
}

pub fn name_code(code: NameCode) -> Code
    ensures { result ≡ code_of_name code }
{
    match code {
        NameCode::N1 => Code::N1,
        NameCode::N2 => Code::N2,
        NameCode::N3 => Code::N3,
        NameCode::N4 => Code::N4,
        NameCode::N5 => Code::N5,
        NameCode::N6 => Code::N6,
        NameCode::N7 => Code::N7,
        NameCode::N8 => Code::N8,
        NameCode::N9 => Code::N9,
        NameCode::N10 => Code::N10,
        NameCode::N11 => Code::N11,
    }
}

pub fn type_code(code: TypeCode) -> Code
    ensures { result ≡ code_of_type code }
{
    match code {
        TypeCode::Y1 => Code::Y1,
        TypeCode::Y2 => Code::Y2,
        TypeCode::Y3 => Code::Y3,
        TypeCode::Y4 => Code::Y4,
        TypeCode::Y5 => Code::Y5,
    }
}

pub fn order_code(code: OrderCode) -> Code
    ensures { result ≡ code_of_order code }
{
    match code {
        OrderCode::Q1 => Code::Q1,
        OrderCode::Q2 => Code::Q2,
        OrderCode::Q3 => Code::Q3,
        OrderCode::Q4 => Code::Q4,
    }
}

pub fn table_code(code: TableCode) -> Code
    ensures { result ≡ code_of_table code }
{
    match code {
        TableCode::I1 => Code::I1,
        TableCode::I2 => Code::I2,
        TableCode::I3 => Code::I3,
        TableCode::I4 => Code::I4,
        TableCode::I5 => Code::I5,
        TableCode::I6 => Code::I6,
        TableCode::I7 => Code::I7,
    }
}
