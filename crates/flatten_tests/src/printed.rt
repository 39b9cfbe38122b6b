//! Flat models whose types are not known, and refusals, as texts: a name with its type and start, an equation with its number
//! and that of its clause, and the clocks of the clauses, with ` / ` between them.
use flat_model::{FlatName, NameKind, Place, RawEq, RawExpr, RawModel};
use mo_flatten::NameCode;
use std::alloc::{AllocError, Global};
use sync_values::{ChainOp, Rel, Text, Value};

fn spelled(text: &Text) -> &str {
    std::str::from_utf8(text.as_bytes()).unwrap_or("?")
}

fn value_text(alloc: Global, value: Value) -> Result<String, AllocError> {
    match value {
        Value::Int(number) => format!(in alloc; "{number}"),
        Value::Bool(true) => format!(in alloc; "true"),
        Value::Bool(false) => format!(in alloc; "false"),
    }
}

fn op_text(op: ChainOp) -> &'static str {
    match op {
        ChainOp::Plus => " + ",
        ChainOp::Minus => " - ",
        ChainOp::Times => " * ",
        ChainOp::Over => " / ",
        ChainOp::And => " and ",
        ChainOp::Or => " or ",
    }
}

fn rel_text(rel: Rel) -> &'static str {
    match rel {
        Rel::Less => " < ",
        Rel::LessEq => " <= ",
        Rel::Greater => " > ",
        Rel::GreaterEq => " >= ",
        Rel::Equal => " == ",
        Rel::Unequal => " <> ",
    }
}

fn put_name(names: &[FlatName], number: u32, out: &mut String) -> Result<(), AllocError> {
    match names.get(number as usize) {
        Some(name) => out.push_str(spelled(&name.text)),
        None => out.push_str("no name"),
    }
}

/// The names of a model, and the memory for its text.
#[derive(Clone, Copy)]
struct Printer<'a> {
    alloc: Global,
    names: &'a [FlatName],
}

impl<'a> Printer<'a> {
    /// Adds expressions, each but the first with what stands before it.
    #[cycle(expression)]
    fn put_all(
        &self,
        parts: &[RawExpr],
        between: &str,
        out: &mut String,
    ) -> Result<(), AllocError> {
        for (number, part) in parts.iter().enumerate() {
            if 0 < number {
                out.push_str(between)?;
            }
            self.put(part, out)?;
        }
        Ok(())
    }

    /// Adds the parts of a chain with the operators between them.
    #[cycle(expression)]
    fn put_chain(
        &self,
        parts: &[RawExpr],
        ops: &[ChainOp],
        out: &mut String,
    ) -> Result<(), AllocError> {
        out.push_str("(")?;
        for (number, part) in parts.iter().enumerate() {
            if 0 < number {
                match ops.get(number - 1) {
                    Some(op) => out.push_str(op_text(*op))?,
                    None => out.push_str(" no operator ")?,
                }
            }
            self.put(part, out)?;
        }
        out.push_str(")")
    }

    /// Adds an expression behind an operator, in brackets.
    #[cycle(expression)]
    fn put_behind(
        &self,
        operator: &str,
        part: &RawExpr,
        out: &mut String,
    ) -> Result<(), AllocError> {
        out.push_str("(")?;
        out.push_str(operator)?;
        self.put(part, out)?;
        out.push_str(")")
    }

    /// Adds an expression.
    #[cycle(expression)]
    fn put(&self, expr: &RawExpr, out: &mut String) -> Result<(), AllocError> {
        match expr {
            RawExpr::Const(value) => out.push_str(value_text(self.alloc, *value)?.as_str()),
            RawExpr::Name(number) => put_name(self.names, *number, out),
            RawExpr::Time => out.push_str("time"),
            RawExpr::Call(name, parts) => {
                out.push_str(spelled(name))?;
                out.push_str("(")?;
                self.put_all(parts.as_slice(), ", ", out)?;
                out.push_str(")")
            }
            RawExpr::Chain(parts, ops) => self.put_chain(parts.as_slice(), ops.as_slice(), out),
            RawExpr::Relation(rel, left, right) => {
                out.push_str("(")?;
                self.put(left.get(), out)?;
                out.push_str(rel_text(*rel))?;
                self.put(right.get(), out)?;
                out.push_str(")")
            }
            RawExpr::Power(base, exponent) => {
                out.push_str("(")?;
                self.put(base.get(), out)?;
                out.push_str(" ^ ")?;
                self.put(exponent.get(), out)?;
                out.push_str(")")
            }
            RawExpr::Neg(part) => self.put_behind("-", part.get(), out),
            RawExpr::Not(part) => self.put_behind("not ", part.get(), out),
            RawExpr::If(conditions, branches, other) => {
                out.push_str("(if ")?;
                self.put_all(conditions.as_slice(), " elseif ", out)?;
                out.push_str(" then ")?;
                self.put_all(branches.as_slice(), " then ", out)?;
                out.push_str(" else ")?;
                self.put(other.get(), out)?;
                out.push_str(")")
            }
        }
    }

    /// Adds an equation of a number.
    fn put_equation(
        &self,
        number: usize,
        equation: &RawEq,
        out: &mut String,
    ) -> Result<(), AllocError> {
        let number = (number as u64).saturating_add(1);
        out.push_str(format!(in self.alloc; " / {number}")?.as_str())?;
        if let Some(clause) = equation.clause {
            let clause = u64::from(clause) + 1;
            out.push_str(format!(in self.alloc; " in {clause}")?.as_str())?;
        }
        out.push_str(": ")?;
        self.put(&equation.left, out)?;
        out.push_str(" = ")?;
        self.put(&equation.right, out)
    }

    /// Adds the clock of a clause of a number.
    fn put_clause(
        &self,
        number: usize,
        clock: &RawExpr,
        out: &mut String,
    ) -> Result<(), AllocError> {
        let number = (number as u64).saturating_add(1);
        out.push_str(format!(in self.alloc; " / when {number}: ")?.as_str())?;
        self.put(clock, out)
    }
}

fn put_declared(alloc: Global, name: &FlatName, out: &mut String) -> Result<(), AllocError> {
    out.push_str(spelled(&name.text))?;
    match name.kind {
        NameKind::Integer => out.push_str(" Integer ")?,
        NameKind::Boolean => out.push_str(" Boolean ")?,
        NameKind::Clock => return out.push_str(" Clock"),
    }
    out.push_str(value_text(alloc, name.start)?.as_str())?;
    if name.input {
        out.push_str(" input")?;
    }
    Ok(())
}

/// The text of a model.
pub(crate) fn model_text(alloc: Global, model: &RawModel) -> Result<String, AllocError> {
    let printer = Printer {
        alloc,
        names: model.names.as_slice(),
    };
    let mut out = String::new(alloc);
    for (number, name) in model.names.as_slice().iter().enumerate() {
        if 0 < number {
            out.push_str(" / ")?;
        }
        put_declared(alloc, name, &mut out)?;
    }
    for (number, equation) in model.equations.as_slice().iter().enumerate() {
        printer.put_equation(number, equation, &mut out)?;
    }
    for (number, clock) in model.clauses.as_slice().iter().enumerate() {
        printer.put_clause(number, clock, &mut out)?;
    }
    Ok(out)
}

fn code_text(code: NameCode) -> &'static str {
    match code {
        NameCode::N1 => "N1",
        NameCode::N2 => "N2",
        NameCode::N3 => "N3",
        NameCode::N4 => "N4",
        NameCode::N5 => "N5",
        NameCode::N6 => "N6",
        NameCode::N7 => "N7",
        NameCode::N8 => "N8",
        NameCode::N9 => "N9",
        NameCode::N10 => "N10",
        NameCode::N11 => "N11",
    }
}

/// The text of a refusal.
pub(crate) fn refusal_text(
    alloc: Global,
    code: NameCode,
    place: &Place,
) -> Result<String, AllocError> {
    let code = code_text(code);
    match place {
        Place::At { line, column } => format!(in alloc; "{code} at {line}:{column}"),
        Place::Name(name) => {
            let name = spelled(name);
            format!(in alloc; "{code} at {name}")
        }
        _ => format!(in alloc; "{code} at another place"),
    }
}
