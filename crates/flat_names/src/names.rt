//! The names of a flat model.
ghost use Rattle.std.specs.Prelude.{◌≡◌, IfOk, OnOk, List, ◌++◌, Some, map, take};
ghost use Rattle.std.specs.List.{AllZip};
ghost use Rattle.class_scopes.specs.Places.{is_among};
ghost use Rattle.class_scopes.specs.Tables.{IsTableOf};
ghost use Rattle.flat_answer.specs.Flat as flat;
ghost use Rattle.flat_answer.specs.Inputs as inputs;
ghost use Rattle.flat_answer.specs.Model.{plain};
ghost use Rattle.flat_instances.specs.Instances as instances;
ghost use Rattle.flat_instances.specs.Kept as kept;
ghost use Rattle.flat_names.specs.private.Naming as naming;
ghost use Rattle.parameter_values.specs.Values as values;
ghost use Rattle.parameter_values.specs.Outcomes as outcomes;
ghost use Rattle.parameter_values.specs.Slots.{seen};

use crate::inputs::{has_input, is_valued};
use class_scopes::{File, Table};
use flat_instances::{Given, Item, Variable, start_of};
use flat_model::{FlatName, NameKind};
use mo_parser::Variability;
use parameter_values::{Outcome, Values};
use std::alloc::{AllocError, Global};
use sync_values::{List, Text, Value};

/// So many of the first bytes, or all where they are fewer.
fn front(bytes: &[u8], count: usize) -> &[u8]
    ensures { result.now ≡ take count bytes.now }
{
    if count <= bytes.len() {
        &bytes[..count]
    } else {
        bytes
    }
}

/// What the names of a flat model are made with.
#[derive(Drop)]
pub struct Namer<'a> {
    pub alloc: Global,
    pub file: &'a File<'a>,
    pub chosen: usize,
    /// The numbers of the parameters and constants, by their flat names.
    pub parameters: &'a Table,
    /// Their values.
    pub values: &'a [Option<Value>],
    /// The flat names at which an input can stand.
    pub outer: &'a Table,
    pub ghost tabled: { IsTableOf (inputs.outer_names file.now.text.now file.now.classes.now chosen) outer.now },
}

/// Whether a component is a parameter or constant.
fn is_fixed(variability: Variability) -> bool
    ensures { result ≡ values.is_fixed variability }
{
    match variability {
        Variability::Plain => false,
        Variability::Parameter => true,
        Variability::Constant => true,
    }
}

/// The value of a type that an expression gives.
fn valued(kind: NameKind, outcome: Outcome) -> Option<Value>
    ensures { result ≡ values.of_kind (Some kind) (outcomes.answer_of outcome) }
{
    match (kind, outcome) {
        (NameKind::Integer, Outcome::Known(Value::Int(number))) => Some(Value::Int(number)),
        (NameKind::Boolean, Outcome::Known(Value::Bool(truth))) => Some(Value::Bool(truth)),
        _ => None,
    }
}

/// The start where none is given.
fn zero(kind: NameKind) -> Option<Value>
    ensures { result ≡ values.zero_of (Some kind) }
{
    match kind {
        NameKind::Integer => Some(Value::Int(0)),
        NameKind::Boolean => Some(Value::Bool(false)),
        NameKind::Clock => None,
    }
}

impl<'a> Namer<'a> {
    /// The value of a type that a start gives to a variable.
    fn evaluated(
        &self,
        kind: NameKind,
        name: &[u8],
        given: Given<'a>,
    ) -> Result<Option<Value>, AllocError>
        ensures { IfOk result (λ value. value ≡ values.value_by self.now.file.now.text.now self.now.file.now.classes.now (seen self.now.parameters.now self.now.values.now) (Some kind) (Some (kept.placed_in name.now given.entry))) }
    {
        let values = Values {
            alloc: self.alloc,
            text: self.file.text,
            numbers: self.parameters,
            slots: self.values,
        };
        let outcome = values.outcome(front(name, given.scope), given.expr)?;
        Ok(valued(kind, outcome))
    }

    /// The value of a type that the start of a variable gives, or 0 or false where none is given.
    fn given_start(
        &self,
        kind: NameKind,
        variable: &Variable<'a>,
    ) -> Result<Option<Value>, AllocError>
        ensures { IfOk result (λ start. start ≡ values.value_by self.now.file.now.text.now self.now.file.now.classes.now (seen self.now.parameters.now self.now.values.now) (Some kind) (kept.seen_variable self.now.file.now.text.now self.now.file.now.classes.now variable.now).start) }
    {
        let given = start_of(self.file, variable);
        match given {
            Some(given) => self.evaluated(kind, variable.name.as_bytes(), given),
            None => Ok(zero(kind)),
        }
    }

    /// The start of a variable of a type; a Clock has none, and 0 in its place.
    fn start(&self, kind: NameKind, variable: &Variable<'a>) -> Result<Option<Value>, AllocError>
        ensures { IfOk result (λ start. start ≡ naming.start_in self.now.file.now.text.now self.now.file.now.classes.now (seen self.now.parameters.now self.now.values.now) kind (kept.seen_variable self.now.file.now.text.now self.now.file.now.classes.now variable.now)) }
    {
        match kind {
            NameKind::Integer => self.given_start(NameKind::Integer, variable),
            NameKind::Boolean => self.given_start(NameKind::Boolean, variable),
            NameKind::Clock => Ok(Some(Value::Int(0))),
        }
    }

    /// Whether an input can stand at a flat name.
    fn is_outer(&self, name: &[u8]) -> bool
        ensures { result ≡ is_among (inputs.outer_names self.now.file.now.text.now self.now.file.now.classes.now self.now.chosen) name.now }
    {
        self.outer.number(name).is_some()
    }

    /// Whether a variable is an input of the model.
    fn is_input(&self, kind: NameKind, variable: &Variable<'a>) -> bool
        ensures { result ≡ inputs.is_model_input self.now.file.now.text.now self.now.file.now.classes.now (Some self.now.chosen) (kept.seen_variable self.now.file.now.text.now self.now.file.now.classes.now variable.now) kind }
    {
        has_input(self.file, variable) && self.is_outer(variable.name.as_bytes()) && is_valued(kind)
    }

    /// The name of a variable. Where its type or its start has no value, which no model has that breaks no rule, it is none.
    fn name(&self, variable: &Variable<'a>) -> Result<FlatName, AllocError>
        ensures { IfOk result (flat.IsNameOf self.now.file.now.text.now self.now.file.now.classes.now (Some self.now.chosen) (seen self.now.parameters.now self.now.values.now) (kept.seen_variable self.now.file.now.text.now self.now.file.now.classes.now variable.now)) }
    {
        let Some(kind) = self.file.kind_of(variable.type_name) else {
            return Err(AllocError);
        };
        let Some(start) = self.start(kind, variable)? else {
            return Err(AllocError);
        };
        let input = self.is_input(kind, variable);
        let text = Text::from_bytes(self.alloc, variable.name.as_bytes())?;
        Ok(FlatName {
            text,
            kind,
            input,
            start,
        })
    }

    /// Adds the name of an item, if it is a variable but no parameter or constant.
    fn add_item(&self, item: &Item<'a>, names: &mut List<FlatName>) -> Result<(), AllocError>
        ensures { OnOk result (naming.Adds self.now.file.now.text.now self.now.file.now.classes.now self.now.chosen (seen self.now.parameters.now self.now.values.now) item.now names.old names.new) }
    {
        if let Item::Declared(variable) = item {
            if !is_fixed(variable.element.variability) {
                names.push(self.name(variable)?)?;
            }
        }
        Ok(())
    }

    /// The names of a flat model, in flat order, from all that the instances of its class have: of the variables but parameters
    /// and constants, each with its type, its start and whether it is an input. Memory that is refused is the only error.
    pub fn names(&self, items: &[Item<'a>]) -> Result<List<FlatName>, AllocError>
        ensures { IfOk result (λ names. AllZip (flat.IsNameOf self.now.file.now.text.now self.now.file.now.classes.now (Some self.now.chosen) (seen self.now.parameters.now self.now.values.now)) (plain (instances.variables self.now.file.now.text.now self.now.file.now.classes.now (map (kept.seen self.now.file.now.text.now self.now.file.now.classes.now) items.now))) names) }
    {
        let mut names = List::new(self.alloc);
        for item in items {
            self.add_item(item, &mut names)?;
        }
        Ok(names)
    }
}
