//! Components by their names. Source: MLS 3.6, chapter 5, "Static Name Lookup", in this project's profile.
ghost use Rattle.std.specs.Prelude.{◌≡◌, IfOk, length, map};
ghost use Rattle.std.specs.Option.{option_copied};
ghost use Rattle.class_scopes.specs.Spelled.{spelled};
ghost use Rattle.scope_names.specs.Scopes as meaning;
ghost use Rattle.scope_names.specs.private.Tabled.{AreTabled};

use class_scopes::{File, Named, Table, TypeName, declared_in};
use mo_parser::{Element, Span, spelled};
use std::alloc::{AllocError, Global};

/// A file, and the components of each class by their names.
#[derive(Drop)]
pub struct Scopes<'a> {
    pub named: Named<'a>,
    tables: Vec<Table>,
    pub ghost tabled: { AreTabled named.file.text.now named.file.classes.now (length named.file.classes.now) tables.items },
}

/// The components of each class by their names.
fn tables_of(alloc: Global, file: &File<'_>) -> Result<Vec<Table>, AllocError>
    ensures { IfOk result (λ tables. AreTabled file.now.text.now file.now.classes.now (length file.now.classes.now) tables.items) }
{
    let mut tables = Vec::new(alloc);
    for class in 0..file.classes.len() {
        let declared = declared_in(alloc, file, class)?;
        tables.push(declared.table)?;
    }
    Ok(tables)
}

impl<'a> Scopes<'a> {
    /// The scopes of a file with its names. Memory that is refused is the only error.
    pub fn open(alloc: Global, named: Named<'a>) -> Result<Scopes<'a>, AllocError>
        ensures { IfOk result (λ scopes. scopes.named ≡ named.entry) }
    {
        let tables = tables_of(alloc, &named.file)?;
        Ok(Scopes { named, tables })
    }

    /// The component of a class by its name.
    pub fn element_named(&self, class: usize, name: &[u8]) -> Option<&Element>
        ensures { option_copied result ≡ meaning.element_named self.now.named.file.text.now self.now.named.file.classes.now class name.now }
    {
        let Some(table) = self.tables.get(class) else {
            return None;
        };
        let Some(number) = table.number(name) else {
            return None;
        };
        let elements = self.named.file.elements_of(class);
        if number < elements.len() {
            Some(&elements[number])
        } else {
            None
        }
    }

    /// The class that a component is of.
    pub fn class_of(&self, element: &Element) -> Option<usize>
        ensures { result ≡ meaning.class_of self.now.named.file.text.now self.now.named.file.classes.now element.now }
    {
        match self.named.file.type_of(&element.base) {
            Some(TypeName::Class(class)) => Some(class),
            _ => None,
        }
    }

    /// The component that a name with dots leads to, through components.
    pub fn element_along(&self, parts: &[Span], class: usize) -> Option<&Element>
        ensures { option_copied result ≡ meaning.element_along self.now.named.file.text.now self.now.named.file.classes.now (map (spelled self.now.named.file.text.now) parts.now) class }
    {
        let mut class = class;
        for (number, part) in parts.iter().enumerate() {
            let element = self.element_named(class, spelled(self.named.file.text, *part))?;
            if number + 1 == parts.len() {
                return Some(element);
            }
            class = self.class_of(element)?;
        }
        None
    }

    /// Whether a component is a variable, a parameter, a constant or a Clock.
    pub fn is_variable(&self, element: &Element) -> bool
        ensures { result ≡ meaning.is_variable self.now.named.file.text.now self.now.named.file.classes.now element.now }
    {
        match self.named.file.type_of(&element.base) {
            Some(type_name) => self.named.file.is_simple(type_name),
            None => false,
        }
    }
}
