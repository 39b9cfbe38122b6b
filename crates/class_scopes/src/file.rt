//! The classes of a file.
ghost use Rattle.std.specs.Prelude.{◌≡◌, ℕ, [], ◌<◌, IfOk, OnErr, length, map, slice_get, Some};
ghost use Rattle.std.specs.Option.{option_copied};
ghost use Rattle.class_scopes.specs.Places as places;
ghost use Rattle.class_scopes.specs.Types as types;
ghost use Rattle.class_scopes.specs.N2 as N2;
ghost use Rattle.class_scopes.specs.private.Sources.{Numbers};

use crate::table::{Table, table_of};
use crate::type_name::TypeName;
use flat_model::NameKind;
use mo_parser::{ClassDef, Element, Path, Short, Span, spelled};
use std::alloc::{AllocError, Global};

/// A text and the classes of its tree, with the numbers of their names.
#[derive(Drop)]
pub struct File<'a> {
    pub text: &'a [u8],
    pub classes: &'a [ClassDef],
    numbers: Table,
    pub ghost numbered: { Numbers text.now classes.now numbers },
}

/// A file, and the least place of a second class of one name.
#[derive(Drop)]
pub struct Opened<'a> {
    pub file: File<'a>,
    pub repeated: Option<u32>,
}

/// The type of a predefined name.
fn predefined(name: &[u8]) -> Option<TypeName>
    ensures { result ≡ types.predefined name.now }
{
    if name == b"Integer".as_slice() {
        Some(TypeName::Simple(NameKind::Integer))
    } else if name == b"Boolean".as_slice() {
        Some(TypeName::Simple(NameKind::Boolean))
    } else if name == b"Clock".as_slice() {
        Some(TypeName::Simple(NameKind::Clock))
    } else if name == b"Real".as_slice() {
        Some(TypeName::Foreign)
    } else if name == b"String".as_slice() {
        Some(TypeName::Foreign)
    } else {
        None
    }
}

/// Where the names of classes stand.
fn name_spans(alloc: Global, classes: &[ClassDef]) -> Result<Vec<Span>, AllocError>
    ensures { IfOk result (λ spans. spans.items ≡ map (λ class. class.name) classes.now) }
{
    let mut spans = Vec::new(alloc);
    for class in classes {
        spans.push(class.name)?;
    }
    Ok(spans)
}

impl<'a> File<'a> {
    /// The file of a text and its classes.
    pub fn open(
        alloc: Global,
        text: &'a [u8],
        classes: &'a [ClassDef],
    ) -> Result<Opened<'a>, AllocError>
        ensures text { IfOk result (λ opened. opened.file.text.now ≡ text.now) }
        ensures classes { IfOk result (λ opened. opened.file.classes.now ≡ classes.now) }
        ensures repeated { IfOk result (λ opened. opened.repeated ≡ places.least (N2.repeated_classes text.now classes.now)) }
    {
        let spans = name_spans(alloc, classes)?;
        let declared = table_of(alloc, text, spans.as_slice())?;
        Ok(Opened {
            file: File {
                text,
                classes,
                numbers: declared.table,
            },
            repeated: declared.repeated,
        })
    }

    /// The number of the first class of a name.
    pub fn class_named(&self, name: &[u8]) -> Option<usize>
        ensures { result ≡ types.class_named self.now.text.now self.now.classes.now name.now }
    {
        self.numbers.number(name)
    }

    /// The type of a name without dots.
    fn type_named(&self, name: &[u8]) -> Option<TypeName>
        ensures { result ≡ types.type_named self.now.text.now self.now.classes.now name.now }
    {
        match predefined(name) {
            Some(type_name) => Some(type_name),
            None => Some(TypeName::Class(self.class_named(name)?)),
        }
    }

    /// The type of a type name, if it is known.
    pub fn type_of(&self, path: &Path) -> Option<TypeName>
        ensures { result ≡ types.type_of self.now.text.now self.now.classes.now path.now }
    {
        match path.parts.as_slice() {
            [span] => self.type_named(spelled(self.text, *span)),
            _ => None,
        }
    }

    /// The elements of a class.
    pub fn elements_of(&self, class: usize) -> &[Element]
        ensures { result.now ≡ types.elements_of self.now.text.now self.now.classes.now class }
    {
        match self.classes.get(class) {
            Some(class) => class.elements.as_slice(),
            None => &[],
        }
    }

    /// What stands behind the `=` of a short connector.
    pub fn short_of(&self, class: usize) -> Option<&Short>
        ensures { option_copied result ≡ types.short_of self.now.text.now self.now.classes.now class }
    {
        match self.classes.get(class) {
            Some(class) => class.short.as_ref(),
            None => None,
        }
    }

    /// Whether a component of the type is simple: it is a variable, and has no parts.
    pub fn is_simple(&self, type_name: TypeName) -> bool
        ensures { result ≡ types.is_simple self.now.text.now self.now.classes.now type_name }
    {
        match type_name {
            TypeName::Simple(_) => true,
            TypeName::Foreign => false,
            TypeName::Class(class) => self.short_of(class).is_some(),
        }
    }

    /// The simple type of a component of the type, that behind a short connector; none of another type.
    pub fn kind_of(&self, type_name: TypeName) -> Option<NameKind>
        ensures { result ≡ types.kind_of self.now.text.now self.now.classes.now type_name }
    {
        match type_name {
            TypeName::Simple(kind) => Some(kind),
            TypeName::Foreign => None,
            TypeName::Class(class) => match self.short_of(class) {
                Some(short) => self.kind_alone(&short.base),
                None => None,
            },
        }
    }

    /// The simple type that a type name stands for itself.
    pub fn kind_alone(&self, path: &Path) -> Option<NameKind>
        ensures { result ≡ types.kind_alone self.now.text.now self.now.classes.now (types.type_of self.now.text.now self.now.classes.now path.now) }
    {
        match self.type_of(path) {
            Some(TypeName::Simple(kind)) => Some(kind),
            _ => None,
        }
    }
}
