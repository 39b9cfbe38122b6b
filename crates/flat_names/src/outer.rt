//! The flat names at which the inputs of a class can stand.
ghost use Rattle.std.specs.Prelude.{◌≡◌, [], ◌++◌, IfOk, OnOk, flat_map, map};
ghost use Rattle.class_scopes.specs.Tables.{IsTableOf};
ghost use Rattle.class_scopes.specs.Types.{type_of};
ghost use Rattle.flat_answer.specs.Inputs as inputs;

use crate::table::text_table;
use class_scopes::{File, Table, TypeName};
use mo_parser::{ClassKind, Element, spelled};
use std::alloc::{AllocError, Global};
use sync_values::Text;

/// The members of a component, where it is a connector.
fn members_of<'a>(file: &File<'a>, element: &Element) -> &'a [Element]
    ensures { result.now ≡ inputs.members_of file.now.text.now file.now.classes.now (type_of file.now.text.now file.now.classes.now element.now.base) }
{
    let Some(TypeName::Class(class)) = file.type_of(&element.base) else {
        return &[];
    };
    match file.classes.get(class) {
        Some(definition) => {
            if definition.kind == ClassKind::Connector {
                definition.elements.as_slice()
            } else {
                &[]
            }
        }
        None => &[],
    }
}

/// The name of a member behind that of its component.
fn member_name(
    alloc: Global,
    text: &[u8],
    name: &[u8],
    member: &Element,
) -> Result<Text, AllocError>
    ensures { IfOk result (λ whole. whole ≡ inputs.member_name text.now [] name.now member.now) }
{
    let mut whole = Vec::from_slice(alloc, name)?;
    whole.push(b'.')?;
    whole.extend_from_slice(spelled(text, member.name))?;
    Text::from_bytes(alloc, whole.as_slice())
}

/// Adds the names of the members of a component.
fn add_members(
    alloc: Global,
    text: &[u8],
    name: &[u8],
    members: &[Element],
    found: &mut Vec<Text>,
) -> Result<(), AllocError>
    ensures { OnOk result (found.new.items ≡ found.old.items ++ map (inputs.member_name text.now [] name.now) members.now) }
{
    for member in members {
        found.push(member_name(alloc, text, name, member)?)?;
    }
    Ok(())
}

/// Adds the name of a component, and those of its members where it is a connector.
fn add_component(
    alloc: Global,
    file: &File<'_>,
    element: &Element,
    found: &mut Vec<Text>,
) -> Result<(), AllocError>
    ensures { OnOk result (found.new.items ≡ found.old.items ++ inputs.outer_in file.now.text.now file.now.classes.now element.now) }
{
    let name = spelled(file.text, element.name);
    found.push(Text::from_bytes(alloc, name)?)?;
    add_members(alloc, file.text, name, members_of(file, element), found)
}

/// The flat names of the components of a class, and of their members where they are connectors.
fn outer_names(alloc: Global, file: &File<'_>, class: usize) -> Result<Vec<Text>, AllocError>
    ensures { IfOk result (λ found. found.items ≡ inputs.outer_names file.now.text.now file.now.classes.now class) }
{
    let mut found = Vec::new(alloc);
    for element in file.elements_of(class) {
        add_component(alloc, file, element, &mut found)?;
    }
    Ok(found)
}

/// The table of the flat names at which the inputs of a chosen class can stand: those of its own components, and of the
/// members of its connectors. Memory that is refused is the only error.
pub fn outer_table(alloc: Global, file: &File<'_>, class: usize) -> Result<Table, AllocError>
    ensures { IfOk result (λ table. IsTableOf (inputs.outer_names file.now.text.now file.now.classes.now class) table) }
{
    let names = outer_names(alloc, file, class)?;
    let table = text_table(alloc, names.as_slice())?;
    Ok(table)
}
