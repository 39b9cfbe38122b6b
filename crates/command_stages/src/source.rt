ghost use Rattle.std.specs.Prelude.{◌≡◌, ◌≤◌, IfErr, IfOk, length};
ghost use Rattle.flat_model.specs.declared.place.Place.TheVariants.{Model};
ghost use Rattle.flat_model.specs.Models.{IsModel};
ghost use Rattle.flat_model.specs.RawModels.{IsRawModel};
ghost use Rattle.flat_answer.specs.Places.{place_at};
ghost use Rattle.stress_text.specs.Text as stress;
ghost use Rattle.command_answer.specs.Actions.{source_in};
ghost use Rattle.command_answer.specs.Calls.{Outside, reads_in};
ghost use Rattle.command_answer.specs.Layers.{typed};
ghost use Rattle.mo_lexer.specs.Tokens.{model_limit};
ghost use Rattle.command_stages.specs.declared.end.End.TheVariants.{NoMemory, Refused};
ghost use Rattle.command_stages.specs.Ends.{Halts, IsPrintable};
ghost use Rattle.command_stages.specs.Reading.{IsStepOf, KeepsShelf};
ghost use Rattle.command_stages.specs.Segments.{HasFewMembers, file_of, tree_of};

use crate::codes::{lexical_code, syntax_code};
use crate::end::End;
use crate::place::place_at;
use crate::reading::read_file;
use command_words::Mode;
use flat_model::{FlatModel, Place, RawModel};
use flat_types::typed;
use mo_lexer::{LexEnd, lex};
use mo_parser::{ParseEnd, Tree, parse};
use outside_io::Shelf;
use std::alloc::Global;
use stress_text::stress_text;
use trace_print::Code;

/// The most bytes of a model.
const MODEL_LIMIT: u64 = 1_048_576;

/// The text of the model of a name, of at most 1,048,576 bytes.
///
/// # Errors
///
/// L0 at the model where it is longer, a fault of reading, or want of memory.
///
/// Source: this project's own.
pub fn text_of<'a, S: Shelf>(
    alloc: Global,
    shelf: &mut S,
    name: &'a str,
) -> Result<Vec<u8>, End<'a>>
    ensures made { (o : Outside) → IsStepOf o (S.held shelf.old) (S.gives_empty shelf.old) (S.faults shelf.old) (S.faults shelf.new) →
        IfOk result (λ bytes. (file_of (reads_in o) model_limit Model name.entry.now).makes bytes.items) }
    ensures few { IfOk result (λ bytes. length bytes.items ≤ model_limit) }
    ensures ended { (o : Outside) → IsStepOf o (S.held shelf.old) (S.gives_empty shelf.old) (S.faults shelf.old) (S.faults shelf.new) →
        IfErr result (Halts (file_of (reads_in o) model_limit Model name.entry.now)) }
    ensures short { IfErr result IsPrintable }
    ensures shelf { KeepsShelf (S.held shelf.old) (S.held shelf.new) (S.gives_empty shelf.old) (S.gives_empty shelf.new) (S.faults shelf.old) (S.faults shelf.new) }
{
    read_file(alloc, shelf, name, MODEL_LIMIT, Place::Model)
}

/// The text of the stress model of so many members.
fn generated(alloc: Global, members: u64) -> Result<Vec<u8>, End<'static>>
    requires { members ≤ 1000 }
    ensures text { IfOk result (λ bytes. bytes.items ≡ stress.stress_text members) }
    ensures few { IfOk result (λ bytes. length bytes.items ≤ model_limit) }
    ensures ended { IfErr result (λ end. end ≡ NoMemory) }
{
    Ok(stress_text(alloc, members)?)
}

/// The text of the model that a command names: that of a file, of at most 1,048,576 bytes, or that of the stress model.
///
/// # Errors
///
/// Those of `text_of` where the model is in a file, and else want of memory alone.
///
/// Source: this project's own.
pub fn source_of<'a, S: Shelf>(
    alloc: Global,
    shelf: &mut S,
    mode: Mode,
    name: &'a str,
) -> Result<Vec<u8>, End<'a>>
    requires { HasFewMembers mode }
    ensures made { (o : Outside) → IsStepOf o (S.held shelf.old) (S.gives_empty shelf.old) (S.faults shelf.old) (S.faults shelf.new) →
        IfOk result (λ bytes. (file_of (source_in (reads_in o) mode) model_limit Model name.entry.now).makes bytes.items) }
    ensures few { IfOk result (λ bytes. length bytes.items ≤ model_limit) }
    ensures ended { (o : Outside) → IsStepOf o (S.held shelf.old) (S.gives_empty shelf.old) (S.faults shelf.old) (S.faults shelf.new) →
        IfErr result (Halts (file_of (source_in (reads_in o) mode) model_limit Model name.entry.now)) }
    ensures short { IfErr result IsPrintable }
    ensures shelf { KeepsShelf (S.held shelf.old) (S.held shelf.new) (S.gives_empty shelf.old) (S.gives_empty shelf.new) (S.faults shelf.old) (S.faults shelf.new) }
{
    match mode {
        Mode::Stress(members) => Ok(generated(alloc, members)?),
        _ => text_of(alloc, shelf, name),
    }
}

/// A rule that is broken at a byte of a text.
fn refused_at(code: Code, text: &[u8], at: u32) -> End<'static>
    requires { length text.now ≤ model_limit }
    ensures { result ≡ Refused code (place_at text.now at) }
{
    End::Refused {
        code,
        place: place_at(text, at),
    }
}

/// The tree of a text of at most 1,048,576 bytes.
///
/// # Errors
///
/// The first of L1 to L4 that its bytes break, or else the first of S1 to S3 that its tokens break, or want of memory.
///
/// Source: MLS 3.6, chapter 2, "Lexical Structure", and appendix A, "Modelica Concrete Syntax", in this project's
/// profile.
#[tactic(auto, using(crate::proofs::Texts::tree_makes, crate::proofs::Texts::unlexed, crate::proofs::Texts::unparsed))]
pub fn tree_of(alloc: Global, text: &[u8]) -> Result<Tree, End<'static>>
    requires { length text.now ≤ model_limit }
    ensures made { IfOk result (tree_of text.now).makes }
    ensures ended { IfErr result (Halts (tree_of text.now)) }
    ensures short { IfErr result IsPrintable }
{
    let tokens = match lex(alloc, text) {
        Ok(tokens) => tokens,
        Err(LexEnd::Fault { code, at }) => return Err(refused_at(lexical_code(code), text, at)),
        Err(LexEnd::NoMemory) => return Err(End::NoMemory),
    };
    match parse(alloc, text, &tokens) {
        Ok(tree) => Ok(tree),
        Err(ParseEnd::Fault { code, at }) => Err(refused_at(syntax_code(code), text, at)),
        Err(ParseEnd::NoMemory) => Err(End::NoMemory),
    }
}

/// The flat model of a raw one: the same with the types of its expressions.
///
/// # Errors
///
/// The first equation that breaks a rule of types, Y1 to Y5, or want of memory.
///
/// Source: MLS 3.6, chapter 3, "Operators and Expressions", and chapter 16, "Synchronous Language Elements", in this
/// project's profile.
#[tactic(auto, using(crate::proofs::Halting::passed, crate::proofs::Layered::typed_makes, crate::proofs::Layered::typed_halts, crate::proofs::Layered::types_short, crate::proofs::Layered::typed_model))]
pub fn typed_of(alloc: Global, raw: &RawModel) -> Result<FlatModel, End<'static>>
    requires { IsRawModel raw.now }
    ensures made { IfOk result (typed raw.now).makes }
    ensures model { IfOk result IsModel }
    ensures ended { IfErr result (Halts (typed raw.now)) }
    ensures short { IfErr result IsPrintable }
{
    Ok(typed(alloc, raw)?)
}
