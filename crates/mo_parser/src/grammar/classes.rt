//! Classes and the file.
ghost use Rattle.std.specs.Prelude.{◌≡◌, length};
ghost use Rattle.mo_lexer.specs.declared.token.Word.TheVariants as w;
ghost use Rattle.mo_parser.specs.grammar.Kinds as kinds;
ghost use Rattle.mo_parser.specs.reading.Starts as starts;
ghost use Rattle.mo_parser.specs.reading.Outcomes.{ReadsTokens, dropped, many, one};
ghost use Rattle.mo_parser.specs.reading.Classes as spec;

use super::comments::{comment, note, some_texts};
use super::elements::some_causality;
use super::kinds::{
    begins_class, begins_section, class_of, is_ident, is_symbol, is_word, visibility_of,
};
use super::modifications::in_brackets;
use super::names::{Named, ident, name, same_name, span_of, symbol, word};
use super::parts::Body;
use super::reader::Reader;
use super::tokens::{Halt, Tokens};
use crate::tree::{Arg, ClassDef, ClassKind, Short, Tree};
use mo_lexer::{Sym, Token, Word};
use std::alloc::Global;
use sync_values::List;

/// `"within" [ name ] ";"`
#[tactic(auto, unfolding(crate::specs::reading::Classes::within))]
fn within(alloc: Global, tokens: &mut Tokens<'_>) -> Result<(), Halt>
    ensures { ReadsTokens (spec.within tokens.old) result tokens.new }
{
    word(tokens, Word::KwWithin)?;
    if is_ident(tokens.peek()) {
        name(alloc, tokens)?;
    }
    symbol(tokens, Sym::Semicolon)?;
    Ok(())
}

/// `[ "within" [ name ] ";" ]`
fn some_within(alloc: Global, tokens: &mut Tokens<'_>) -> Result<(), Halt>
    ensures { ReadsTokens (dropped (kinds.is_word w.KwWithin) spec.within tokens.old) result tokens.new }
{
    if is_word(tokens.peek(), Word::KwWithin) {
        within(alloc, tokens)?;
    }
    Ok(())
}

/// An `Ident` that is spelled as the class's own.
#[tactic(auto, unfolding(crate::specs::reading::Classes::same_ident))]
fn same_ident(text: &[u8], tokens: &mut Tokens<'_>, own: Token) -> Result<Token, Halt>
    ensures { ReadsTokens (spec.same_ident text.now own tokens.old) result tokens.new }
{
    let next = tokens.peek();
    if !is_ident(next) || !same_name(text, own, next) {
        return Err(Halt::Stuck);
    }
    tokens.advance();
    Ok(next)
}

/// The first word of a class that is no connector.
fn class_kind(tokens: &mut Tokens<'_>) -> Result<ClassKind, Halt>
    ensures { ReadsTokens (one kinds.class_of tokens.old) result tokens.new }
{
    let Some(found) = class_of(tokens.peek()) else {
        return Err(Halt::Stuck);
    };
    tokens.advance();
    Ok(found)
}

/// The word before further elements.
fn visibility(tokens: &mut Tokens<'_>) -> Result<(), Halt>
    ensures { ReadsTokens (one kinds.visibility_of tokens.old) result tokens.new }
{
    let Some(found) = visibility_of(tokens.peek()) else {
        return Err(Halt::Stuck);
    };
    tokens.advance();
    Ok(found)
}

impl Reader {
    /// `("public"|"protected") { element } | "equation" { equation }`
    #[tactic(auto, unfolding(crate::specs::reading::Classes::section))]
    fn section(&self, tokens: &mut Tokens<'_>, body: Body) -> Result<Body, Halt>
        ensures { ReadsTokens (spec.section self.now.depth body tokens.old) result tokens.new }
    {
        let Body {
            elements,
            equations,
        } = body;
        if visibility_of(tokens.peek()).is_some() {
            visibility(tokens)?;
            let elements = self.elements(tokens, elements)?;
            return Ok(Body {
                elements,
                equations,
            });
        }
        word(tokens, Word::KwEquation)?;
        let equations = self.equations(tokens, equations)?;
        Ok(Body {
            elements,
            equations,
        })
    }

    /// `{ section }`
    #[tactic(auto, unfolding(crate::specs::reading::Outcomes::turns))]
    fn sections(&self, tokens: &mut Tokens<'_>, mut body: Body) -> Result<Body, Halt>
        ensures { ReadsTokens (many starts.begins_section (spec.section self.now.depth) body tokens.old) result tokens.new }
    {
        for _turn in 0..tokens.count() {
            if !begins_section(tokens.peek()) {
                break;
            }
            body = self.section(tokens, body)?;
        }
        Ok(body)
    }

    /// `note ";"`
    #[tactic(auto, unfolding(crate::specs::reading::Classes::last_note))]
    fn last_note(&self, tokens: &mut Tokens<'_>) -> Result<(), Halt>
        ensures { ReadsTokens (spec.last_note self.now.depth tokens.old) result tokens.new }
    {
        note(tokens, self.depth)?;
        symbol(tokens, Sym::Semicolon)?;
        Ok(())
    }

    /// `[ note ";" ] "end" Ident`, with the class's own `Ident`
    #[tactic(auto, unfolding(crate::specs::reading::Classes::ending))]
    fn ending(&self, text: &[u8], tokens: &mut Tokens<'_>, own: Token) -> Result<(), Halt>
        ensures { ReadsTokens (spec.ending text.now self.now.depth own tokens.old) result tokens.new }
    {
        if is_word(tokens.peek(), Word::KwAnnotation) {
            self.last_note(tokens)?;
        }
        word(tokens, Word::KwEnd)?;
        same_ident(text, tokens, own)?;
        Ok(())
    }

    /// `[ texts ] { element } { section } [ note ";" ] "end" Ident`
    #[tactic(auto, unfolding(crate::specs::reading::Classes::long))]
    fn long(&self, text: &[u8], tokens: &mut Tokens<'_>, own: Token) -> Result<Body, Halt>
        ensures { ReadsTokens (spec.long text.now self.now.depth own tokens.old) result tokens.new }
    {
        some_texts(tokens)?;
        let elements = self.elements(tokens, List::new(self.alloc))?;
        let body = Body {
            elements,
            equations: List::new(self.alloc),
        };
        let body = self.sections(tokens, body)?;
        self.ending(text, tokens, own).and(Ok(body))
    }

    /// `[ texts ] { element } [ note ";" ] "end" Ident`
    #[tactic(auto, unfolding(crate::specs::reading::Classes::plain))]
    fn plain(&self, text: &[u8], tokens: &mut Tokens<'_>, own: Token) -> Result<Body, Halt>
        ensures { ReadsTokens (spec.plain text.now self.now.depth own tokens.old) result tokens.new }
    {
        some_texts(tokens)?;
        let elements = self.elements(tokens, List::new(self.alloc))?;
        self.ending(text, tokens, own)?;
        Ok(Body {
            elements,
            equations: List::new(self.alloc),
        })
    }

    /// `[ "(" [ args ] ")" ]`
    #[tactic(auto, unfolding(crate::specs::reading::Classes::short_args))]
    fn short_args(&self, tokens: &mut Tokens<'_>) -> Result<List<Arg>, Halt>
        ensures { ReadsTokens (spec.short_args self.now.depth tokens.old) result tokens.new }
    {
        if !is_symbol(tokens.peek(), Sym::RoundOpen) {
            return Ok(List::new(self.alloc));
        }
        symbol(tokens, Sym::RoundOpen)?;
        in_brackets(self.alloc, tokens, self.depth)
    }

    /// `"=" [ "input"|"output" ] name [ "(" [ args ] ")" ] comment`
    #[tactic(auto, unfolding(crate::specs::reading::Classes::short))]
    fn short(&self, tokens: &mut Tokens<'_>) -> Result<Short, Halt>
        ensures { ReadsTokens (spec.short self.now.depth tokens.old) result tokens.new }
    {
        symbol(tokens, Sym::Equals)?;
        let causality = some_causality(tokens)?;
        let Named { path, span: _ } = name(self.alloc, tokens)?;
        let args = self.short_args(tokens)?;
        comment(tokens, self.depth).and(Ok(Short {
            causality,
            base: path,
            args,
        }))
    }

    /// `("model"|"block"|"class") Ident long`
    #[tactic(auto, unfolding(crate::specs::reading::Classes::long_class))]
    fn long_class(&self, text: &[u8], tokens: &mut Tokens<'_>) -> Result<ClassDef, Halt>
        ensures { ReadsTokens (spec.long_class text.now self.now.depth tokens.old) result tokens.new }
    {
        let kind = class_kind(tokens)?;
        let own = ident(tokens)?;
        let Body {
            elements,
            equations,
        } = self.long(text, tokens, own)?;
        Ok(ClassDef {
            kind,
            name: span_of(own),
            elements,
            equations,
            short: None,
        })
    }

    /// `"connector" Ident ( plain | "=" short )`
    #[tactic(auto, unfolding(crate::specs::reading::Classes::connector))]
    fn connector(&self, text: &[u8], tokens: &mut Tokens<'_>) -> Result<ClassDef, Halt>
        ensures { ReadsTokens (spec.connector text.now self.now.depth tokens.old) result tokens.new }
    {
        word(tokens, Word::KwConnector)?;
        let own = ident(tokens)?;
        if is_symbol(tokens.peek(), Sym::Equals) {
            let short = self.short(tokens)?;
            return Ok(ClassDef {
                kind: ClassKind::Connector,
                name: span_of(own),
                elements: List::new(self.alloc),
                equations: List::new(self.alloc),
                short: Some(short),
            });
        }
        let Body {
            elements,
            equations,
        } = self.plain(text, tokens, own)?;
        Ok(ClassDef {
            kind: ClassKind::Connector,
            name: span_of(own),
            elements,
            equations,
            short: None,
        })
    }

    /// `long_class | connector`
    #[tactic(auto, unfolding(crate::specs::reading::Classes::any_class))]
    fn any_class(&self, text: &[u8], tokens: &mut Tokens<'_>) -> Result<ClassDef, Halt>
        ensures { ReadsTokens (spec.any_class text.now self.now.depth tokens.old) result tokens.new }
    {
        if is_word(tokens.peek(), Word::KwConnector) {
            self.connector(text, tokens)
        } else {
            self.long_class(text, tokens)
        }
    }

    /// `class ";"`
    #[tactic(auto, unfolding(crate::specs::reading::Classes::class_line))]
    fn class_line(
        &self,
        text: &[u8],
        tokens: &mut Tokens<'_>,
        mut all: List<ClassDef>,
    ) -> Result<List<ClassDef>, Halt>
        ensures { ReadsTokens (spec.class_line text.now self.now.depth all tokens.old) result tokens.new }
    {
        all.push(self.any_class(text, tokens)?)?;
        symbol(tokens, Sym::Semicolon).and(Ok(all))
    }

    /// `{ class ";" }`
    #[tactic(auto, unfolding(crate::specs::reading::Outcomes::turns))]
    fn class_lines(
        &self,
        text: &[u8],
        tokens: &mut Tokens<'_>,
        mut all: List<ClassDef>,
    ) -> Result<List<ClassDef>, Halt>
        ensures { ReadsTokens (many starts.begins_class (spec.class_line text.now self.now.depth) all tokens.old) result tokens.new }
    {
        for _turn in 0..tokens.count() {
            if !begins_class(tokens.peek()) {
                break;
            }
            all = self.class_line(text, tokens, all)?;
        }
        Ok(all)
    }

    /// A whole file, up to the token `End`.
    #[tactic(auto, unfolding(crate::specs::reading::Classes::file))]
    pub fn file(&self, text: &[u8], tokens: &mut Tokens<'_>) -> Result<Tree, Halt>
        ensures { ReadsTokens (spec.file text.now self.now.depth tokens.old) result tokens.new }
    {
        some_within(self.alloc, tokens)?;
        let classes = self.class_lines(text, tokens, List::new(self.alloc))?;
        Ok(Tree { classes })
    }
}
