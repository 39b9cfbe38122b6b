//! The places where tokens begin.
ghost use Rattle.std.specs.Prelude.{◌≡◌, IfOk, map};
ghost use Rattle.source_tokens.specs.Pieces as pieces;
ghost use Rattle.source_tokens.specs.private.Places.{ArePlaces, begin};

use mo_lexer::Token;
use std::alloc::{AllocError, Global};

/// The places where tokens begin, in order.
fn places_of(alloc: Global, tokens: &[Token]) -> Result<Vec<u32>, AllocError>
    ensures { IfOk result (λ places. places.items ≡ map begin tokens.now) }
{
    let mut places = Vec::new(alloc);
    for token in tokens {
        places.push(token.at)?;
    }
    Ok(places)
}

/// The tokens of a text, with the places where they begin.
#[derive(Drop)]
pub struct Starts<'a> {
    pub tokens: &'a [Token],
    places: Vec<u32>,
    pub ghost placed: { ArePlaces tokens.now places.items },
}

impl<'a> Starts<'a> {
    /// The places where tokens begin. Memory that is refused is the only error.
    pub fn open(alloc: Global, tokens: &'a [Token]) -> Result<Starts<'a>, AllocError>
        ensures { IfOk result (λ starts. starts.tokens.now ≡ tokens.now) }
    {
        let mut places = places_of(alloc, tokens)?;
        places.sort()?;
        Ok(Starts { tokens, places })
    }

    /// How many tokens begin before a byte.
    fn before(&self, byte: u32) -> usize
        ensures { result ≡ pieces.tokens_before self.now.tokens.now byte }
    {
        self.places.as_slice().partition_point(|at| *at < byte)
    }

    /// How many tokens begin in the piece of the text from `at` up to, not including, `end`.
    pub fn count(&self, at: u32, end: u32) -> usize
        ensures { result ≡ pieces.tokens_in self.now.tokens.now at end }
    {
        self.before(end).saturating_sub(self.before(at))
    }
}
