ghost use Rattle.std.specs.Prelude.{◌≡◌, ◌⊎◌, List, ℕ};
ghost use Rattle.mo_lexer.specs.declared.fault.LexCode.{LexCode};
ghost use Rattle.mo_lexer.specs.declared.token.Token.{Token};
ghost use Rattle.mo_lexer.specs.Tokens.{AreTokens, HasFault, HasTokens, IsFaultAt};

/// A law, which does nothing when it is called: a text has one token list or one fault, and never both.
pub fn tokens_law(text: &[u8])
    ensures either { HasTokens text.now ⊎ HasFault text.now }
    ensures one_list { (ts us : List Token) → AreTokens text.now ts → AreTokens text.now us → ts ≡ us }
    ensures one_code { (code other : LexCode) (at place : ℕ) → IsFaultAt text.now code at → IsFaultAt text.now other place → code ≡ other }
    ensures one_place { (code other : LexCode) (at place : ℕ) → IsFaultAt text.now code at → IsFaultAt text.now other place → at ≡ place }
    ensures never_both { HasTokens text.now → HasFault text.now → ⊥ }
{
    let _ = text;
}
