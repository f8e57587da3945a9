//! Laws of tokens. Each function does nothing; its contract is the law.
ghost use Rattle.std.specs.Prelude.{◌≤◌, ◌<◌, ℕ, List, length};
ghost use Rattle.ml_token.specs.Language.{HasFault, HasToken};
ghost use Rattle.ml_token.specs.Values.{StandsIn};
ghost use Rattle.ml_token.specs.declared.tokens.Token.{Token};
ghost use Rattle.ml_token.specs.declared.tokens.TokenFault.{TokenFault};

/// The token that stands from a place on lies in the text, at that place or behind it, and its
/// value keeps to the limits. A fault has its place in the text, at that place or behind it.
pub fn tokens_stand_in_their_text()
    ensures token { (bytes : List ℕ) (at : ℕ) (t : Token) → at ≤ length bytes → HasToken bytes at t
        → StandsIn bytes at t }
    ensures fault { (bytes : List ℕ) (at : ℕ) (f : TokenFault) → at ≤ length bytes
        → HasFault bytes at f → (at ≤ f.place) × (f.place < length bytes) }
{}
