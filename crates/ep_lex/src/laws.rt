// Laws of tokens.

ghost use Rattle.std.specs.Prelude.{◌≡◌, ℕ, ◌⊎◌, List};
ghost use Rattle.ep_lex.specs.declared.token.Token.{Token};
ghost use Rattle.ep_lex.specs.Pieces.{IsStray};
ghost use Rattle.ep_lex.specs.Tokens.{AreTokens};

/// A text has one list of tokens at most.
pub fn tokens_are_unique()
    ensures { (bytes : List ℕ) (ts us : List Token) → AreTokens bytes ts → AreTokens bytes us → ts ≡ us }
{}

/// A text has one stray byte at most.
pub fn stray_byte_is_unique()
    ensures { (bytes : List ℕ) (at before : ℕ) → IsStray bytes at → IsStray bytes before → at ≡ before }
{}

/// Every text has tokens or a stray byte, and none has both.
pub fn tokens_or_stray_byte()
    ensures one { (bytes : List ℕ) → ((ts : List Token) × AreTokens bytes ts) ⊎ ((at : ℕ) × IsStray bytes at) }
    ensures not_both { (bytes : List ℕ) (ts : List Token) (at : ℕ) → AreTokens bytes ts → IsStray bytes at → ⊥ }
{}
