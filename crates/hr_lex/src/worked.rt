//! Worked texts. Each function does nothing; what it ensures is computed from the definitions, so a reader can hold them
//! against texts worked out by hand.
ghost use Rattle.std.specs.Prelude.{◌≡◌, [], ◌∷◌, codes, Ok, Err};
ghost use Rattle.hr_lex.specs.declared.token.Keyword.TheVariants as k;
ghost use Rattle.hr_lex.specs.declared.token.TokenKind.TheVariants as t;
ghost use Rattle.hr_lex.specs.declared.token.LexError.TheVariants as e;
ghost use Rattle.hr_lex.specs.Tokens.{token, tokens_of, Tiles};

/// The longest sign is taken; a keyword stands in either case; a doubled quote is one of the text's.
pub fn longest_tokens()
    ensures comparison { tokens_of (codes "a<=1") ≡ Ok (token t.Name 0 1 ∷ token t.LessEqual 1 3 ∷ token (t.Number 1) 3 4 ∷ []) }
    ensures quoted { tokens_of (codes "Null 'it''s'") ≡ Ok (token (t.Keyword k.Null) 0 4 ∷ token t.Text 5 12 ∷ []) }
{}

/// A quote that is doubled doesn't close, a number may be too large, and a byte may begin no token.
pub fn errors()
    ensures doubled_at_the_end { tokens_of (codes "'a''") ≡ Err (e.OpenText 0) }
    ensures past_the_largest { tokens_of (codes "9223372036854775809") ≡ Err (e.NumberTooLarge 0) }
    ensures no_token { tokens_of (codes "a#") ≡ Err (e.BadChar 1) }
{}

/// Blanks stand in front, between and behind; tokens that leave a letter out don't tile.
pub fn tiles()
    ensures tiled { Tiles (codes " a <=1 ") 0 7 (token t.Name 1 2 ∷ token t.LessEqual 3 5 ∷ token (t.Number 1) 5 6 ∷ []) }
    ensures left_out { Tiles (codes "ab") 0 2 (token t.Name 0 1 ∷ []) → ⊥ }
{}
