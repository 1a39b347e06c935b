//! Laws of the definitions. The functions do nothing when they run: their contracts are the laws.

ghost use Rattle.std.specs.Prelude.{◌≡◌, ◌↔◌, ℕ, List, Ok, Err};
ghost use Rattle.std.specs.List.{AllByRecursion};
ghost use Rattle.modlex.specs.declared.lexer.TokenFault.{TokenFault};
ghost use Rattle.modlex.specs.declared.lexer.TokenFault.TheVariants.{Lex};
ghost use Rattle.modlex.specs.Lexer.{Lexeme, line_tokens, text_tokens};
ghost use Rattle.modlex.specs.Tokens.{AreTokens, AreTextTokens, IsFirstWithout, AreInOrder};
ghost use Rattle.modlex.specs.Values.{ValueIsExact};

/// The computed tokens of a line are exactly the tokens that the rules give the line.
pub fn line_has_its_tokens()
    ensures { (line at : ℕ) (bytes : List ℕ) (ts : List Lexeme)
        → (line_tokens line at bytes ≡ Ok ts) ↔ AreTokens line at bytes ts }
{}

/// The computed tokens of a text are exactly the tokens that the rules give the text.
pub fn text_has_its_tokens()
    ensures { (text : List ℕ) (ts : List Lexeme) → (text_tokens text ≡ Ok ts) ↔ AreTextTokens text ts }
{}

/// The computed fault of a text is that of its first line that cannot be split into tokens.
pub fn fault_is_of_the_first_line_without_tokens()
    ensures { (text : List ℕ) (e : TokenFault)
        → (text_tokens text ≡ Err e) ↔ ((line : ℕ) × IsFirstWithout text line × (e ≡ Lex line)) }
{}

/// Each token of a text is the slice at its span, and the spans ascend and do not overlap.
pub fn tokens_are_in_order()
    ensures { (text : List ℕ) (ts : List Lexeme) → AreTextTokens text ts → AreInOrder text 0 ts }
{}

/// The computed value of a token is the one value that the rules give the token.
pub fn words_have_their_values()
    ensures { (line at : ℕ) (bytes : List ℕ) (ts : List Lexeme)
        → AreTokens line at bytes ts → AllByRecursion ValueIsExact ts }
{}
