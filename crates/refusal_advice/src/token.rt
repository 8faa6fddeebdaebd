// The text of a token.

ghost use Rattle.std.specs.Prelude.{◌≡◌, ◌≤◌, length};
ghost use Rattle.session_values.specs.Limits.{max_input};
ghost use Rattle.refusal_advice.specs.Token as spec;

use syntax_grammar::Tokens;

/// The text of the first token.
fn first_token(text: &str) -> &str
    requires { length text.now ≤ max_input }
    ensures { result.now ≡ spec.first_token text.now }
{
    match Tokens::over(text).next() {
        Some(token) => token.text,
        None => "",
    }
}

/// The text of the token at a byte place of a text, which is nothing at its end.
pub fn token_at(source: &str, at: u32) -> &str
    requires { length source.now ≤ max_input }
    ensures { spec.IsTokenAt source.now at result.now }
{
    match source.split_at_checked(at as usize) {
        Some((_, rest)) => first_token(rest),
        None => "",
    }
}
