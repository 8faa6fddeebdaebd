// The tokens around a place.

ghost use Rattle.std.specs.Prelude.{◌≤◌, length};
ghost use Rattle.session_values.specs.Limits.{max_input};

use syntax_grammar::Tokens;

/// The texts of the token at a place and of those around it: nothing where there is none.
#[derive(Clone, Copy, Debug)]
pub(crate) struct Around<'a> {
    /// The second token before it.
    pub(crate) second: &'a str,
    /// The token before it.
    pub(crate) last: &'a str,
    pub(crate) found: &'a str,
    /// The token behind it.
    pub(crate) next: &'a str,
    /// How many commas stand behind it before a closing parenthesis.
    pub(crate) commas: u32,
}

/// The tokens around a byte place of a text of handlers.
pub(crate) fn tokens_around(source: &str, at: u32) -> Around<'_>
    requires { length source.now ≤ max_input }
{
    let mut around = Around {
        second: "",
        last: "",
        found: "",
        next: "",
        commas: 0,
    };
    for token in Tokens::over(source) {
        if token.start < at {
            around.second = around.last;
            around.last = token.text;
        } else if token.start == at {
            around.found = token.text;
        } else {
            if around.next.is_empty() {
                around.next = token.text;
            }
            if token.text == ")" {
                return around;
            }
            if token.text == "," {
                around.commas = around.commas.saturating_add(1);
            }
        }
    }
    around
}
