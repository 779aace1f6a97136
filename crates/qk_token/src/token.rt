//! A token, and the words and signs that the grammar names.

ghost use Rattle.std.specs.Prelude.{◌≡◌, true, chars};
ghost use Rattle.qk_ast.specs.Characters.{same};
ghost use Rattle.qk_token.specs.View.{is_ascii};

use qk_lex::is_same;

/// Where a template's part begins or ends.
#[derive(Clone, Copy, Debug, PartialEq, Eq)]
pub enum Edge {
    Backquote,
    Hole,
}

/// A token of a module. Its text is a part of the module's, on loan.
#[derive(Clone, Copy, Debug)]
pub enum Token<'t> {
    Name(&'t str),
    Reserved(&'t str),
    /// An integer's digits.
    Int(&'t str),
    /// A quote, and what stands between it and the next one.
    Text(char, &'t str),
    /// A quote, and what stands between it and the next one.
    Attribute(char, &'t str),
    /// What stands between two edges of a template.
    Template(Edge, &'t str, Edge),
    Punct(&'t str),
    /// A `<` or `<>` that begins JSX.
    Begin(&'t str),
    /// A run of text between JSX tags.
    JsxText(&'t str),
}

/// Whether the text is that word of ASCII.
pub fn is_word(text: &str, word: &[u8]) -> bool
    requires { is_ascii word.now ≡ true }
    ensures { result ≡ same (chars text.now) word.now }
{
    is_same(text.as_bytes(), word)
}
