//! Which words stand where: names of the framework, tags, what a signal may be called.

ghost use Rattle.std.specs.Prelude.{◌≡◌, map, codes};
ghost use Rattle.qk_ast.specs.Characters as chars;
ghost use Rattle.qk_ast.specs.First as form;
ghost use Rattle.qk_first.specs.Shape as spec;

use qk_shared::Text;

/// The names that the framework exports.
const QWIK_NAMES: [&str; 11] = [
    "$",
    "Slot",
    "component$",
    "createContextId",
    "noSerialize",
    "useComputed$",
    "useContext",
    "useContextProvider",
    "useSignal",
    "useStore",
    "useTask$",
];

/// The words that are no names.
const RESERVED_WORDS: [&str; 49] = [
    "arguments",
    "await",
    "break",
    "case",
    "catch",
    "class",
    "const",
    "continue",
    "debugger",
    "default",
    "delete",
    "do",
    "else",
    "enum",
    "eval",
    "export",
    "extends",
    "false",
    "finally",
    "for",
    "function",
    "if",
    "implements",
    "import",
    "in",
    "instanceof",
    "interface",
    "let",
    "new",
    "null",
    "package",
    "private",
    "protected",
    "public",
    "return",
    "static",
    "super",
    "switch",
    "this",
    "throw",
    "true",
    "try",
    "typeof",
    "undefined",
    "var",
    "void",
    "while",
    "with",
    "yield",
];

/// The tags of the first shape.
const TAGS: [&str; 3] = ["button", "div", "p"];

/// Names that a signal may not have, besides the words that are no names.
const KNOWN_NAMES: [&str; 2] = ["console", "qrl"];

fn is_same(text: &[u8], other: &[u8]) -> bool
    ensures { result ≡ chars.same text.now other.now }
{
    text == other
}

/// Whether the word is one of those.
fn is_one_of(word: &[u8], words: &[&str]) -> bool
    ensures { result ≡ chars.is_one_of word.now (map (λ w. w.now) words.now) }
{
    for other in words {
        if is_same(word, other.as_bytes()) {
            return true;
        }
    }
    false
}

/// Whether the word is one of the texts.
pub fn has(words: &[Text], word: &[u8]) -> bool
    ensures { result ≡ chars.is_one_of word.now words.now }
{
    for other in words {
        if is_same(word, other.as_str().as_bytes()) {
            return true;
        }
    }
    false
}

fn is_small(word: &[u8]) -> bool
    ensures { result ≡ chars.every chars.is_small_letter word.now }
{
    for byte in word {
        if !(b'a' <= *byte && *byte <= b'z') {
            return false;
        }
    }
    true
}

/// Whether it is 1 to 8 letters a to z.
pub fn is_short_word(word: &[u8]) -> bool
    ensures { result ≡ form.is_short_word word.now }
{
    is_small(word) && 0 < word.len() && word.len() <= 8
}

/// Whether a signal may have the name.
pub fn is_signal_name(word: &[u8]) -> bool
    ensures { result ≡ spec.is_signal_name word.now }
{
    is_short_word(word) && !is_one_of(word, &RESERVED_WORDS) && !is_one_of(word, &KNOWN_NAMES)
}

/// Whether an element of the first shape may have the tag.
pub fn is_tag(word: &[u8]) -> bool
    ensures { result ≡ chars.is_one_of word.now form.first_tags }
{
    is_one_of(word, &TAGS)
}

fn is_qwik_name(word: &[u8]) -> bool
    ensures { result ≡ chars.is_one_of word.now form.qwik_names }
{
    is_one_of(word, &QWIK_NAMES)
}

fn are_qwik_names(names: &[Text]) -> bool
    ensures { result ≡ form.are_qwik_names names.now }
{
    for name in names {
        if !is_qwik_name(name.as_str().as_bytes()) {
            return false;
        }
    }
    true
}

/// Whether no name stands twice. Of names that are each one of a few it tries only a few: the first that stands again ends it.
fn are_distinct(mut names: &[Text]) -> bool
    ensures { result ≡ form.is_distinct names.entry.now }
{
    while let [first, rest @ ..] = names {
        if has(rest, first.as_str().as_bytes()) {
            return false;
        }
        names = rest;
    }
    true
}

/// Whether an import of the first shape may have the names.
pub fn is_import(names: &[Text]) -> bool
    ensures { result ≡ spec.is_import names.now }
{
    are_qwik_names(names) && are_distinct(names) && has(names, "component$".as_bytes())
}
