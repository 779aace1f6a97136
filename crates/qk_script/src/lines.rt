ghost use Rattle.std.specs.Prelude.{◌≡◌, ◌<◌, ◌∷◌, ◌++◌, length};
ghost use Rattle.std.specs.Option.{option_map};
ghost use Rattle.qk_script.specs.Script.{lines_of, content, value_spelling, has_no_space};
ghost use Rattle.std.specs.Prelude.{IsTrue};

/// The first line of a text that isn't empty, without its line feed, and the text behind that.
pub(crate) fn first_line(text: &str) -> (&str, &str)
    ensures lines { 0 < length text.now → lines_of text.now ≡ result.0.now ∷ lines_of result.1.now }
    ensures shorter { 0 < length text.now → length result.1.now < length text.now }
{
    match text.split_once('\n') {
        Some((line, after)) => (line, after),
        None => (text, ""),
    }
}

/// The line without its final carriage return.
pub(crate) fn line_content(line: &str) -> &str
    ensures { result.now ≡ content line.now }
{
    match line.strip_suffix('\r') {
        Some(content) => content,
        None => line,
    }
}

/// The text up to its first space, and what stands behind that space.
pub(crate) fn first_word(text: &str) -> (&str, Option<&str>)
    ensures parts { text.now ≡ result.0.now ++ value_spelling (option_map (λ v. v.now) result.1) }
    ensures word { IsTrue (has_no_space result.0.now) }
{
    match text.split_once(' ') {
        Some((word, after)) => (word, Some(after)),
        None => (text, None),
    }
}
