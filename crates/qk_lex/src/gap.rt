// Blanks and comments.
ghost use Rattle.std.specs.Prelude.{◌≡◌, ◌<◌, ◌≤◌, false, length, chars, IfSome};
ghost use Rattle.std.specs.Option.{option_map};
ghost use Rattle.qk_lex.specs.Gaps.{after_block, after_comment, after_blank, Gap};

use crate::scan::{Class, after_run, is_blank, split_first};

/// What follows the first `*/`.
fn after_block(text: &str) -> Option<&str>
    ensures value { option_map (λ r. chars r.now) result ≡ after_block false (chars text.now) }
    ensures shorter { IfSome result (λ r. length r.now < length text.now) }
{
    let mut rest = text;
    let mut star = false;
    while let Some((c, more)) = split_first(rest) {
        if star && c == '/' {
            return Some(more);
        }
        star = c == '*';
        rest = more;
    }
    None
}

/// What follows the comment that the text begins with, after its `/`.
fn after_comment(text: &str) -> Option<&str>
    ensures value { option_map (λ r. chars r.now) result ≡ after_comment (chars text.now) }
    ensures shorter { IfSome result (λ r. length r.now < length text.now) }
{
    match split_first(text) {
        None => None,
        Some((c, inside)) => {
            if c == '/' {
                return Some(after_run(Class::Line, inside));
            }
            if c == '*' { after_block(inside) } else { None }
        }
    }
}

/// What follows the blank or comment that the text begins with.
fn after_blank(text: &str) -> Option<&str>
    ensures value { option_map (λ r. chars r.now) result ≡ after_blank (chars text.now) }
    ensures shorter { IfSome result (λ r. length r.now < length text.now) }
{
    match split_first(text) {
        None => None,
        Some((c, rest)) => {
            if is_blank(c) {
                return Some(rest);
            }
            if c == '/' { after_comment(rest) } else { None }
        }
    }
}

/// What follows the blanks and comments at the front. An unclosed `/*` is no comment.
pub(crate) fn after_gap(text: &str) -> &str
    ensures value { Gap (chars text.now) (chars result.now) }
    ensures within { length result.now ≤ length text.now }
{
    let mut rest = text;
    while let Some(more) = after_blank(rest) {
        rest = more;
    }
    rest
}
