ghost use Rattle.std.specs.Prelude.{◌≡◌, map, string_bytes, IfSome, IfNone, IsTrue, ◌↔◌};
ghost use Rattle.qk_top.specs.Words.{IsReplay, is_script_word};

/// The script that the words name, where they are `replay SCRIPT`.
pub(crate) fn script_word(words: &[String]) -> Option<&str>
    ensures some { IfSome result (λ script. IsReplay (map string_bytes words.now) script.now) }
    ensures none { IfNone result ((script : _) → ¬ IsReplay (map string_bytes words.now) script) }
{
    match words {
        [command, script] => {
            let (command, script) = (command.as_str(), script.as_str());
            if command == "replay" && may_name_script(script) {
                Some(script)
            } else {
                None
            }
        }
        _ => None,
    }
}

/// Whether the word may name a script: it isn't empty and doesn't begin with `-`.
fn may_name_script(word: &str) -> bool
    ensures { result ≡ is_script_word word.now }
{
    match word.as_bytes() {
        [] => false,
        [first, ..] => *first != b'-',
    }
}
