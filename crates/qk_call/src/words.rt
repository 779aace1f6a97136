//! What the words name.

ghost use Rattle.std.specs.Prelude.{◌≡◌};
ghost use Rattle.qk_call.specs.Words.{mode_of};

use qk_base::Budget;
use qk_code::Mode;

/// The budget of a call where the words name none.
const USUAL: Budget = Budget {
    turns: 10_000_000,
    depth: 64,
};

/// A call that is wanted: of the root arrow of that name, in the module of this file, in this mode, with these turns and levels.
#[derive(Clone, Copy, Drop)]
pub(crate) struct Wanted<'a> {
    pub(crate) file: &'a str,
    pub(crate) module: &'a str,
    pub(crate) name: &'a str,
    pub(crate) mode: Mode,
    pub(crate) budget: Budget,
}

/// The call that the words name: `FILE NAME`, which is pure, `FILE NAME MODE`, or `FILE NAME MODE TURNS DEPTH`.
pub(crate) fn read_words(words: &[String]) -> Option<Wanted<'_>> {
    match words {
        [file, name] => wanted_in(file.as_str(), name.as_str(), Mode::Pure, USUAL),
        [file, name, mode] => {
            let mode = mode_named(mode.as_str())?;
            wanted_in(file.as_str(), name.as_str(), mode, USUAL)
        }
        [file, name, mode, turns, depth] => {
            let mode = mode_named(mode.as_str())?;
            let budget = Budget {
                turns: turns.as_str().parse().ok()?,
                depth: depth.as_str().parse().ok()?,
            };
            wanted_in(file.as_str(), name.as_str(), mode, budget)
        }
        _ => None,
    }
}

fn wanted_in<'a>(file: &'a str, name: &'a str, mode: Mode, budget: Budget) -> Option<Wanted<'a>> {
    Some(Wanted {
        file,
        module: module_in(file)?,
        name,
        mode,
        budget,
    })
}

fn mode_named(word: &str) -> Option<Mode>
    ensures { result ≡ mode_of word.now }
{
    if word == "pure" {
        Some(Mode::Pure)
    } else if word == "effect" {
        Some(Mode::Effect)
    } else {
        None
    }
}

/// The name of the module in the file of this path: what stands behind the last `/`, without `.jsx`.
fn module_in(file: &str) -> Option<&str> {
    let name = match file.rsplit_once('/') {
        Some((_, name)) => name,
        None => file,
    };
    name.strip_suffix(".jsx")
}
