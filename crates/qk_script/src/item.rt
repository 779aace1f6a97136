ghost use Rattle.std.specs.Prelude.{◌≡◌, Some, None, string_bytes, IfOk, IfSome, IfNone};
ghost use Rattle.std.specs.List.{list_all};
ghost use Rattle.std.specs.Option.{option_map};
ghost use Rattle.qk_ast.specs.Characters.{is_small_letter};
ghost use Rattle.qk_meaning.specs.Run.{Happens};
ghost use Rattle.qk_script.specs.Script.{is_kind, is_id, has_no_space, spelling, IsItem};
ghost use Rattle.qk_script.specs.Answer.{item_of};
ghost use Rattle.qk_script.specs.Words.{event_in};

use crate::lines::first_word;
use std::alloc::{AllocError, Global};

/// Something that happens to an element.
#[derive(Debug, Drop)]
pub struct Event {
    /// What happens, as `click`: 1 to 32 small letters.
    pub kind: String,
    /// The id of the element: 1 to 256 bytes without a space.
    pub id: String,
    /// What the event tells besides, as the text of an input.
    pub value: Option<String>,
}

/// One item of a script.
#[derive(Debug, Drop)]
pub enum ScriptItem {
    Event(Event),
    Pause,
}

/// The words of the line of an event.
#[derive(Clone, Copy)]
struct Words<'a> {
    kind: &'a str,
    id: &'a str,
    value: Option<&'a str>,
}

/// The item that the content of a line spells; none where it spells no item.
pub(crate) fn read_item(alloc: Global, line: &str) -> Result<Option<ScriptItem>, AllocError>
    ensures some { IfOk result (λ o. IfSome o (λ i. IsItem (item_of i) × (line.now ≡ spelling (item_of i)))) }
    ensures none { IfOk result (λ o. IfNone o ((i : _) → IsItem i → ¬ (line.now ≡ spelling i))) }
{
    if line == "pause" {
        return Ok(Some(ScriptItem::Pause));
    }
    match event_words(line) {
        Some(words) => Ok(Some(ScriptItem::Event(event_of(alloc, words)?))),
        None => Ok(None),
    }
}

/// The event of these words, with texts of its own.
fn event_of(alloc: Global, words: Words<'_>) -> Result<Event, AllocError>
    ensures { IfOk result (λ e. item_of (ScriptItem.Event e) ≡ Happens (event_in words.entry)) }
{
    Ok(Event {
        kind: String::from_str(alloc, words.kind)?,
        id: String::from_str(alloc, words.id)?,
        value: owned(alloc, words.value)?,
    })
}

fn owned(alloc: Global, value: Option<&str>) -> Result<Option<String>, AllocError>
    ensures { IfOk result (λ o. option_map string_bytes o ≡ option_map (λ v. v.now) value.entry) }
{
    match value {
        Some(value) => Ok(Some(String::from_str(alloc, value)?)),
        None => Ok(None),
    }
}

/// The words of a line that is `EVENT ID` or `EVENT ID VALUE`.
fn event_words(line: &str) -> Option<Words<'_>>
    ensures some { IfSome result (λ w. IsItem (Happens (event_in w)) × (line.now ≡ spelling (Happens (event_in w)))) }
    ensures none { IfNone result ((e : _) → IsItem (Happens e) → ¬ (line.now ≡ spelling (Happens e))) }
{
    let (kind, Some(rest)) = first_word(line) else {
        return None;
    };
    let (id, value) = first_word(rest);
    if is_event_kind(kind) && is_event_id(id) {
        Some(Words { kind, id, value })
    } else {
        None
    }
}

/// Whether these are 1 to 32 small letters.
fn is_event_kind(kind: &str) -> bool
    ensures { result ≡ is_kind kind.now }
{
    let fits = 1 <= kind.len() && kind.len() <= 32;
    are_letters(kind.as_bytes()) && fits
}

fn are_letters(word: &[u8]) -> bool
    ensures { result ≡ list_all is_small_letter word.now }
{
    word.iter().all(|letter| letter.is_ascii_lowercase())
}

/// Whether these are 1 to 256 bytes without a space.
fn is_event_id(id: &str) -> bool
    ensures { result ≡ is_id id.now }
{
    let fits = 1 <= id.len() && id.len() <= 256;
    is_without_space(id.as_bytes()) && fits
}

fn is_without_space(word: &[u8]) -> bool
    ensures { result ≡ has_no_space word.now }
{
    word.iter().all(|byte| *byte != b' ')
}
