ghost use Rattle.std.specs.Prelude.{◌≡◌, ◌++◌, IfOk, IfErr, map, IsTrue, IsFalse, OnOk};
ghost use Rattle.qk_script.specs.Script.{IsLine, AreItems};
ghost use Rattle.qk_script.specs.Answer.{item_of, IsScript, IsFaultOf};
ghost use Rattle.qk_script.specs.Adding.{Adds};

use crate::fault::ScriptFault;
use crate::item::{ScriptItem, read_item};
use crate::lines::{first_line, line_content};
use qk_base::limits;
use std::alloc::{AllocError, Global};

/// The items of a script. Its lines end with a line feed, the last one needs none; a final carriage return is dropped, and an empty
/// line is skipped. Each other line is `pause`, `EVENT ID` or `EVENT ID VALUE`.
///
/// `Line` names the first line that is none of these, counting all from 1; `TooMany` comes where all are, and they are more than 65,536 items.
pub fn parse_script(alloc: Global, text: &str) -> Result<Vec<ScriptItem>, ScriptFault>
    ensures script { IfOk result (λ items. IsScript text.now (map item_of items.items)) }
    ensures fault { IfErr result (λ fault. IsFaultOf text.now fault) }
{
    let mut items = Vec::new(alloc);
    let mut rest = text;
    let mut number = 0;
    while !rest.is_empty() {
        let (line, after) = first_line(rest);
        number += 1;
        if !add_line(alloc, line, &mut items)? {
            return Err(ScriptFault::Line(number));
        }
        rest = after;
    }
    if limits::SCRIPT_ITEMS < items.len() {
        return Err(ScriptFault::TooMany);
    }
    Ok(items)
}

/// Adds the item of a line, where it has one. False where it is no line of a script; then nothing was added.
fn add_line(alloc: Global, line: &str, items: &mut Vec<ScriptItem>) -> Result<bool, AllocError>
    ensures added { IfOk result (λ right. IsTrue right → Adds line.now (map item_of items.old.items) (map item_of items.new.items)) }
    ensures wrong { IfOk result (λ right. IsFalse right → ¬ IsLine line.now) }
{
    let content = line_content(line);
    if content.is_empty() {
        return Ok(true);
    }
    match read_item(alloc, content)? {
        Some(item) => {
            items.push(item)?;
            Ok(true)
        }
        None => Ok(false),
    }
}
