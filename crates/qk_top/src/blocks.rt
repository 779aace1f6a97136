ghost use Rattle.std.specs.Prelude.{◌≡◌, ◌++◌, ◌<◌, ◌^◌, IfOk, OnOk, string_bytes};
ghost use Rattle.qk_first.specs.Counter.{hears};
ghost use Rattle.qk_script.specs.Answer.{event_of};
ghost use Rattle.qk_first.specs.Kept.{counter_in};
ghost use Rattle.qk_top.specs.Blocks.{moves, number_after, moved_text, event_text, first_text, item_text, html_text, opening_text, closing_text, id_text, shown_text};
ghost use lib.Signed.{mag};

use crate::digits::{push_count, push_number};
use qk_first::shape::Counter;
use qk_script::Event;
use std::alloc::AllocError;

/// How the event moves the number: up where true, down where false, and none where nothing hears it.
fn heard(counter: &Counter, event: &Event) -> Option<bool>
    ensures { result ≡ hears (counter_in counter.now) (event_of event.now) }
{
    match counter.id {
        Some(own) if event.kind.as_str() == "click" && own.as_str() == event.id.as_str() => {
            counter.counts_up
        }
        _ => None,
    }
}

/// The number after the event, where it is heard.
fn moved_number(counter: &Counter, event: &Event, number: i64) -> Option<i64>
    requires { mag number < 2 ^ 40 }
    ensures { result ≡ moves (counter_in counter.now) number (event_of event.now) }
{
    match heard(counter, event)? {
        true => Some(number + 1),
        false => Some(number - 1),
    }
}

/// Appends the block of the first render.
#[tactic(auto, unfolding(crate::specs::Blocks::first_text))]
pub(crate) fn push_first(counter: &Counter, block: &mut String) -> Result<(), AllocError>
    ensures { OnOk result (string_bytes block.new ≡ string_bytes block.old ++ first_text (counter_in counter.now)) }
{
    push_item_line(0, block)?;
    push_html_line(counter, counter.initial, block)
}

/// Appends what stands behind the first line of an event's block: the number moved to this, or nothing heard the event.
#[tactic(auto, unfolding(crate::specs::Blocks::moved_text))]
fn push_moved(
    counter: &Counter,
    number: i64,
    moved: Option<i64>,
    block: &mut String,
) -> Result<(), AllocError>
    ensures { OnOk result (string_bytes block.new ≡ string_bytes block.old ++ moved_text (counter_in counter.now) number moved) }
{
    match moved {
        Some(after) => push_html_line(counter, after, block),
        None => {
            block.push_str("none\n")?;
            push_html_line(counter, number, block)
        }
    }
}

/// Appends the block of an event, which is this item, where the number was this before it.
#[tactic(auto, unfolding(crate::specs::Blocks::event_text))]
pub(crate) fn push_event(
    counter: &Counter,
    item: u64,
    event: &Event,
    number: i64,
    block: &mut String,
) -> Result<i64, AllocError>
    requires { mag number < 2 ^ 40 }
    ensures number { IfOk result (λ after. after ≡ number_after (counter_in counter.now) number (event_of event.now)) }
    ensures block { OnOk result (string_bytes block.new ≡ string_bytes block.old ++ event_text (counter_in counter.now) item number (event_of event.now)) }
{
    let moved = moved_number(counter, event, number);
    push_item_line(item, block)?;
    push_moved(counter, number, moved, block)?;
    Ok(moved.unwrap_or(number))
}

/// Appends the line `item k`.
fn push_item_line(number: u64, block: &mut String) -> Result<(), AllocError>
    ensures { OnOk result (string_bytes block.new ≡ string_bytes block.old ++ item_text number) }
{
    block.push_str("item ")?;
    push_count(number, block)?;
    block.push_str("\n")
}

/// Appends the line of the element's HTML at this number.
#[tactic(auto, unfolding(crate::specs::Blocks::html_text))]
fn push_html_line(counter: &Counter, number: i64, block: &mut String) -> Result<(), AllocError>
    ensures { OnOk result (string_bytes block.new ≡ string_bytes block.old ++ html_text (counter_in counter.now) number) }
{
    push_opening(counter, block)?;
    push_shown(counter, number, block)?;
    push_closing(counter, block)
}

fn push_opening(counter: &Counter, block: &mut String) -> Result<(), AllocError>
    ensures { OnOk result (string_bytes block.new ≡ string_bytes block.old ++ opening_text (counter_in counter.now)) }
{
    block.push_str("html <")?;
    block.push_str(counter.tag.as_str())?;
    push_id(counter, block)?;
    block.push_str(">")
}

fn push_closing(counter: &Counter, block: &mut String) -> Result<(), AllocError>
    ensures { OnOk result (string_bytes block.new ≡ string_bytes block.old ++ closing_text (counter_in counter.now)) }
{
    block.push_str("</")?;
    block.push_str(counter.tag.as_str())?;
    block.push_str(">\n")
}

/// Appends the number, where the element shows it.
fn push_shown(counter: &Counter, number: i64, block: &mut String) -> Result<(), AllocError>
    ensures { OnOk result (string_bytes block.new ≡ string_bytes block.old ++ shown_text (counter_in counter.now) number) }
{
    if counter.shows {
        push_number(number, block)?;
    }
    Ok(())
}

/// Appends the element's id as an attribute, where it has one.
#[tactic(auto, unfolding(crate::specs::Blocks::id_text))]
fn push_id(counter: &Counter, block: &mut String) -> Result<(), AllocError>
    ensures { OnOk result (string_bytes block.new ≡ string_bytes block.old ++ id_text (counter_in counter.now)) }
{
    match counter.id {
        Some(id) => {
            let id = id.as_str();
            write!(block, " id=\"{id}\"")
        }
        None => Ok(()),
    }
}
