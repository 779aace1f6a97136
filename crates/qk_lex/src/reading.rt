ghost use Rattle.std.specs.Prelude.{◌≡◌, ◌≤◌, length, chars, IfOk, IfErr};
ghost use Rattle.std.specs.Option.{option_map};
ghost use Rattle.qk_ast.specs.Tokens.{Around};
ghost use Rattle.qk_lex.specs.Regions.{region_of, innermost, gaps_in};
ghost use Rattle.qk_lex.specs.Reading.{TokensAt, Refused, GapIn, NoBlankIn};

use crate::gap::after_gap;
use crate::regions::{Region, Regions};
use crate::step::next_token;
use crate::{LexFault, Token};
use std::alloc::Global;

fn has_gaps_within(region: Region) -> bool
    ensures { result ≡ gaps_in (Some (region_of region)) }
{
    match region {
        Region::Children => false,
        Region::Braces => true,
        Region::Hole => true,
        Region::Tag => true,
        Region::End => true,
    }
}

fn has_gaps(region: Option<Region>) -> bool
    ensures { result ≡ gaps_in (option_map region_of region) }
{
    match region {
        None => true,
        Some(region) => has_gaps_within(region),
    }
}

/// What follows the gap at the front. Between the tags of an element there is none.
fn past_gap(text: &str, region: Option<Region>) -> &str
    ensures gap { (around : Around) → innermost around ≡ option_map region_of region → GapIn around (chars text.now) (chars result.now) × NoBlankIn around (chars result.now) }
    ensures within { length result.now ≤ length text.now }
{
    if has_gaps(region) {
        after_gap(text)
    } else {
        text
    }
}

/// The tokens of a whole text, in order.
///
/// `Lexical` comes exactly where the text has no token list, at the first byte where no token begins: an unclosed text, template or comment
/// is refused where it opens, and so is a run of name characters that begins with a digit and is no Int.
pub fn tokens(alloc: Global, text: &str) -> Result<Vec<Token>, LexFault>
    ensures listed { IfOk result (λ found. TokensAt (chars text.now) found.items) }
    ensures refused { IfErr result (Refused (chars text.now)) }
{
    let mut found = Vec::new(alloc);
    let mut regions = Regions::new(alloc);
    let mut before_jsx = false;
    let mut rest = text;
    loop {
        let front = past_gap(rest, regions.innermost());
        if front.is_empty() {
            return Ok(found);
        }
        let start = text.len().saturating_sub(front.len());
        let Some(token) = next_token(front, regions.innermost(), before_jsx) else {
            return Err(LexFault::Lexical { at: start });
        };
        found.push(Token {
            kind: token.kind,
            jsx: token.jsx,
            start,
            end: text.len().saturating_sub(token.rest.len()),
        })?;
        regions.follow(token.change)?;
        before_jsx = token.before_jsx;
        rest = token.rest;
    }
}
