//! Names and patterns between commas.
#![tactic(auto, using(crate::proofs::Fronts::begins_same, crate::proofs::Fronts::begins_with, crate::proofs::Fronts::begins_after))]

ghost use Rattle.std.specs.Prelude.{◌≡◌, ◌++◌, OnOk, OnErr, map};
ghost use Rattle.qk_print.specs.Growing.{Begins};
ghost use Rattle.qk_print.specs.Letters.{commas, braced};
ghost use Rattle.qk_print.specs.Printing.{pattern_text};

use crate::put::put;
use qk_ast::Pattern;
use qk_shared::Text;
use std::alloc::AllocError;

/// Names in braces, as `{ a, b }`.
pub(crate) fn braced_names(names: &[Text], out: &mut Vec<u8>) -> Result<(), AllocError>
    ensures ok { OnOk result (out.new.items ≡ out.old.items ++ braced names.now) }
    ensures front { OnErr result (Begins out.old.items out.new.items) }
{
    if names.is_empty() {
        return put("{ }", out);
    }
    put("{ ", out)?;
    names_between(names, out)?;
    put(" }", out)
}

fn names_between(names: &[Text], out: &mut Vec<u8>) -> Result<(), AllocError>
    ensures ok { OnOk result (out.new.items ≡ out.old.items ++ commas names.now) }
    ensures front { OnErr result (Begins out.old.items out.new.items) }
{
    let Some((first, later)) = names.split_first() else {
        return Ok(());
    };
    put(first.as_str(), out)?;
    for name in later {
        put(", ", out)?;
        put(name.as_str(), out)?;
    }
    Ok(())
}

pub(crate) fn pattern(pattern: &Pattern, out: &mut Vec<u8>) -> Result<(), AllocError>
    ensures ok { OnOk result (out.new.items ≡ out.old.items ++ pattern_text pattern.now) }
    ensures front { OnErr result (Begins out.old.items out.new.items) }
{
    match pattern {
        Pattern::Name(name) => put(name.as_str(), out),
        Pattern::Fields(names) => braced_names(names.as_slice(), out),
        Pattern::Scope(names) => {
            put("[", out)?;
            names_between(names.as_slice(), out)?;
            put("]", out)
        }
    }
}

/// Patterns between commas.
pub(crate) fn patterns(patterns: &[Pattern], out: &mut Vec<u8>) -> Result<(), AllocError>
    ensures ok { OnOk result (out.new.items ≡ out.old.items ++ commas (map pattern_text patterns.now)) }
    ensures front { OnErr result (Begins out.old.items out.new.items) }
{
    let Some((first, later)) = patterns.split_first() else {
        return Ok(());
    };
    pattern(first, out)?;
    for one in later {
        put(", ", out)?;
        pattern(one, out)?;
    }
    Ok(())
}
