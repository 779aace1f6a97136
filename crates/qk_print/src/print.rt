#![tactic(auto, using(crate::proofs::Fronts::begins_same, crate::proofs::Fronts::begins_with, crate::proofs::Fronts::begins_after))]

ghost use Rattle.std.specs.Prelude.{◌≡◌, ◌++◌, OnOk, OnErr, flat_map};
ghost use Rattle.qk_print.specs.Growing.{Begins};
ghost use Rattle.qk_print.specs.Printing.{import_text, item_text, export_text, print_text};

use crate::expressions::expression;
use crate::names::braced_names;
use crate::put::{put, quoted};
use qk_ast::{Import, Item, Module};
use std::alloc::AllocError;

/// Why a module isn't printed.
#[derive(Clone, Copy, Debug, PartialEq, Eq)]
pub enum PrintFault {
    /// Memory ran out.
    Memory,
}

/// Appends the text of a module as built files have it: a line for each import and item. Of a module that a source derives,
/// what is printed reads back as the module (`printed_reads_back`).
///
/// # Errors
///
/// `Memory` for want of memory; `out` is then as it was.
pub fn print_module(m: &Module, out: &mut Vec<u8>) -> Result<(), PrintFault>
    ensures ok { OnOk result (out.new.items ≡ out.old.items ++ print_text m.now) }
    ensures kept { OnErr result (out.new.items ≡ out.old.items) }
{
    let before = out.len();
    match module(m, out) {
        Ok(()) => Ok(()),
        Err(_) => {
            out.truncate(before);
            Err(PrintFault::Memory)
        }
    }
}

fn module(m: &Module, out: &mut Vec<u8>) -> Result<(), AllocError>
    ensures ok { OnOk result (out.new.items ≡ out.old.items ++ print_text m.now) }
    ensures front { OnErr result (Begins out.old.items out.new.items) }
{
    imports(m.imports.as_slice(), out)?;
    items(m.items.as_slice(), out)
}

fn imports(imports: &[Import], out: &mut Vec<u8>) -> Result<(), AllocError>
    ensures ok { OnOk result (out.new.items ≡ out.old.items ++ flat_map import_text imports.now) }
    ensures front { OnErr result (Begins out.old.items out.new.items) }
{
    for one in imports {
        import(one, out)?;
    }
    Ok(())
}

fn import(import: &Import, out: &mut Vec<u8>) -> Result<(), AllocError>
    ensures ok { OnOk result (out.new.items ≡ out.old.items ++ import_text import.now) }
    ensures front { OnErr result (Begins out.old.items out.new.items) }
{
    put("import ", out)?;
    braced_names(import.names.as_slice(), out)?;
    put(" from ", out)?;
    quoted(&import.from, out)?;
    put(";\n", out)
}

fn items(items: &[Item], out: &mut Vec<u8>) -> Result<(), AllocError>
    ensures ok { OnOk result (out.new.items ≡ out.old.items ++ flat_map item_text items.now) }
    ensures front { OnErr result (Begins out.old.items out.new.items) }
{
    for one in items {
        item(one, out)?;
    }
    Ok(())
}

fn item(item: &Item, out: &mut Vec<u8>) -> Result<(), AllocError>
    ensures ok { OnOk result (out.new.items ≡ out.old.items ++ item_text item.now) }
    ensures front { OnErr result (Begins out.old.items out.new.items) }
{
    put(export(item.exported), out)?;
    put("const ", out)?;
    put(item.name.as_str(), out)?;
    put(" = ", out)?;
    expression(&item.init, out)?;
    put(";\n", out)
}

fn export(exported: bool) -> &'static str
    ensures { result.now ≡ export_text exported }
{
    if exported { "export " } else { "" }
}
