//! The turn of one module: its file is read and parsed.

ghost use Rattle.std.specs.Prelude.{◌≡◌, ◌⊎◌, Some, OnOk, IfOk, OnErr, IfErr, string_bytes, length, [], ◌∷◌};
ghost use Rattle.std.specs.Option.{option_map, option_copied};
ghost use Rattle.std.specs.List.{find, list_any};
ghost use Rattle.qk_ast.specs.Texts.{same_text};
ghost use Rattle.qk_store.specs.Answers.{content, reading};
ghost use Rattle.qk_modules.specs.Gathering as gathering;
ghost use Rattle.qk_modules.specs.Gathering.{read_as, file_of, behind};
ghost use Rattle.qk_modules.specs.Turns.{TextComes, Turns, fault_of};
ghost use Rattle.qk_modules.specs.Places.{beginning};
ghost use Rattle.qk_modules.specs.Causes.{FailsByStore};

use crate::names::{file_name, named_by};
use crate::place::{BEGINNING, place_of};
use crate::{GatherFault, NamedModule};
use qk_ast::{Form, Import};
use qk_base::limits;
use qk_parse::{ParseFault, parse_module};
use qk_shared::Text;
use qk_store::{Found, Store, StoreFault};
use std::alloc::{AllocError, Global};
use std::str::from_utf8;

/// The module of this source, before which these stand in the list.
pub(crate) fn take_turn<S: Store>(
    alloc: Global,
    store: &mut S,
    modules: &[NamedModule],
    source: &Text,
) -> Result<NamedModule, GatherFault>
    ensures turns { Turns (S.files store.old) (S.answers store.old) (S.answers store.new) modules.now source.now result }
    ensures files { S.files store.new ≡ S.files store.old }
    ensures cause { FailsByStore (S.faults store.old) (S.faults store.new) result }
{
    let Some(name) = named_by(source.as_str()) else {
        return Err(absence(modules, source));
    };
    let name = Text::from_str(alloc, name)?;
    match read_file(alloc, store, &name) {
        Ok(Found::Gone) => Err(absence(modules, source)),
        Ok(Found::TooLong) => Err(too_long(name)),
        Ok(Found::Bytes(bytes)) => parsed(alloc, modules.len(), name, bytes.as_slice()),
        Err(fault) => Err(fault),
    }
}

/// Why there is no module of this source.
fn absence(modules: &[NamedModule], source: &Text) -> GatherFault
    ensures { (result ≡ gathering.absence modules.now source.now) ⊎ (result ≡ GatherFault.Memory) }
{
    let Some(root) = modules.first() else {
        return GatherFault::RootMissing;
    };
    let importer = first_importer(modules, source).unwrap_or(root);
    match import_missing(importer, source) {
        Ok(fault) => fault,
        Err(_) => GatherFault::Memory,
    }
}

fn import_missing(importer: &NamedModule, source: &Text) -> Result<GatherFault, AllocError>
    ensures { IfOk result (λ fault. fault ≡ GatherFault.ImportMissing importer.now.name source.now) }
{
    Ok(GatherFault::ImportMissing {
        module: importer.name.share()?,
        name: source.share()?,
    })
}

/// The first module that imports from this source.
fn first_importer<'a>(modules: &'a [NamedModule], source: &Text) -> Option<&'a NamedModule>
    ensures { option_copied result ≡ find (gathering.imports_from source.now) modules.now }
{
    for module in modules {
        if imports_from(module, source) {
            return Some(module);
        }
    }
    None
}

/// Whether the module imports from this source.
fn imports_from(module: &NamedModule, source: &Text) -> bool
    ensures { result ≡ gathering.imports_from source.now «module».now }
{
    names_source(module.module.imports.as_slice(), source)
}

/// Whether one of the imports is from this source.
fn names_source(imports: &[Import], source: &Text) -> bool
    ensures { result ≡ list_any (λ i. same_text i.from source.now) imports.now }
{
    for import in imports {
        if import.from.is_same(source) {
            return true;
        }
    }
    false
}

/// What the store finds under the name of the module's file.
fn read_file<S: Store>(alloc: Global, store: &mut S, name: &Text) -> Result<Found, GatherFault>
    ensures found { IfOk result (λ found. (told : _) → S.files store.old ≡ Some told → content found ≡ reading (told (file_of name.now)) 1048576) }
    ensures answered { IfOk result (λ found. S.answers store.new ≡ option_map (behind (read_as name.now (content found) ∷ [])) (S.answers store.old)) }
    ensures refused { OnErr result (S.answers store.new ≡ S.answers store.old) }
    ensures files { S.files store.new ≡ S.files store.old }
    ensures cause { FailsByStore (S.faults store.old) (S.faults store.new) result }
    ensures stops { IfErr result (λ stop. (stop ≡ GatherFault.Store) ⊎ (stop ≡ GatherFault.Memory)) }
{
    let file = file_name(alloc, name.as_str())?;
    match store.read(file.as_str(), limits::MODULE_BYTES) {
        Ok(found) => Ok(found),
        Err(StoreFault::Failed) => Err(GatherFault::Store),
        Err(StoreFault::Memory) => Err(GatherFault::Memory),
    }
}

/// The module that the bytes of its file derive, where so many stand before it.
fn parsed(
    alloc: Global,
    before: usize,
    name: Text,
    bytes: &[u8],
) -> Result<NamedModule, GatherFault>
    ensures { TextComes before name bytes.now result }
{
    let Ok(text) = from_utf8(bytes) else {
        return Err(GatherFault::NotUtf8 { module: name });
    };
    match parse_module(alloc, text, Form::Source) {
        Ok(_) if before >= limits::MODULES => Err(GatherFault::TooMany),
        Ok(module) => Ok(NamedModule { name, module }),
        Err(fault) => Err(unparsed(name, bytes, fault)),
    }
}

/// Why the module of this text isn't parsed.
fn unparsed(name: Text, text: &[u8], fault: ParseFault) -> GatherFault
    ensures { result ≡ fault_of name text.now fault }
{
    match fault {
        ParseFault::Memory => GatherFault::Memory,
        fault => GatherFault::Parse {
            module: name,
            fault,
            place: place_of(text, fault),
        },
    }
}

/// The refusal of a module whose file is too long.
fn too_long(name: Text) -> GatherFault
    ensures { result ≡ GatherFault.Parse name ParseFault.TooLong beginning }
{
    GatherFault::Parse {
        module: name,
        fault: ParseFault::TooLong,
        place: BEGINNING,
    }
}
