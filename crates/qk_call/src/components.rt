//! The components of modules by their symbols.

use qk_ast::Item;
use qk_code::Root;
use qk_modules::NamedModule;
use qk_shared::Text;
use qk_whole::WholeCode;
use std::alloc::{AllocError, Global};

/// A component's symbol, and the name that it has in its module.
#[derive(Drop)]
pub(crate) struct Component {
    pub(crate) symbol: Text,
    pub(crate) name: Text,
}

/// The components of these modules.
pub(crate) fn components(
    alloc: Global,
    code: &WholeCode,
    modules: &[NamedModule],
) -> Result<Vec<Component>, AllocError> {
    let mut all = Vec::new(alloc);
    for module in modules {
        add_all(code, &module.name, module.module.items.as_slice(), &mut all)?;
    }
    Ok(all)
}

/// The components among the items of a module.
fn add_all(
    code: &WholeCode,
    file: &Text,
    items: &[Item],
    all: &mut Vec<Component>,
) -> Result<(), AllocError> {
    for item in items {
        if let Some(Root::Component(symbol)) = code.by_name(file, &item.name) {
            let symbol = symbol.share()?;
            let name = item.name.share()?;
            all.push(Component { symbol, name })?;
        }
    }
    Ok(())
}

/// The name of the component with that symbol; the symbol where none has it.
pub(crate) fn name_of<'a>(components: &'a [Component], symbol: &'a Text) -> &'a Text {
    for component in components {
        if component.symbol.is_same(symbol) {
            return &component.name;
        }
    }
    symbol
}
