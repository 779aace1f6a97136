use qk_ast::Module;
use qk_shared::{List, Text};

/// A module and its name.
#[derive(Drop)]
pub struct NamedModule {
    pub name: Text,
    pub module: Module,
}

/// The modules of an application: `root` first, then in order of first import, each once.
#[derive(Drop)]
pub struct Modules {
    pub list: List<NamedModule>,
}
