//! Applications that keep all rules.

use qk_modules::Modules;
use qk_scope::Names;
use qk_shared::List;

/// An application that keeps all rules: its modules, and the names of each, in the same order.
#[derive(Drop)]
pub struct Application {
    pub modules: Modules,
    pub names: List<Names>,
}
