//! The fields of a record, each with a key of its own.

ghost use Rattle.std.specs.Prelude.{◌≡◌, [], ◌∷◌, ◌++◌, IfOk};
ghost use Rattle.qk_ast.specs.Characters.{is_one_of};
ghost use Rattle.qk_reading.specs.Parts as parts;

use qk_ast::Field;
use qk_shared::{Builder, List, Text};
use std::alloc::{AllocError, Global};
use std::collections::BTreeSet;
use std::marker::Model;

/// The fields found so far. Contracts see them as a list. Beside them stand their keys, so that a key is looked up in few steps.
#[derive(Drop)]
pub struct Fields {
    fields: Builder<Field>,
    keys: BTreeSet<String>,
}

impl Model for Fields {
    ghost use Rattle.std.specs.Prelude.{List};
    ghost use Rattle.qk_ast.specs.declared.Field.{Field};
    ghost use Rattle.qk_ast.specs.contracts.Field as field;
    ghost use Rattle.std.specs.Coded.{coded_list};
    ghost use Rattle.qk_grammar.specs.Keyed.{HasKeys};

    ghost Value = { List Field };

    ghost coded = { coded_list field.the_row.coded };

    ghost view = { λ f. f.fields };

    ghost invariant = { λ f. HasKeys f.keys f.fields };
}

impl Fields {
    /// No fields yet. It takes no memory.
    pub fn new(alloc: Global) -> Fields
        ensures { result ≡ [] }
    {
        Fields {
            fields: Builder::new(alloc),
            keys: BTreeSet::new(alloc),
        }
    }

    /// Whether one of the fields has the key.
    pub fn has_key(&self, key: &Text) -> bool
        ensures { result ≡ is_one_of key.now (parts.keys self.now) }
    {
        self.keys.contains(key.as_str())
    }

    /// The fields with one more at the end.
    pub fn with(self, alloc: Global, field: Field) -> Result<Fields, AllocError>
        ensures { IfOk result (λ all. all ≡ self ++ field ∷ []) }
    {
        let Fields {
            mut fields,
            mut keys,
        } = self;
        let key = String::from_str(alloc, field.key.as_str())?;
        keys.insert(key)?;
        fields.push(field)?;
        Ok(Fields { fields, keys })
    }

    /// The fields as a list. They aren't copied.
    pub fn into_list(self, alloc: Global) -> Result<List<Field>, AllocError>
        ensures { IfOk result (λ all. all ≡ self) }
    {
        let Fields { fields, keys: _ } = self;
        fields.into_list(alloc)
    }
}
