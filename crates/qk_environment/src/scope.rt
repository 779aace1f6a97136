//! The names in scope of the function under way.

ghost use Rattle.std.specs.Prelude.{◌≡◌, ◌+◌, IfOk, OnOk, [], length, map};
ghost use Rattle.qk_meaning.specs.Value as M;
ghost use Rattle.qk_meaning.specs.Evaluation.{without_track};
ghost use Rattle.qk_meaning.specs.Flow.{opened};
ghost use Rattle.qk_meaning.specs.Parts.{value_at, has_field, replaced, without_first, zipped};
ghost use Rattle.qk_value.specs.View.{seen};
ghost use Rattle.qk_meaning.specs.In_order.{declared_of};
ghost use Rattle.qk_environment.specs.Scoping.{Captures, scope_seen, untracked, constant_names};
ghost use Rattle.qk_ast.specs.Names.{body_names, declared_by, pattern_names, patterns_names};

use qk_ast::{Body, Pattern, Stmt};
use qk_shared::Text;
use qk_value::Value;
use std::alloc::{AllocError, Global};

/// The parameter of a task that means the tracker.
const TRACK: &str = "track";

/// A name and its value.
#[derive(Drop)]
pub struct Named {
    pub name: Text,
    pub value: Value,
}

/// The names in scope, the innermost last.
#[derive(Drop)]
pub struct Scope {
    pub names: Vec<Named>,
}

impl Scope {
    /// No names. It takes no memory.
    pub fn new(alloc: Global) -> Scope
        ensures { result.names.items ≡ [] }
    {
        Scope {
            names: Vec::new(alloc),
        }
    }

    /// These names with these values, the first one innermost; as many as there are of both.
    pub fn filled(alloc: Global, names: &[Text], values: &[Value]) -> Result<Scope, AllocError>
        ensures { IfOk result (λ s. (captured : Captures) → scope_seen captured s.names.items ≡ zipped names.now (map (seen captured) values.now)) }
    {
        let mut scope = Scope::new(alloc);
        let mut i = names.len().min(values.len());
        while i > 0 {
            i -= 1;
            let value = values[i].share()?;
            scope.push(&names[i], value)?;
        }
        Ok(scope)
    }

    /// As `filled`, for the body of a task with the parameter `track`: a name `track` is left out, since it means the tracker there.
    pub fn filled_for_task(
        alloc: Global,
        names: &[Text],
        values: &[Value],
    ) -> Result<Scope, AllocError>
        ensures { IfOk result (λ s. (captured : Captures) → scope_seen captured s.names.items ≡ without_track (zipped names.now (map (seen captured) values.now))) }
    {
        let mut scope = Scope::new(alloc);
        let mut i = names.len().min(values.len());
        while i > 0 {
            i -= 1;
            scope.push_untracked(&names[i], &values[i])?;
        }
        Ok(scope)
    }

    /// The value of the innermost name, or undefined.
    pub fn value(&self, name: &Text) -> Result<Value, AllocError>
        ensures { IfOk result (λ v. (captured : Captures) → value_at name.now (scope_seen captured self.now.names.items) ≡ seen captured v) }
    {
        let mut i = self.names.len();
        while i > 0 {
            i -= 1;
            let named = &self.names[i];
            if named.name.is_same(name) {
                return named.value.share();
            }
        }
        Ok(Value::Undefined)
    }

    /// Whether the name is in scope.
    pub fn has(&self, name: &Text) -> bool
        ensures { (captured : Captures) → has_field name.now (scope_seen captured self.now.names.items) ≡ result }
    {
        let mut i = self.names.len();
        while i > 0 {
            i -= 1;
            let named = &self.names[i];
            if named.name.is_same(name) {
                return true;
            }
        }
        false
    }

    /// The innermost name of this spelling has the value now, where one is in scope.
    pub fn assign(&mut self, name: &Text, value: Value)
        ensures { (captured : Captures) → scope_seen captured self.new.names.items ≡ replaced name.now (seen captured value) (scope_seen captured self.old.names.items) }
    {
        let mut i = self.names.len();
        while i > 0 {
            i -= 1;
            if self.names[i].name.is_same(name) {
                self.names[i].value = value;
                return;
            }
        }
    }

    /// One name more, in front of the others.
    pub fn push(&mut self, name: &Text, value: Value) -> Result<(), AllocError>
        ensures shown { OnOk result ((captured : Captures) → scope_seen captured self.new.names.items ≡ M.field name.now (seen captured value) (scope_seen captured self.old.names.items)) }
        ensures longer { OnOk result (length self.new.names.items ≡ length self.old.names.items + 1) }
    {
        let name = name.share()?;
        self.names.push(Named { name, value })?;
        Ok(())
    }

    /// One name more, unless it is `track`.
    fn push_untracked(&mut self, name: &Text, value: &Value) -> Result<(), AllocError>
        ensures { OnOk result ((captured : Captures) → scope_seen captured self.new.names.items ≡ untracked name.now (seen captured value.now) (scope_seen captured self.old.names.items)) }
    {
        if name.as_str() == TRACK {
            return Ok(());
        }
        let value = value.share()?;
        self.push(name, value)
    }

    /// So many of the innermost names are closed.
    pub fn close(&mut self, count: usize)
        ensures { (captured : Captures) → scope_seen captured self.new.names.items ≡ without_first count (scope_seen captured self.old.names.items) }
    {
        let left = self.names.len().saturating_sub(count);
        self.names.truncate(left);
    }

    /// These names in front of the others, the last one innermost, without a value yet.
    pub fn open(&mut self, names: &[Text]) -> Result<(), AllocError>
        ensures shown { OnOk result ((captured : Captures) → scope_seen captured self.new.names.items ≡ opened names.now (scope_seen captured self.old.names.items)) }
        ensures longer { OnOk result (length self.new.names.items ≡ length self.old.names.items + length names.now) }
    {
        for name in names {
            self.push(name, Value::Undefined)?;
        }
        Ok(())
    }

    /// The names of an arrow's parameters, in front of the others, without a value yet.
    pub fn open_parameters(&mut self, params: &[Pattern]) -> Result<(), AllocError>
        ensures shown { OnOk result ((captured : Captures) → scope_seen captured self.new.names.items ≡ opened (patterns_names params.now) (scope_seen captured self.old.names.items)) }
        ensures longer { OnOk result (length self.new.names.items ≡ length self.old.names.items + length (patterns_names params.now)) }
    {
        for pattern in params {
            self.open_parameter(pattern)?;
        }
        Ok(())
    }

    /// The names that statements declare in their block.
    fn open_declared(&mut self, statements: &[Stmt]) -> Result<(), AllocError>
        ensures shown { OnOk result ((captured : Captures) → scope_seen captured self.new.names.items ≡ opened (declared_of statements.now) (scope_seen captured self.old.names.items)) }
        ensures longer { OnOk result (length self.new.names.items ≡ length self.old.names.items + length (declared_of statements.now)) }
    {
        for statement in statements {
            self.open_one(statement)?;
        }
        Ok(())
    }

    /// The names that statements declare in their block; how many there are is given, for closing them.
    pub fn open_block(&mut self, statements: &[Stmt]) -> Result<usize, AllocError>
        ensures shown { OnOk result ((captured : Captures) → scope_seen captured self.new.names.items ≡ opened (declared_of statements.now) (scope_seen captured self.old.names.items)) }
        ensures count { IfOk result (λ n. n ≡ length (declared_of statements.now)) }
    {
        let before = self.names.len();
        self.open_declared(statements)?;
        Ok(self.names.len().saturating_sub(before))
    }

    /// The names that an arrow's body declares in the arrow's own scope.
    pub fn open_body(&mut self, body: &Body) -> Result<(), AllocError>
        ensures shown { OnOk result ((captured : Captures) → scope_seen captured self.new.names.items ≡ opened (body_names body.now) (scope_seen captured self.old.names.items)) }
        ensures longer { OnOk result (length self.new.names.items ≡ length self.old.names.items + length (body_names body.now)) }
    {
        match body {
            Body::Value(_) => Ok(()),
            Body::Block(statements) => self.open_declared(statements.as_slice()),
        }
    }

    fn open_one(&mut self, statement: &Stmt) -> Result<(), AllocError>
        ensures shown { OnOk result ((captured : Captures) → scope_seen captured self.new.names.items ≡ opened (declared_by statement.now) (scope_seen captured self.old.names.items)) }
        ensures longer { OnOk result (length self.new.names.items ≡ length self.old.names.items + length (declared_by statement.now)) }
    {
        match statement {
            Stmt::Const(pattern, _) => self.open_pattern(pattern),
            Stmt::Let(name, _) => self.push(name, Value::Undefined),
            Stmt::Do(_) => Ok(()),
            Stmt::Delete(_) => Ok(()),
            Stmt::Return(_) => Ok(()),
            Stmt::If(_, _, _) => Ok(()),
            Stmt::While(_, _) => Ok(()),
            Stmt::ForOf(_, _, _) => Ok(()),
            Stmt::Break => Ok(()),
            Stmt::Continue => Ok(()),
            Stmt::Block(_) => Ok(()),
        }
    }

    /// The names of a `const`; those of `useLexicalScope` stand in scope already.
    fn open_pattern(&mut self, pattern: &Pattern) -> Result<(), AllocError>
        ensures shown { OnOk result ((captured : Captures) → scope_seen captured self.new.names.items ≡ opened (constant_names pattern.now) (scope_seen captured self.old.names.items)) }
        ensures longer { OnOk result (length self.new.names.items ≡ length self.old.names.items + length (constant_names pattern.now)) }
    {
        match pattern {
            Pattern::Name(name) => self.push(name, Value::Undefined),
            Pattern::Fields(names) => self.open(names.as_slice()),
            Pattern::Scope(_) => Ok(()),
        }
    }

    /// All names of a parameter.
    fn open_parameter(&mut self, pattern: &Pattern) -> Result<(), AllocError>
        ensures shown { OnOk result ((captured : Captures) → scope_seen captured self.new.names.items ≡ opened (pattern_names pattern.now) (scope_seen captured self.old.names.items)) }
        ensures longer { OnOk result (length self.new.names.items ≡ length self.old.names.items + length (pattern_names pattern.now)) }
    {
        match pattern {
            Pattern::Name(name) => self.push(name, Value::Undefined),
            Pattern::Fields(names) => self.open(names.as_slice()),
            Pattern::Scope(names) => self.open(names.as_slice()),
        }
    }
}
