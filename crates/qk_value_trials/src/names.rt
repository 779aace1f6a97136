//! The names in scope, and how many statements and bodies open.

use qk_ast::{Body, Expr, Stmt};
use qk_environment::Scope;
use qk_shared::{List, Text};
use qk_value::{Value, same};
use std::alloc::{AllocError, Global};
use std::test::Fail;

fn value_is(scope: &Scope, name: &Text, wanted: &Value) -> Result<bool, AllocError> {
    Ok(same(&scope.value(name)?, wanted))
}

fn one_name(alloc: Global, name: &Text) -> Result<Vec<Text>, AllocError> {
    let mut names = Vec::new(alloc);
    names.push(name.share()?)?;
    Ok(names)
}

fn capture(alloc: Global, name: &Text) -> Result<Scope, AllocError> {
    let names = one_name(alloc, name)?;
    let mut values = Vec::new(alloc);
    values.push(Value::Int(1))?;
    Scope::filled(alloc, names.as_slice(), values.as_slice())
}

#[test]
fn an_inner_name_hides_until_it_is_closed(rt: HostRuntime) -> Result<(), Fail> {
    let alloc = rt.alloc();
    let name = Text::from_str(alloc, "a")?;
    let inner = one_name(alloc, &name)?;
    let mut scope = capture(alloc, &name)?;
    scope.open(inner.as_slice())?;
    assert!(rt; value_is(&scope, &name, &Value::Undefined)?);
    scope.assign(&name, Value::Int(2));
    assert!(rt; value_is(&scope, &name, &Value::Int(2))?);
    scope.close(1);
    assert!(rt; value_is(&scope, &name, &Value::Int(1))?);
    scope.close(1);
    assert!(rt; !scope.has(&name));
    Ok(())
}

fn a_let(alloc: Global) -> Result<Vec<Stmt>, AllocError> {
    let name = Text::from_str(alloc, "b")?;
    let mut statements = Vec::new(alloc);
    statements.push(Stmt::Break)?;
    statements.push(Stmt::Let(name, Expr::Null))?;
    Ok(statements)
}

#[test]
fn declarations_open_names(rt: HostRuntime) -> Result<(), Fail> {
    let alloc = rt.alloc();
    let statements = a_let(alloc)?;
    let mut scope = Scope::new(alloc);
    assert_eq!(rt; scope.open_block(statements.as_slice())?, 1);
    let body = Body::Block(List::from_vec(alloc, statements)?);
    scope.open_body(&body)?;
    assert_eq!(rt; scope.names.len(), 2);
    Ok(())
}
