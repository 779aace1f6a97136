//! Tasks become due, are found and have run.

use qk_heap::{Key, Loc};
use qk_hooks::{Hook, Instance, Task, TaskId, first_due, mark, task_at, task_ran};
use qk_shared::{List, Text};
use qk_value::{Addr, Fun, FunCode, Value};
use std::alloc::{AllocError, Global};
use std::test::Fail;

/// The value of the signal at this address.
fn signal(alloc: Global, at: usize) -> Result<Loc, AllocError> {
    Ok(Loc {
        addr: Addr(at),
        key: Key::Prop(Text::from_str(alloc, "value")?),
    })
}

fn function(alloc: Global) -> Result<Fun, AllocError> {
    Ok(Fun {
        code: FunCode::Symbol(Text::from_str(alloc, "root_s2")?),
        captures: List::from_vec(alloc, Vec::new(alloc))?,
        hidden: false,
    })
}

/// An instance with a signal as its first hook, and as its second a task that tracks the signal at this address.
fn instance(alloc: Global, tracked: usize) -> Result<Instance, AllocError> {
    let mut tracks = Vec::new(alloc);
    tracks.push(signal(alloc, tracked)?)?;
    let mut hooks = Vec::new(alloc);
    hooks.push(Hook::Value(Value::Ref(Addr(tracked))))?;
    hooks.push(Hook::Task(Task {
        run: function(alloc)?,
        tracks,
        due: false,
    }))?;
    Ok(Instance {
        path: List::from_vec(alloc, Vec::new(alloc))?,
        symbol: Text::from_str(alloc, "root_s1")?,
        props: Addr(0),
        hooks,
        view: Value::Undefined,
        reads: Vec::new(alloc),
    })
}

#[test]
fn tasks(rt: HostRuntime) -> Result<(), Fail> {
    let alloc = rt.alloc();
    let mut all = Vec::new(alloc);
    all.push(instance(alloc, 1)?)?;
    all.push(instance(alloc, 2)?)?;
    let first = TaskId {
        instance: 1,
        hook: 0,
    };
    let second = TaskId {
        instance: 1,
        hook: 1,
    };
    mark(&mut all, &signal(alloc, 3)?);
    assert_eq!(rt; first_due(&all), None);
    mark(&mut all, &signal(alloc, 2)?);
    assert_eq!(rt; first_due(&all), Some(second));
    assert!(rt; task_at(&all, second).is_some());
    assert!(rt; task_at(&all, first).is_none());
    task_ran(&mut all, second, Vec::new(alloc), false);
    assert_eq!(rt; first_due(&all), None);
    mark(&mut all, &signal(alloc, 2)?);
    assert_eq!(rt; first_due(&all), None);
    Ok(())
}
