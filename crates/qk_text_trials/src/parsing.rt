//! What texts are answered: a module, or where and why there is none; and the free names of arrows.

use qk_ast::{Expr, Form, Module, free};
use qk_module::read_module;
use qk_parse::{ParseFault, parse_module};
use qk_token::{Fault, lex};
use std::alloc::{AllocError, Global};
use std::process::Abort;
use std::test::Fail;

/// The answer without its module.
fn answer(alloc: Global, text: &str, form: Form) -> Result<(), ParseFault> {
    match parse_module(alloc, text, form) {
        Ok(_) => Ok(()),
        Err(fault) => Err(fault),
    }
}

const ANSWERS: [(&str, Result<(), ParseFault>); 22] = [
    ("", Ok(())),
    ("const a = 9007199254740991;", Ok(())),
    (
        "const a = 9007199254740992;",
        Err(ParseFault::Lexical { at: 10 }),
    ),
    ("const a = 08;", Err(ParseFault::Lexical { at: 10 })),
    ("const a = ;", Err(ParseFault::Syntax { at: 10 })),
    ("const a = 1", Err(ParseFault::Syntax { at: 11 })),
    ("const a = 10 - (3 - 1);", Ok(())),
    (
        "import { a } from \"./a.jsx\";\nexport const B = component$(() => <p>{a}</p>);",
        Ok(()),
    ),
    (
        "const f = ({ a, b }) => { if (a) return b; else { delete a.b; } };",
        Ok(()),
    ),
    ("const t = `a${b}c${`d${e}`}`;", Ok(())),
    ("const n = Math.trunc(7 / 2) + Math.trunc(a, b);", Ok(())),
    (
        "const n = Math.trunc(a + b / c);",
        Err(ParseFault::Syntax { at: 27 }),
    ),
    ("const n = 7 / 2;", Err(ParseFault::Syntax { at: 12 })),
    ("const a = b ?? c || d;", Err(ParseFault::Syntax { at: 17 })),
    (
        "const r = { a: 1, a: 2 };",
        Err(ParseFault::Syntax { at: 18 }),
    ),
    ("const x = <a>b</c>;", Err(ParseFault::Syntax { at: 16 })),
    ("const x = <a>b}</a>;", Err(ParseFault::Lexical { at: 14 })),
    (
        "const f = () => { break; };",
        Err(ParseFault::Syntax { at: 18 }),
    ),
    (
        "const f = () => { continue; };",
        Err(ParseFault::Syntax { at: 18 }),
    ),
    (
        "const f = () => { (a) = 1; };",
        Err(ParseFault::Syntax { at: 22 }),
    ),
    ("const s = \"a", Err(ParseFault::Lexical { at: 10 })),
    ("const s = ; \"a", Err(ParseFault::Lexical { at: 12 })),
];

#[test]
fn answers(rt: HostRuntime) -> Result<(), Fail> {
    for (text, expected) in &ANSWERS {
        assert_eq!(rt; answer(rt.alloc(), text, Form::Source), *expected, "{text}");
    }
    Ok(())
}

/// Reads a short text's tokens with so much room for nesting; `None` where it has none.
fn fault(alloc: Global, room: usize, text: &str) -> Option<Fault> {
    let found = lex(alloc, text).ok()?;
    let tokens = found.tokens();
    if tokens.len() < 1000 {
        read_module(alloc, Form::Source, room, tokens).err()
    } else {
        None
    }
}

/// The room, a text that is refused, and how many tokens are left there.
const LEFT: [(usize, &str, Fault); 6] = [
    (32, "const a = 1", Fault::Syntax(0)),
    (32, "const a = () => { break; };", Fault::Syntax(4)),
    (
        32,
        "const a = () => { if (b) let c = 1; };",
        Fault::Syntax(7),
    ),
    (
        32,
        "const a = () => { const [b] = useLexicalScope(); };",
        Fault::Syntax(10),
    ),
    (2, "const a = () => { if (b) { } };", Fault::TooDeep(8)),
    (0, "import { a } from \"m\";", Fault::TooDeep(6)),
];

#[test]
fn faults_of_tokens(rt: HostRuntime) -> Result<(), Fail> {
    for (room, text, expected) in &LEFT {
        assert_eq!(rt; fault(rt.alloc(), *room, text), Some(*expected), "{text}");
    }
    Ok(())
}

/// The free names of the arrow that is the module's one item, a space behind each.
fn free_of(alloc: Global, module: &Module) -> Result<String, Fail> {
    let mut told = String::new(alloc);
    for item in module.items.as_slice() {
        if let Expr::Arrow(arrow) = &item.init {
            for name in free(alloc, arrow.get())?.as_slice() {
                told.push_str(name.as_str())?;
                told.push_str(" ")?;
            }
        }
    }
    Ok(told)
}

const FREE_NAMES: [(Form, &str, &str); 10] = [
    (Form::Source, "const f = () => b;", "b "),
    (Form::Source, "const f = () => a(b).c[d](a, e);", "a b d e "),
    (Form::Source, "const f = (a) => [b, a + b, c];", "b c "),
    (Form::Source, "const f = (a) => [(b) => a + b, b];", "b "),
    // A block's name is its own in the whole of it.
    (
        Form::Source,
        "const f = (a) => { c + b; const c = a; };",
        "b ",
    ),
    (
        Form::Source,
        "const f = (a) => { { const b = a; } b; };",
        "b ",
    ),
    (
        Form::Source,
        "const f = (a) => { for (const x of x) { x + y; } x; };",
        "x y ",
    ),
    (
        Form::Source,
        "const f = ({ a, b }) => <Card size={b}>{c}</Card>;",
        "Card c ",
    ),
    (
        Form::Source,
        "const f = () => ({ a, b: c, d: { e: a } });",
        "a c ",
    ),
    // The names of the scope of a built file stand around the arrow's own.
    (
        Form::Built,
        "const f = (a) => { const [b] = useLexicalScope(); b; };",
        "b ",
    ),
];

#[test]
fn free_names(rt: HostRuntime) -> Result<(), Fail> {
    let alloc = rt.alloc();
    for (form, text, expected) in &FREE_NAMES {
        let module = parse_module(alloc, text, *form)?;
        assert_eq!(rt; free_of(alloc, &module)?.as_str(), *expected, "{text}");
    }
    Ok(())
}

/// A form of nesting: what stands in front, inside and behind; and for a source and a built file, how often it nests and the place of the
/// token with which one more of it nests too deep.
type Nesting = (
    (&'static str, &'static str, &'static str),
    (usize, usize),
    (usize, usize),
);

const NESTINGS: [Nesting; 11] = [
    (("(", "1", ")"), (32, 42), (1024, 1034)),
    (("1 * (", "1", ")"), (32, 174), (1024, 5134)),
    (("[", "", "]"), (32, 42), (1024, 1034)),
    (("{a: ", "1", "}"), (32, 138), (1024, 4106)),
    (("`${", "1", "}`"), (32, 106), (1024, 3082)),
    (("!", "1", ""), (32, 42), (1024, 1034)),
    (("- ", "1", ""), (32, 74), (1024, 2058)),
    (("<a b={", "1", "}/>"), (16, 106), (512, 3082)),
    (("<a>", "", "</a>"), (32, 106), (1024, 3082)),
    (("b ? ", "1", " : 2"), (32, 140), (1024, 4108)),
    (("a => ", "1", ""), (32, 172), (1024, 5132)),
];

/// `const a = `, that many times the front, the middle, as many times the back, and `;`.
fn nested(alloc: Global, count: usize, of: &Nesting) -> Result<String, AllocError> {
    let (front, middle, back) = of.0;
    let mut text = String::from_str(alloc, "const a = ")?;
    for _ in 0..count {
        text.push_str(front)?;
    }
    text.push_str(middle)?;
    for _ in 0..count {
        text.push_str(back)?;
    }
    text.push_str(";")?;
    Ok(text)
}

/// The deepest text that is read, and the first that nests too deep.
fn tries(rt: &impl Abort, alloc: Global, of: &Nesting, form: Form) -> Result<(), Fail> {
    let (front, _, _) = of.0;
    let (most, at) = match form {
        Form::Source => of.1,
        Form::Built => of.2,
    };
    let deepest = nested(alloc, most, of)?;
    assert_eq!(rt; answer(alloc, deepest.as_str(), form), Ok(()), "{front}");
    let deeper = nested(alloc, most.saturating_add(1), of)?;
    let refused = Err(ParseFault::TooDeep { at });
    assert_eq!(rt; answer(alloc, deeper.as_str(), form), refused, "{front}");
    Ok(())
}

#[test]
fn nests(rt: HostRuntime) -> Result<(), Fail> {
    for nesting in &NESTINGS {
        tries(&rt, rt.alloc(), nesting, Form::Source)?;
        tries(&rt, rt.alloc(), nesting, Form::Built)?;
    }
    Ok(())
}

#[test]
fn tries_the_length(rt: HostRuntime) -> Result<(), Fail> {
    let alloc = rt.alloc();
    let mut text = String::new(alloc);
    for _ in 0..1_048_576usize {
        text.push_str(" ")?;
    }
    assert_eq!(rt; answer(alloc, text.as_str(), Form::Source), Ok(()));
    text.push_str("\"")?;
    assert_eq!(rt;
        answer(alloc, text.as_str(), Form::Source),
        Err(ParseFault::TooLong)
    );
    let lexical = Err(ParseFault::Lexical { at: 1_048_576 });
    assert_eq!(rt; answer(alloc, text.as_str(), Form::Built), lexical);
    Ok(())
}
