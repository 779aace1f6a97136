//! The tokens of texts, and what is written in quotes and between tags.

use qk_lex::LexFault;
use qk_token::{lex, name_text, written_text};
use std::alloc::Global;
use std::test::Fail;

/// The kinds and spellings of the tokens; of a text that has no token list, the byte where none stands.
fn kinds(alloc: Global, text: &str) -> Result<String, Fail> {
    let mut told = String::new(alloc);
    match qk_lex::tokens(alloc, text) {
        Ok(tokens) => {
            for token in tokens.iter() {
                let spelling = text.get(token.start..token.end).unwrap_or("?");
                told.push_str(format!(in alloc; "{:?} {spelling}|", token.kind)?.as_str())?;
            }
        }
        Err(LexFault::Lexical { at }) => told = format!(in alloc; "none at {at}")?,
        Err(LexFault::Memory) => told.push_str("memory")?,
    }
    Ok(told)
}

const KINDS: [(&str, &str); 27] = [
    ("", ""),
    (" \t\r\n// a\n/* b * / */", ""),
    (
        "const a = 10 - (3 - 1);",
        "Reserved const|Name a|Punct =|Int 10|Punct -|Punct (|Int 3|Punct -|Int 1|Punct )|Punct ;|",
    ),
    (
        "a<=b===c!==d??e++ +=f/*x*/=>g<h//",
        "Name a|Punct <=|Name b|Punct ===|Name c|Punct !==|Name d|Punct ??|Name e|Punct ++|Punct +=|Name f|Punct =>|Name g|Punct <|Name h|",
    ),
    (
        "$ _1 \u{e9}t\u{e9} from yield 0 9007199254740991 1.x",
        "Name $|Name _1|Name \u{e9}t\u{e9}|Name from|Reserved yield|Int 0|Int 9007199254740991|Int 1|Punct .|Name x|",
    ),
    (
        "'a\\'\"' \"\\u00e9\\u{0001F600}\\`\\$\"",
        "Text 'a\\'\"'|Text \"\\u00e9\\u{0001F600}\\`\\$\"|",
    ),
    (
        "`a$b\r\n${ {c: `d`} }$${e}`",
        "TemplatePart `a$b\r\n${|Punct {|Name c|Punct :|TemplatePart `d`|Punct }|TemplatePart }$${|Name e|TemplatePart }`|",
    ),
    (
        "(<p class='a\n' on:x-1$={() => 1}>hi // {b} <br/><>\u{e9}</></p>) < c",
        "Punct (|Punct <|Name p|Name class|Punct =|Text 'a\n'|Name on:x-1$|Punct =|Punct {|Punct (|Punct )|Punct =>|Int 1|Punct }|Punct >|JsxText hi // |Punct {|Name b|Punct }|JsxText  |Punct <|Name br|Punct />|Punct <>|JsxText \u{e9}|Punct </>|Punct </|Name p|Punct >|Punct )|Punct <|Name c|",
    ),
    (
        "return<for if/>",
        "Reserved return|Punct <|Name for|Name if|Punct />|",
    ),
    ("const a = 9007199254740992;", "none at 10"),
    ("const a = 08;", "none at 10"),
    ("a 1b", "none at 2"),
    ("99999999999999999999999999999999999999999", "none at 0"),
    ("\u{e9} & b", "none at 3"),
    ("a /* b *", "none at 2"),
    ("/*/", "none at 0"),
    (" 'a\n'", "none at 1"),
    ("'\\x'", "none at 0"),
    ("'\\ud800\\udc00'", "none at 0"),
    ("'\\u{110000}'", "none at 0"),
    ("'\\u{}'", "none at 0"),
    ("`a${b}c", "none at 5"),
    ("(<a.b/>", "none at 3"),
    ("(<a>}", "none at 4"),
    ("(<a>b>", "none at 5"),
    ("(</a>", "none at 2"),
    ("a 'b", "none at 2"),
];

#[test]
fn kinds_and_spellings(rt: HostRuntime) -> Result<(), Fail> {
    for (text, expected) in &KINDS {
        let seen = kinds(rt.alloc(), text)?;
        assert_eq!(rt; seen.as_str(), *expected, "{text}");
    }
    Ok(())
}

#[test]
fn which_begin_jsx(rt: HostRuntime) -> Result<(), Fail> {
    let mut marked = Vec::new(rt.alloc());
    for token in qk_lex::tokens(rt.alloc(), "(<a b='c'>d<e/></a>) < 'f'")?.iter() {
        if token.jsx {
            marked.push(token.start)?;
        }
    }
    assert_eq!(rt; marked.as_slice(), [1, 6, 11].as_slice());
    Ok(())
}

/// The tokens of the text, each with its byte, and where the text ends.
fn tokens(alloc: Global, text: &str) -> Result<String, Fail> {
    let mut told = String::new(alloc);
    let found = lex(alloc, text)?;
    let tokens = found.tokens();
    for (i, token) in tokens.iter().enumerate() {
        let place = found.place_of(tokens.len().saturating_sub(i));
        told.push_str(format!(in alloc; "{place} {token:?}\n")?.as_str())?;
    }
    told.push_str(format!(in alloc; "{}", found.place_of(0))?.as_str())?;
    Ok(told)
}

const TOKENS: [(&str, &str); 3] = [
    (" // a\n", "6"),
    (
        "f('\u{e9}\\'', 12)/**/;//",
        "0 Name(\"f\")\n1 Punct(\"(\")\n2 Text('\\'', \"\u{e9}\\\\'\")\n8 Punct(\",\")\n10 Int(\"12\")\n12 Punct(\")\")\n17 Punct(\";\")\n20",
    ),
    (
        "return <p t=\"&\">b{`c${d}$\\n`}</p>",
        "0 Reserved(\"return\")\n7 Begin(\"<\")\n8 Name(\"p\")\n10 Name(\"t\")\n11 Punct(\"=\")\n12 Attribute('\"', \"&\")\n15 Punct(\">\")\n16 JsxText(\"b\")\n17 Punct(\"{\")\n18 Template(Backquote, \"c\", Hole)\n22 Name(\"d\")\n23 Template(Hole, \"$\\\\n\", Backquote)\n28 Punct(\"}\")\n29 Punct(\"</\")\n31 Name(\"p\")\n32 Punct(\">\")\n33",
    ),
];

#[test]
fn tokens_and_places(rt: HostRuntime) -> Result<(), Fail> {
    for (text, expected) in &TOKENS {
        let seen = tokens(rt.alloc(), text)?;
        assert_eq!(rt; seen.as_str(), *expected, "{text}");
    }
    Ok(())
}

/// What is written inside quotes, and the text that it stands for.
const WRITTEN: [(&str, &str); 6] = [
    ("", ""),
    ("a\u{e9}\n$", "a\u{e9}\n$"),
    ("\\n\\r\\t\\\\\\'\\\"\\`\\$n", "\n\r\t\\'\"`$n"),
    ("\\u0041\\u00E9\\u00e94", "A\u{e9}\u{e9}4"),
    ("\\u{41}\\u{1F600}\\u{00010fFff}}", "A\u{1f600}\u{10ffff}}"),
    ("a\rb\r\nc\r\r\n\\r", "a\nb\nc\n\n\r"),
];

/// What is written between tags, and the text that it stands for.
const BETWEEN_TAGS: [(&str, &str); 8] = [
    ("hello", "hello"),
    (" a \r\n\t b\t c \n\n  \n d ", " a b  c d "),
    ("\n  \n\t", ""),
    ("  ", "  "),
    ("\t\n a", "a"),
    (
        "&amp;lt; &lt;&gt;&quot;&nbsp; & &x; &am\np;",
        "&lt; <>\"\u{a0} & &x; &am p;",
    ),
    ("\ra\r\nb\r", "\ra b\r"),
    ("  a\t \r\n\n  &quot;b &gt;\u{e9} ", "  a \"b >\u{e9} "),
];

/// What is written in an attribute's quotes, and the text that it stands for.
const IN_ATTRIBUTES: [(&str, &str); 2] = [
    (" &lt;\r\n\t&amp ", " <\r\n\t&amp "),
    ("\\n&amp;\r\n&lt;&x;\t", "\\n&\r\n<&x;\t"),
];

#[test]
fn written_texts(rt: HostRuntime) -> Result<(), Fail> {
    let alloc = rt.alloc();
    for (written, expected) in &WRITTEN {
        assert_eq!(rt;
            written_text(alloc, written)?.as_str(),
            *expected,
            "{written}"
        );
    }
    for (written, expected) in &BETWEEN_TAGS {
        assert_eq!(rt;
            qk_token::jsx_text(alloc, written)?.as_str(),
            *expected,
            "{written}"
        );
        assert_eq!(rt;
            qk_lex::jsx_text(alloc, written)?.as_str(),
            *expected,
            "{written}"
        );
    }
    for (written, expected) in &IN_ATTRIBUTES {
        assert_eq!(rt;
            qk_token::attribute_text(alloc, written)?.as_str(),
            *expected,
            "{written}"
        );
        assert_eq!(rt;
            qk_lex::attribute_text(alloc, written)?.as_str(),
            *expected,
            "{written}"
        );
    }
    assert_eq!(rt; name_text(alloc, "\u{e9}$1")?.as_str(), "\u{e9}$1");
    Ok(())
}
