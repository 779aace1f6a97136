//! Values as they are printed.

use crate::components::{Component, name_of};
use crate::json::put_quoted;
use qk_heap::{Fields, Heap, Object};
use qk_shared::Text;
use qk_value::{Addr, Elem, ElemTag, Value};
use std::alloc::{AllocError, Global};
use std::collections::BTreeMap;

/// How many levels of a value are printed; what is deeper is two dots.
const LEVELS: u32 = 2000;

/// The text of a value that a call gave: a text as it is, and all else as `Printer` has it.
pub(crate) fn text_of(
    alloc: Global,
    heap: &Heap,
    components: &[Component],
    v: &Value,
) -> Result<Vec<u8>, AllocError> {
    let mut printer = Printer {
        alloc,
        heap,
        components,
        met: BTreeMap::new(alloc),
        out: Vec::new(alloc),
    };
    match v {
        Value::Text(text) => printer.put(text.as_str())?,
        _ => printer.value(v, LEVELS)?,
    }
    Ok(printer.out)
}

/// What is printed so far, and the state objects that were met, each with its number.
#[derive(Drop)]
struct Printer<'a> {
    alloc: Global,
    heap: &'a Heap,
    components: &'a [Component],
    met: BTreeMap<usize, usize>,
    out: Vec<u8>,
}

impl Printer<'_> {
    fn put(&mut self, text: &str) -> Result<(), AllocError> {
        self.out.extend_from_slice(text.as_bytes())
    }

    fn put_number(&mut self, n: usize) -> Result<(), AllocError> {
        let mut buffer = itoa::Buffer::new();
        self.put(buffer.format(n))
    }

    fn put_integer(&mut self, n: i64) -> Result<(), AllocError> {
        let mut buffer = itoa::Buffer::new();
        self.put(buffer.format(n))
    }

    #[cycle(printing)]
    fn value(&mut self, v: &Value, levels: u32) -> Result<(), AllocError> {
        let Some(below) = levels.checked_sub(1) else {
            return self.put("..");
        };
        match v {
            Value::Undefined => self.put("undefined"),
            Value::Null => self.put("null"),
            Value::Bool(true) => self.put("true"),
            Value::Bool(false) => self.put("false"),
            Value::Int(n) => self.put_integer(*n),
            Value::Text(text) => put_quoted(text.as_str(), &mut self.out),
            Value::Fun(_) => self.put("function"),
            Value::List(items) => self.items(items.as_slice(), below),
            Value::Record(fields) => self.fields(fields.as_slice(), below),
            Value::Elem(element) => self.element(element.get(), below),
            Value::Ref(a) => self.reference(*a, below),
        }
    }

    /// Items in brackets.
    #[cycle(printing)]
    fn items(&mut self, items: &[Value], levels: u32) -> Result<(), AllocError> {
        self.put("[")?;
        for (at, item) in items.iter().enumerate() {
            if at > 0 {
                self.put(",")?;
            }
            self.value(item, levels)?;
        }
        self.put("]")
    }

    /// Fields in braces.
    #[cycle(printing)]
    fn fields(&mut self, fields: &[(Text, Value)], levels: u32) -> Result<(), AllocError> {
        self.put("{")?;
        for (at, field) in fields.iter().enumerate() {
            self.field(at, &field.0, &field.1, levels)?;
        }
        self.put("}")
    }

    /// The field at that place.
    #[cycle(printing)]
    fn field(&mut self, at: usize, name: &Text, v: &Value, levels: u32) -> Result<(), AllocError> {
        if at > 0 {
            self.put(",")?;
        }
        put_quoted(name.as_str(), &mut self.out)?;
        self.put(":")?;
        self.value(v, levels)
    }

    /// A JSX value: its kind, name, key and slot, its attributes and its children.
    #[cycle(printing)]
    fn element(&mut self, element: &Elem, levels: u32) -> Result<(), AllocError> {
        self.put("<")?;
        self.put_tag(&element.tag)?;
        self.put(" ")?;
        match &element.key {
            Some(key) => self.put(key.as_str())?,
            None => self.put("-")?,
        }
        self.put(" ")?;
        self.put(element.slot.as_str())?;
        self.put(" ")?;
        self.fields(element.attrs.as_slice(), levels)?;
        self.put(" ")?;
        self.items(element.children.as_slice(), levels)?;
        self.put(">")
    }

    fn put_tag(&mut self, tag: &ElemTag) -> Result<(), AllocError> {
        match tag {
            ElemTag::Element(name) => self.put_named("element ", name),
            ElemTag::Component(symbol) => {
                let name = name_of(self.components, symbol);
                self.put_named("component ", name)
            }
            ElemTag::Fragment => self.put("fragment "),
            ElemTag::Slot(name) => self.put_named("slot ", name),
        }
    }

    fn put_named(&mut self, kind: &str, name: &Text) -> Result<(), AllocError> {
        self.put(kind)?;
        self.put(name.as_str())
    }

    /// A state object: its number, and what it holds where it is met for the first time.
    #[cycle(printing)]
    fn reference(&mut self, a: Addr, levels: u32) -> Result<(), AllocError> {
        self.put("&")?;
        if let Some(number) = self.met.get(&a.0) {
            let number = *number;
            return self.put_number(number);
        }
        let number = self.met.len();
        self.met.insert(a.0, number)?;
        self.put_number(number)?;
        let heap = self.heap;
        match heap.object(a) {
            Some(object) => self.object(object, levels),
            None => Ok(()),
        }
    }

    /// What an object holds. No call makes others than these two.
    #[cycle(printing)]
    fn object(&mut self, object: &Object, levels: u32) -> Result<(), AllocError> {
        match object {
            Object::Array(items) => self.items(items.as_slice(), levels),
            Object::Plain(fields) => match object.names(self.alloc)? {
                Some(names) => self.listed(names.as_slice(), fields, levels),
                None => Ok(()),
            },
            _ => Ok(()),
        }
    }

    /// Those of the fields that have these names.
    #[cycle(printing)]
    fn listed(&mut self, names: &[Text], fields: &Fields, levels: u32) -> Result<(), AllocError> {
        self.put("{")?;
        for (at, name) in names.iter().enumerate() {
            if let Some(v) = fields.get(name) {
                self.field(at, name, v, levels)?;
            }
        }
        self.put("}")
    }
}
