//! What comes ahead: operators, an arrow, a known call.

ghost use Rattle.std.specs.Prelude.{◌≡◌, if◌then◌else◌, true, List, [], ◌∷◌, chars, codes, Ok, Some, None};
ghost use Rattle.std.specs.Option.{option_map};
ghost use Rattle.qk_ast.specs.Characters.{same};
ghost use Rattle.qk_ast.specs.Rules.{tightness_of, is_of_level};
ghost use Rattle.qk_ast.specs.Tokens.{Token as Grammar_token};
ghost use Rattle.qk_ast.specs.Tokens as grammar;
ghost use Rattle.qk_reading.specs.Ahead as spec;
ghost use Rattle.qk_reading.specs.Input as input;
ghost use Rattle.qk_token.specs.Seen.{level_of, kind_of, scan_of};
ghost use Rattle.qk_token.specs.View.{is_ascii, token_of, tokens_of};

use crate::front::split_first;
use crate::token::{Token, is_word};
use crate::tokens::{Tokens, first_is_sign, is_sign};
use qk_ast::{AssignOp, Bin, Known};

/// The levels of binary operators, the loosest first. A chain of `??` stands where one of `||` may.
#[derive(Clone, Copy, Debug, PartialEq, Eq)]
pub enum Level {
    Or,
    Coalesce,
    And,
    Same,
    Order,
    Sum,
    Product,
}

/// How tightly an expression binds, and whether it is a target.
#[derive(Clone, Copy, Debug, PartialEq, Eq)]
pub enum Kind {
    /// A choice or an arrow.
    Loose,
    /// Operands of a level.
    Chained(Level),
    /// An operand behind `!` or `-`.
    Prefixed,
    /// A call.
    Called,
    /// A member, which is a target.
    Member,
    /// A name alone, which is a target.
    Bare,
    /// Any other expression that stands for itself.
    Atomic,
}

impl Level {
    /// How tightly its operators bind.
    pub fn tightness(self) -> u32
        ensures { result ≡ tightness_of (level_of self) }
    {
        match self {
            Level::Or => 1,
            Level::Coalesce => 1,
            Level::And => 2,
            Level::Same => 3,
            Level::Order => 4,
            Level::Sum => 5,
            Level::Product => 6,
        }
    }

    /// Whether the operator is one of the level.
    pub fn has(self, op: Bin) -> bool
        ensures { result ≡ is_of_level (level_of self) op }
    {
        match self {
            Level::Or => op == Bin::Or,
            Level::Coalesce => op == Bin::Coalesce,
            Level::And => op == Bin::And,
            Level::Same => op == Bin::Same || op == Bin::NotSame,
            Level::Order => {
                op == Bin::Less || op == Bin::LessEq || op == Bin::More || op == Bin::MoreEq
            }
            Level::Sum => op == Bin::Add || op == Bin::Sub,
            Level::Product => op == Bin::Mul || op == Bin::Rem,
        }
    }
}

impl Kind {
    /// How tightly an expression of the kind binds.
    pub fn tightness(self) -> u32
        ensures { result ≡ spec.kind_tightness (kind_of self) }
    {
        match self {
            Kind::Loose => 0,
            Kind::Chained(level) => level.tightness(),
            Kind::Prefixed => 7,
            Kind::Called => 8,
            Kind::Member => 8,
            Kind::Bare => 9,
            Kind::Atomic => 9,
        }
    }

    pub fn is_member(self) -> bool
        ensures { result ≡ spec.is_member_kind (kind_of self) }
    {
        match self {
            Kind::Member => true,
            _ => false,
        }
    }

    pub fn is_target(self) -> bool
        ensures { result ≡ spec.is_target_kind (kind_of self) }
    {
        match self {
            Kind::Bare => true,
            Kind::Member => true,
            _ => false,
        }
    }
}

/// The operator, where the rest of its sign is that.
fn bin_with(op: Bin, rest: &[u8], more: &str) -> Option<Bin>
    requires { is_ascii rest.now ≡ true }
    ensures { result ≡ (if same (chars more.now) rest.now then Some op else None) }
{
    if is_word(more, rest) { Some(op) } else { None }
}

/// Less or more, or that or the same.
fn order_of(strict: Bin, weak: Bin, more: &str) -> Option<Bin>
    ensures { result ≡ (if same (chars more.now) [] then Some strict else (if same (chars more.now) (codes "=") then Some weak else None)) }
{
    if is_word(more, b"") {
        Some(strict)
    } else {
        bin_with(weak, b"=", more)
    }
}

/// The binary operator whose sign begins with that character and goes on so.
fn bin_from(first: char, more: &str) -> Option<Bin>
    ensures { result ≡ spec.bin_of (first ∷ chars more.now) }
{
    match first {
        '|' => bin_with(Bin::Or, b"|", more),
        '&' => bin_with(Bin::And, b"&", more),
        '?' => bin_with(Bin::Coalesce, b"?", more),
        '=' => bin_with(Bin::Same, b"==", more),
        '!' => bin_with(Bin::NotSame, b"==", more),
        '<' => order_of(Bin::Less, Bin::LessEq, more),
        '>' => order_of(Bin::More, Bin::MoreEq, more),
        '+' => bin_with(Bin::Add, b"", more),
        '-' => bin_with(Bin::Sub, b"", more),
        '*' => bin_with(Bin::Mul, b"", more),
        '%' => bin_with(Bin::Rem, b"", more),
        _ => None,
    }
}

/// The binary operator that a sign is.
fn bin_of(sign: &str) -> Option<Bin>
    ensures { result ≡ spec.bin_of (chars sign.now) }
{
    match split_first(sign) {
        Some((first, more)) => bin_from(first, more),
        None => None,
    }
}

fn binary_sign(token: Option<Token<'_>>) -> Option<Bin>
    ensures { (ts : List Grammar_token) → input.first ts ≡ option_map token_of token.entry → result ≡ spec.binary_sign ts }
{
    match token {
        Some(Token::Punct(sign)) => bin_of(sign),
        _ => None,
    }
}

fn assign_of(sign: &str) -> Option<AssignOp>
    ensures { result ≡ spec.assign_of (chars sign.now) }
{
    if is_word(sign, b"=") {
        Some(AssignOp::Set)
    } else if is_word(sign, b"+=") {
        Some(AssignOp::Add)
    } else if is_word(sign, b"-=") {
        Some(AssignOp::Sub)
    } else if is_word(sign, b"*=") {
        Some(AssignOp::Mul)
    } else {
        None
    }
}

fn bump_of(sign: &str) -> Option<bool>
    ensures { result ≡ spec.bump_of (chars sign.now) }
{
    if is_word(sign, b"++") {
        Some(true)
    } else if is_word(sign, b"--") {
        Some(false)
    } else {
        None
    }
}

/// Where the scan of an arrow's parameters is: a pattern or `)` may come; `,` or `)`; the first name in braces; a name or `}`; `,` or `}`; only `=>`.
#[derive(Clone, Copy)]
pub enum Scan {
    AtPattern,
    AfterPattern,
    AtFirst,
    AtNext,
    AfterName,
    AtArrow,
}

/// Where the scan is behind a sign; `None` where no arrow's parameters go on with it.
fn scan_sign(scan: Scan, sign: &str) -> Option<Scan>
    ensures { option_map scan_of result ≡ spec.scan_sign (scan_of scan) (chars sign.now) }
{
    match scan {
        Scan::AtPattern => {
            if is_word(sign, b")") {
                Some(Scan::AtArrow)
            } else if is_word(sign, b"{") {
                Some(Scan::AtFirst)
            } else {
                None
            }
        }
        Scan::AfterPattern => {
            if is_word(sign, b")") {
                Some(Scan::AtArrow)
            } else if is_word(sign, b",") {
                Some(Scan::AtPattern)
            } else {
                None
            }
        }
        Scan::AtFirst => None,
        Scan::AtNext => if is_word(sign, b"}") {
            Some(Scan::AfterPattern)
        } else {
            None
        },
        Scan::AfterName => {
            if is_word(sign, b"}") {
                Some(Scan::AfterPattern)
            } else if is_word(sign, b",") {
                Some(Scan::AtNext)
            } else {
                None
            }
        }
        Scan::AtArrow => None,
    }
}

/// Where the scan is behind a name.
fn scan_name(scan: Scan) -> Option<Scan>
    ensures { option_map scan_of result ≡ spec.scan_name (scan_of scan) }
{
    match scan {
        Scan::AtPattern => Some(Scan::AfterPattern),
        Scan::AtFirst => Some(Scan::AfterName),
        Scan::AtNext => Some(Scan::AfterName),
        _ => None,
    }
}

fn scan_step(scan: Scan, token: Token<'_>) -> Option<Scan>
    ensures { option_map scan_of result ≡ spec.scan_step (scan_of scan) (token_of token.entry) }
{
    match token {
        Token::Punct(sign) => scan_sign(scan, sign),
        Token::Name(_) => scan_name(scan),
        _ => None,
    }
}

fn is_arrow_at(scan: Scan, token: Token<'_>) -> bool
    ensures { result ≡ spec.is_arrow_at (scan_of scan) (token_of token.entry) }
{
    match scan {
        Scan::AtArrow => is_sign(b"=>", token),
        _ => false,
    }
}

/// Whether the scan of an arrow's parameters comes to the arrow.
#[tactic(auto, unfolding(qk_reading::specs::Ahead::finds_arrow))]
fn finds_arrow(mut tokens: &[Token<'_>]) -> bool
    ensures { result ≡ spec.finds_arrow spec.At_pattern (tokens_of tokens.entry.now) }
{
    let mut scan = Scan::AtPattern;
    while let [token, more @ ..] = tokens {
        if is_arrow_at(scan, *token) {
            return true;
        }
        match scan_step(scan, *token) {
            Some(next) => scan = next,
            None => return false,
        }
        tokens = more;
    }
    false
}

fn arrow_from(first: Token<'_>, more: &[Token<'_>]) -> bool
    ensures { result ≡ spec.arrow_from (Some (token_of first.entry)) (tokens_of more.now) }
{
    match first {
        Token::Name(_) => first_is_sign(b"=>", more),
        Token::Punct(sign) => is_word(sign, b"(") && finds_arrow(more),
        _ => false,
    }
}

/// Whether an arrow comes.
#[tactic(auto, unfolding(qk_reading::specs::Ahead::arrow_ahead))]
pub fn arrow_ahead(tokens: &Tokens<'_, '_>) -> bool
    ensures { result ≡ spec.arrow_ahead tokens.now }
{
    match tokens.ahead() {
        [first, more @ ..] => arrow_from(*first, more),
        [] => false,
    }
}

fn known_method(object: &str, method: &str) -> Option<Known>
    ensures { result ≡ spec.known_method (chars object.now) (chars method.now) }
{
    if is_word(object, b"console") && is_word(method, b"log") {
        Some(Known::Log)
    } else if is_word(object, b"Object") && is_word(method, b"keys") {
        Some(Known::Keys)
    } else if is_word(object, b"Math") && is_word(method, b"trunc") {
        Some(Known::Trunc)
    } else {
        None
    }
}

fn known_dotted(object: &str, tokens: &[Token<'_>]) -> Option<Known>
    ensures { result ≡ spec.known_dotted (chars object.now) (tokens_of tokens.now) }
{
    match tokens {
        [Token::Name(method), Token::Punct(sign), ..] => {
            if is_word(sign, b"(") {
                known_method(object, method)
            } else {
                None
            }
        }
        _ => None,
    }
}

#[tactic(auto, unfolding(qk_reading::specs::Ahead::known_ahead))]
fn known_from(object: &str, sign: &str, more: &[Token<'_>]) -> Option<Known>
    ensures { result ≡ spec.known_ahead (grammar.Name (chars object.now) ∷ grammar.Punct (chars sign.now) ∷ tokens_of more.now) }
{
    if is_word(sign, b"(") {
        if is_word(object, b"String") {
            Some(Known::Str)
        } else {
            None
        }
    } else if is_word(sign, b".") {
        known_dotted(object, more)
    } else {
        None
    }
}

/// The known call that comes, up to its opening bracket.
#[tactic(auto, unfolding(qk_reading::specs::Ahead::known_ahead))]
pub fn known_ahead(tokens: &Tokens<'_, '_>) -> Option<Known>
    ensures { result ≡ spec.known_ahead tokens.now.tokens }
{
    match tokens.ahead() {
        [Token::Name(object), Token::Punct(sign), more @ ..] => known_from(object, sign, more),
        _ => None,
    }
}

impl<'s, 't> Tokens<'s, 't> {
    /// Takes the next operator, where it is one of the level.
    #[tactic(auto, unfolding(qk_reading::specs::Ahead::operator, qk_reading::specs::Ahead::operator_at))]
    pub fn operator(&mut self, level: Level) -> Option<Bin>
        ensures { spec.operator (level_of level) self.old ≡ Ok (result, self.new) }
    {
        match binary_sign(self.peek()) {
            Some(op) => {
                if level.has(op) {
                    self.take();
                    Some(op)
                } else {
                    None
                }
            }
            None => None,
        }
    }

    /// Takes an assignment's sign, where one comes.
    #[tactic(auto, unfolding(qk_reading::specs::Ahead::assign_sign))]
    pub fn assign_sign(&mut self) -> Option<AssignOp>
        ensures { spec.assign_sign self.old ≡ Ok (result, self.new) }
    {
        match self.peek() {
            Some(Token::Punct(sign)) => {
                let op = assign_of(sign);
                if op.is_some() {
                    self.take();
                }
                op
            }
            _ => None,
        }
    }

    /// Takes `++` or `--`, where one comes: whether it is `++`.
    #[tactic(auto, unfolding(qk_reading::specs::Ahead::bump_sign))]
    pub fn bump_sign(&mut self) -> Option<bool>
        ensures { spec.bump_sign self.old ≡ Ok (result, self.new) }
    {
        match self.peek() {
            Some(Token::Punct(sign)) => {
                let up = bump_of(sign);
                if up.is_some() {
                    self.take();
                }
                up
            }
            _ => None,
        }
    }
}
