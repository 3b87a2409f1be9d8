//! Which tree scripts have, as text, and which fault.

ghost use Rattle.std.specs.Prelude.{◌≤◌, length};
ghost use Rattle.d_lexer.specs.{Small.HaveSmallNumbers};

use d_lexer::{MAX_BYTES, Token, lex};
use d_parser::parse;
use std::alloc::{AllocError, Global};
use std::test::Fail;

// The tree of these tokens as text, or its fault.
fn tree_text_of(alloc: Global, tokens: &[Token]) -> Result<String, AllocError>
    requires few { length tokens.now ≤ MAX_BYTES }
    requires small { HaveSmallNumbers tokens.now }
{
    match parse(alloc, tokens) {
        Ok(script) => format!(in alloc; "{script}"),
        Err(fault) => format!(in alloc; "{fault:?}"),
    }
}

// The script's tree as text, or its fault.
fn tree_text(alloc: Global, script: &[u8]) -> Result<String, AllocError> {
    match lex(alloc, script) {
        Ok(tokens) => tree_text_of(alloc, &tokens),
        Err(fault) => format!(in alloc; "{fault:?}"),
    }
}

// Expressions, and how their operators join: each pair of neighbouring levels both ways, each level
// from its side.
const EXPRESSIONS: [(&str, &str); 60] = [
    ("a * b / c % d", "(((a * b) / c) % d)"),
    ("a * b + c % d", "((a * b) + (c % d))"),
    ("a + b - c", "((a + b) - c)"),
    ("a - b << c + d", "((a - b) << (c + d))"),
    ("a << b >> c", "((a << b) >> c)"),
    ("a << b < c >> d", "((a << b) < (c >> d))"),
    ("a < b <= c > d >= e", "((((a < b) <= c) > d) >= e)"),
    ("a < b == c > d", "((a < b) == (c > d))"),
    ("a == b != c", "((a == b) != c)"),
    ("a == b & c != d", "((a == b) & (c != d))"),
    ("a & b & c", "((a & b) & c)"),
    ("a & b ^ c & d", "((a & b) ^ (c & d))"),
    ("a ^ b ^ c", "((a ^ b) ^ c)"),
    ("a ^ b | c ^ d", "((a ^ b) | (c ^ d))"),
    ("a | b | c", "((a | b) | c)"),
    ("a | b && c | d", "((a | b) && (c | d))"),
    ("a && b && c", "((a && b) && c)"),
    ("a && b ^^ c && d", "((a && b) ^^ (c && d))"),
    ("a ^^ b ^^ c", "((a ^^ b) ^^ c)"),
    ("a ^^ b || c ^^ d", "((a ^^ b) || (c ^^ d))"),
    ("a || b || c", "((a || b) || c)"),
    (
        "a || b ? c || d : e || f",
        "((a || b) ? (c || d) : (e || f))",
    ),
    ("a ? b : c ? d : e", "(a ? b : (c ? d : e))"),
    ("a ? b ? c : d : e", "(a ? (b ? c : d) : e)"),
    ("(a ? b : c) ? d : e", "((a ? b : c) ? d : e)"),
    ("a ? b = c : d", "(a ? (b = c) : d)"),
    ("a = b ? c : d", "(a = (b ? c : d))"),
    ("a = b = c || d", "(a = (b = (c || d)))"),
    (
        "a = b += c -= d *= e /= f %= g",
        "(a = (b += (c -= (d *= (e /= (f %= g))))))",
    ),
    (
        "a &= b |= c ^= d <<= e >>= f",
        "(a &= (b |= (c ^= (d <<= (e >>= f)))))",
    ),
    ("a - (b - c)", "(a - (b - c))"),
    ("((a)) + (b)", "(a + b)"),
    ("a + (b = c)", "(a + (b = c))"),
    ("-a * b", "((-a) * b)"),
    ("-a + b", "((-a) + b)"),
    ("a - -b", "(a - (-b))"),
    ("!~-+a", "(!(~(-(+a))))"),
    ("-(a + b)", "(-(a + b))"),
    ("-a++", "(-(a++))"),
    ("- --a", "(-(--a))"),
    ("++self->a * this->b--", "((++self->a) * (this->b--))"),
    ("a+++b", "((a++) + b)"),
    ("(char)-a + b", "(((int8_t)(-a)) + b)"),
    ("-(int)a", "(-((int32_t)a))"),
    ("(int)a++", "((int32_t)(a++))"),
    ("(char)(signed char)a", "((int8_t)((int8_t)a))"),
    (
        "(unsigned char)(uint8_t)(int8_t)a",
        "((uint8_t)((uint8_t)((int8_t)a)))",
    ),
    (
        "(short)(signed short int)(unsigned short int)(int16_t)(uint16_t)a",
        "((int16_t)((int16_t)((uint16_t)((int16_t)((uint16_t)a)))))",
    ),
    (
        "(int)(signed)(unsigned)(signed int)(unsigned int)(int32_t)(uint32_t)a",
        "((int32_t)((int32_t)((uint32_t)((int32_t)((uint32_t)((int32_t)((uint32_t)a)))))))",
    ),
    (
        "(long)(long int)(long long)(long long int)(signed long)a",
        "((int64_t)((int64_t)((int64_t)((int64_t)((int64_t)a)))))",
    ),
    (
        "(unsigned long)(unsigned long int)(unsigned long long)\
        (unsigned long long int)(int64_t)(uint64_t)a",
        "((uint64_t)((uint64_t)((uint64_t)((uint64_t)((int64_t)((uint64_t)a))))))",
    ),
    ("f()", "f()"),
    (
        "f(a, (b), c = d, e ? g : h)",
        "f(a, b, (c = d), (e ? g : h))",
    ),
    ("f(f(1), \"x\") + 1", "(f(f(1), \"x\") + 1)"),
    ("(f(1))", "f(1)"),
    ("a[b, c = d]", "a[b, (c = d)]"),
    ("a[b[c]] = self->d[1]++", "(a[b[c]] = (self->d[1]++))"),
    ("self->f", "self->f"),
    (
        "1 + 0x2u + 3l + 4LL + 5ull",
        "((((1 + 2u) + 3l) + 4l) + 5ul)",
    ),
    ("\"\" == \"a\\n\\\"\\\\\"", "(\"\" == \"a\\n\\\"\\\\\")"),
];

/// Whether a script has this tree.
pub(crate) fn has_tree(alloc: Global, script: &str, tree: &str) -> Result<bool, AllocError> {
    let shown = tree_text(alloc, script.as_bytes())?;
    Ok(shown.as_str() == tree)
}

// Whether a script of one expression has this tree.
fn is_joined(alloc: Global, expression: &str, tree: &str) -> Result<bool, AllocError> {
    let script = format!(in alloc; "hit{{{expression}}}")?;
    let tree = format!(in alloc; ":::hit {{ {tree}; }}\n")?;
    has_tree(alloc, &script, &tree)
}

#[test]
fn expressions(rt: HostRuntime) -> Result<(), Fail> {
    for (expression, tree) in EXPRESSIONS {
        let is_joined = is_joined(rt.alloc(), expression, tree)?;
        assert!(rt; is_joined, "{expression}");
    }
    Ok(())
}

// Scripts and their trees.
const SCRIPTS: [(&str, &str); 16] = [
    ("", ""),
    ("hit{}", ":::hit { }\n"),
    ("a:b:c:d{}", "a:b:c:d { }\n"),
    (
        "b:c:d{}\nc:d{}\nd{}\n:::{}\n1:{}",
        ":b:c:d { }\n::c:d { }\n:::d { }\n::: { }\n::1: { }\n",
    ),
    (
        "a::r*?:, BEGIN, :::d / x / { }",
        "a::r*?:, :::BEGIN, :::d / x / { }\n",
    ),
    ("a/ x / y == z /{ x }", ":::a / ((x / y) == z) / { x; }\n"),
    (
        "a/ x = y ? 1 : 2 /{ x }",
        ":::a / (x = (y ? 1 : 2)) / { x; }\n",
    ),
    ("a{;}", ":::a { }\n"),
    ("a{;; trace(1);; x;}", ":::a { trace(1); x; }\n"),
    ("a{trace(1); x}", ":::a { trace(1); x; }\n"),
    (
        "a{@ = count(); @n[x, 1] = quantize(x - y, 2)}",
        ":::a { @_ = count(); @n[x, 1] = quantize((x - y), 2); }\n",
    ),
    (
        "a{@self = int(); @ = self(x)}",
        ":::a { @self = int(); @_ = self(x); }\n",
    ),
    (
        "self int n;self string who[int, string];this uint64_t t;",
        "self int32_t n;\nself string who[int32_t, string];\nthis uint64_t t;\n",
    ),
    (
        "self int int; self long int; this char self; this unsigned signed;",
        "self int32_t int;\nself int64_t int;\nthis int8_t self;\nthis uint32_t signed;\n",
    ),
    (
        "self signed char a[unsigned long long, short int]; this long long b;",
        "self int8_t a[uint64_t, int16_t];\nthis int64_t b;\n",
    ),
    (
        "self int a; x{} this int b; y{} z{}",
        "self int32_t a;\n:::x { }\nthis int32_t b;\n:::y { }\n:::z { }\n",
    ),
];

#[test]
fn scripts(rt: HostRuntime) -> Result<(), Fail> {
    for (script, want) in SCRIPTS {
        let has_tree = has_tree(rt.alloc(), script, want)?;
        assert!(rt; has_tree, "{script}");
    }
    Ok(())
}
