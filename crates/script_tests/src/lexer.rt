//! Which tokens scripts have, and which fault.

use d_lexer::{LexFault, MAX_BYTES, Token, TokenKind, lex};
use std::alloc::{AllocError, Global};
use std::test::Fail;

// A name, and these bytes after it.
fn named_bytes(alloc: Global, name: &str, bytes: &[u8]) -> Result<String, AllocError> {
    let mut shown = String::new(alloc);
    shown.push_str(name)?;
    for b in bytes {
        shown.push(char::from(*b))?;
    }
    Ok(shown)
}

// What a token is: a byte string by its bytes, a number by value and suffix, a mark by its name.
fn kind_text(alloc: Global, kind: &TokenKind) -> Result<String, AllocError> {
    match kind {
        TokenKind::DescriptionRun(run) => named_bytes(alloc, "run:", run.as_slice()),
        TokenKind::Word(word) => named_bytes(alloc, "word:", word.as_slice()),
        TokenKind::AggregationName(word) => named_bytes(alloc, "@", word.as_slice()),
        TokenKind::Number { value, suffix } => format!(in alloc; "{value}:{suffix:?}"),
        TokenKind::TextConstant(text) => format!(in alloc; "text:{:?}", text.as_slice()),
        TokenKind::Mark(mark) => format!(in alloc; "{mark:?}"),
    }
}

// Adds a token and a space.
fn add_token(alloc: Global, shown: &mut String, kind: &TokenKind) -> Result<(), AllocError> {
    let text = kind_text(alloc, kind)?;
    shown.push_str(text.as_str())?;
    shown.push(' ')
}

// The tokens, each with a space after it.
fn all_text(alloc: Global, tokens: &[Token]) -> Result<String, AllocError> {
    let mut shown = String::new(alloc);
    for token in tokens {
        add_token(alloc, &mut shown, &token.kind)?;
    }
    Ok(shown)
}

// The script's tokens, each with a space after it, or its fault.
fn tokens_text(alloc: Global, script: &[u8]) -> Result<String, AllocError> {
    match lex(alloc, script) {
        Ok(tokens) => all_text(alloc, &tokens),
        Err(fault) => format!(in alloc; "{fault:?}"),
    }
}

// Whether a script has these tokens, or this fault.
fn is_lexed(alloc: Global, script: &[u8], wanted: &str) -> Result<bool, AllocError> {
    let shown = tokens_text(alloc, script)?;
    Ok(shown.as_str() == wanted)
}

// Scripts and their tokens: in the head, in a declaration, in a predicate and in a body.
const TOKENS: [(&[u8], &str); 19] = [
    // the head
    (b"", ""),
    (
        b"a.b-c+d:e*f?_9,BEGIN;/",
        "run:a.b-c+d:e*f?_9 Comma run:BEGIN Semicolon Slash ",
    ),
    (
        b"a \t\r\n\x0b\x0cb/*x*/,//",
        "run:a run:b Comma Slash Slash ",
    ),
    (b"a/* --- \n--- * / ** */{}", "run:a OpenBrace CloseBrace "),
    (
        b" \t#pragma\t\tD  option\tquiet \t\r\nhit{}",
        "run:hit OpenBrace CloseBrace ",
    ),
    (b"#!/usr/sbin/dtrace -s\n#pragma D option quiet", ""),
    // a declaration
    (
        b"self int x[char, long];this string s;self:a",
        "word:self word:int word:x OpenBracket word:char Comma word:long CloseBracket Semicolon \
        word:this word:string word:s Semicolon run:self:a ",
    ),
    (
        b"self @x 1 \"a\"+{a",
        "word:self @x 1:Absent text:[97] Plus OpenBrace word:a ",
    ),
    (
        b"this }x-y self{x",
        "word:this CloseBrace run:x-y word:self OpenBrace word:x ",
    ),
    // a predicate
    (
        b"hit/@n == 0x1F && \"s\" != x/{",
        "run:hit Slash @n Equal 31:Absent AndAnd text:[115] NotEqual word:x ClosingSlash \
        OpenBrace ",
    ),
    (
        b"hit/a / b/c/ /* c */ {",
        "run:hit Slash word:a Slash word:b Slash word:c ClosingSlash OpenBrace ",
    ),
    (
        b"hit/x;}y.z",
        "run:hit Slash word:x Semicolon CloseBrace run:y.z ",
    ),
    // a body
    (
        b"a{@ @_ @self;{self} self int",
        "run:a OpenBrace @_ @_ @self Semicolon OpenBrace word:self CloseBrace word:self word:int ",
    ),
    (
        b"a{0 00 017 0u 9L 0x1f 0XAbUl 1uLL 0X1FUL 5ll",
        "run:a OpenBrace 0:Absent 0:Absent 15:Absent 0:Unsigned 9:Long 31:Absent 171:UnsignedLong \
        1:UnsignedLong 31:UnsignedLong 5:Long ",
    ),
    (
        b"a{18446744073709551615 01777777777777777777777u 0xffffffffffffffffLL",
        "run:a OpenBrace 18446744073709551615:Absent 18446744073709551615:Unsigned \
        18446744073709551615:Long ",
    ),
    (
        b"a{\"\" \"a\\a\\b\\f\\n\\r\\t\\v\\\\\\\"\\'\\?\" \"\r/*\"",
        "run:a OpenBrace text:[] text:[97, 7, 8, 12, 10, 13, 9, 11, 92, 34, 39, 63] \
        text:[13, 47, 42] ",
    ),
    // marks, apart and beside longer ones
    (
        b"a{<<= << < <= >>= >> > >= -> -- -= - ++ += + == = != !",
        "run:a OpenBrace ShiftLeftAssign ShiftLeft Less LessEqual ShiftRightAssign ShiftRight \
        Greater GreaterEqual Arrow Decrement SubtractAssign Minus Increment AddAssign Plus Equal \
        Assign NotEqual Not ",
    ),
    (
        b"a{&& &= & || |= | ^^ ^= ^ *= * %= % /= / ~ ? : ( ) [ ] , ; { }",
        "run:a OpenBrace AndAnd AndAssign And OrOr OrAssign Or XorXor XorAssign Xor MultiplyAssign \
        Star RemainderAssign Percent DivideAssign Slash Tilde Question Colon OpenParenthesis \
        CloseParenthesis OpenBracket CloseBracket Comma Semicolon OpenBrace CloseBrace ",
    ),
    (
        b"a{<<<=>>>>=--->+++===!==&&&|||^^^^=",
        "run:a OpenBrace ShiftLeft LessEqual ShiftRight ShiftRightAssign Decrement Arrow Increment \
        AddAssign Equal NotEqual Assign AndAnd And OrOr Or XorXor XorXor Assign ",
    ),
];

#[test]
fn tokens(rt: HostRuntime) -> Result<(), Fail> {
    for (script, want) in TOKENS {
        let is_lexed = is_lexed(rt.alloc(), script, want)?;
        assert!(rt; is_lexed, "{script:?}");
    }
    Ok(())
}

#[test]
fn spans(rt: HostRuntime) -> Result<(), Fail> {
    let tokens = match lex(rt.alloc(), b"a:b\n/* \n */ /@x\n>= \"\\n\"/\n{}") {
        Ok(tokens) => tokens,
        Err(_) => Vec::new(rt.alloc()),
    };
    let want = [
        (0, 3, 1),
        (12, 13, 3),
        (13, 15, 3),
        (16, 18, 4),
        (19, 23, 4),
        (23, 24, 4),
        (25, 26, 5),
        (26, 27, 5),
    ];
    assert_eq!(rt; tokens.len(), want.len());
    for (token, span) in tokens.iter().zip(want.iter()) {
        assert_eq!(rt; (token.start, token.stop, token.line), *span);
    }
    Ok(())
}

// Scripts and their first fault.
const FAULTS: [(&[u8], &str); 40] = [
    (
        b":::hit { trace(18446744073709551616); }",
        "Constant { line: 1 }",
    ),
    (b"a{02000000000000000000000", "Constant { line: 1 }"),
    (b"a{0x10000000000000000", "Constant { line: 1 }"),
    (b"a{\n08", "Constant { line: 2 }"),
    (b"a{0x", "Constant { line: 1 }"),
    (b"a{0xul", "Constant { line: 1 }"),
    (b"a{1uu", "Constant { line: 1 }"),
    (b"a{1lu", "Constant { line: 1 }"),
    (b"a{12ab", "Constant { line: 1 }"),
    (b"a{1_0", "Constant { line: 1 }"),
    (b"a{\n\"a\\q\"", "Escape { line: 2 }"),
    (b"a{\"\\\n\"", "Escape { line: 1 }"),
    (b"a{\"\\q\0", "Escape { line: 1 }"),
    (b"a{\"\0\\q", "BadByte { line: 1 }"),
    (b"a{\"a\\", "Unclosed { line: 1 }"),
    (b"a{\n\"open\n\"", "Unclosed { line: 2 }"),
    (b"a{\"open", "Unclosed { line: 1 }"),
    (b"a\n/* \n\n x", "Unclosed { line: 2 }"),
    (b"/*\n---\n*", "Unclosed { line: 1 }"),
    (b"/*/", "Unclosed { line: 1 }"),
    (
        b"#pragma D option quiet\n#pragma D option bufsize=4k\n",
        "OptionLine { line: 2 }",
    ),
    (b"# pragma D option quiet", "OptionLine { line: 1 }"),
    (b"#pragma D option quiets", "OptionLine { line: 1 }"),
    (b"#pragmaD option quiet", "OptionLine { line: 1 }"),
    (b"#pragma D option quiet /* c */", "OptionLine { line: 1 }"),
    (b"#pragma D option quiet\0", "OptionLine { line: 1 }"),
    (b"\n#!x", "OptionLine { line: 2 }"),
    (b" #!x", "OptionLine { line: 1 }"),
    (b"/**/#pragma D option quiet", "BadByte { line: 1 }"),
    (b"\x0b#pragma D option quiet", "BadByte { line: 1 }"),
    (b"a {\n#pragma D option quiet\n}", "BadByte { line: 2 }"),
    (b"a{.", "BadByte { line: 1 }"),
    (b"a{$x", "BadByte { line: 1 }"),
    (b"a{'c'", "BadByte { line: 1 }"),
    (b"a{\\", "BadByte { line: 1 }"),
    (b"a\0", "BadByte { line: 1 }"),
    (b"a\n\"x\"", "BadByte { line: 2 }"),
    (b"@x", "BadByte { line: 1 }"),
    (b"a<b", "BadByte { line: 1 }"),
    (b"caf\xc3\xa9", "BadByte { line: 1 }"),
];

#[test]
fn faults(rt: HostRuntime) -> Result<(), Fail> {
    for (script, want) in FAULTS {
        let is_lexed = is_lexed(rt.alloc(), script, want)?;
        assert!(rt; is_lexed, "{script:?}");
    }
    Ok(())
}

// Whether as many blanks as a script may have, with these bytes after them, have these tokens, or
// this fault.
fn is_blanks_text(alloc: Global, rest: &[u8], wanted: &str) -> Result<bool, AllocError> {
    let mut script = vec![in alloc; b' '; MAX_BYTES]?;
    script.extend_from_slice(rest)?;
    is_lexed(alloc, &script, wanted)
}

#[test]
fn limit(rt: HostRuntime) -> Result<(), Fail> {
    let is_empty = is_blanks_text(rt.alloc(), b"", "")?;
    assert!(rt; is_empty);
    let is_too_long = is_blanks_text(rt.alloc(), b"\0", "TooLong")?;
    assert!(rt; is_too_long);
    Ok(())
}

// Whether a fault says this.
fn says(alloc: Global, fault: LexFault, wanted: &str) -> Result<bool, AllocError> {
    let said = format!(in alloc; "{fault}")?;
    Ok(said.as_str() == wanted)
}

#[test]
fn messages(rt: HostRuntime) -> Result<(), Fail> {
    for (fault, want) in [
        (LexFault::TooLong, "the script has more than 65536 bytes"),
        (
            LexFault::BadByte { line: 2 },
            "line 2: a byte that no token has here",
        ),
        (
            LexFault::Unclosed { line: 3 },
            "line 3: a comment or a text constant without an end",
        ),
        (
            LexFault::Constant { line: 4 },
            "line 4: not an integer constant below 2^64",
        ),
        (
            LexFault::Escape { line: 5 },
            "line 5: an unknown escape in a text constant",
        ),
        (
            LexFault::OptionLine { line: 6 },
            "line 6: an option line other than `#pragma D option quiet`",
        ),
        (LexFault::Memory, "out of memory"),
    ] {
        let says = says(rt.alloc(), fault, want)?;
        assert!(rt; says, "{want}");
    }
    Ok(())
}
