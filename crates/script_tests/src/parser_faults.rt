//! The deepest trees and the largest scripts, and what is one step over a limit.

use crate::parser::has_tree;
use std::alloc::{AllocError, Global};
use std::test::Fail;
use std::thread;

// How often something repeats; what opens, what is inside and what closes; and how that prints at a
// limit.
const DEEPEST: [(usize, [&str; 3], [&str; 3]); 6] = [
    // 1,024 tokens in a row, with trace, its parentheses and what is inside
    (1020, ["~", "5", ""], ["(~", "5", ")"]),
    (510, ["", "1", "+1"], ["(", "1", " + 1)"]),
    (510, ["x=", "1", ""], ["(x = ", "1", ")"]),
    // 64 brackets, with that of trace
    (63, ["(", "1", ")"], ["", "1", ""]),
    (63, ["x[", "1", "]"], ["x[", "1", "]"]),
    (63, ["f(", "1", ")"], ["f(", "1", ")"]),
];

// Adds a part this often.
fn add_often(text: &mut String, times: usize, part: &str) -> Result<(), AllocError> {
    for _ in 0..times {
        text.push_str(part)?;
    }
    Ok(())
}

fn nested_text(alloc: Global, times: usize, parts: [&str; 3]) -> Result<String, AllocError> {
    let [opening, inside, closing] = parts;
    let mut text = String::new(alloc);
    add_often(&mut text, times, opening)?;
    text.push_str(inside)?;
    add_often(&mut text, times, closing)?;
    Ok(text)
}

// Whether the script that traces this nested expression has this tree.
fn is_traced(
    alloc: Global,
    times: usize,
    parts: [&str; 3],
    tree: &str,
) -> Result<bool, AllocError> {
    let inner = nested_text(alloc, times, parts)?;
    let script = format!(in alloc; ":::a{{trace({inner})}}")?;
    has_tree(alloc, &script, tree)
}

// Whether a nested expression prints as this text.
fn is_printed(
    alloc: Global,
    times: usize,
    parts: [&str; 3],
    printed: [&str; 3],
) -> Result<bool, AllocError> {
    let inner = nested_text(alloc, times, printed)?;
    let tree = format!(in alloc; ":::a {{ trace({inner}); }}\n")?;
    is_traced(alloc, times, parts, &tree)
}

// Whether a nested expression prints so at its limit, and is too deep above it.
fn is_deepest(
    alloc: Global,
    times: usize,
    parts: [&str; 3],
    printed: [&str; 3],
) -> Result<bool, AllocError> {
    let is_printed = is_printed(alloc, times, parts, printed)?;
    let is_too_deep = is_traced(alloc, times.saturating_add(1), parts, "TooDeep")?;
    Ok(is_printed && is_too_deep)
}

// How often the first tree repeats that does not print so at its limit, or is not too deep above
// it.
fn first_wrong(alloc: Global) -> Result<Option<usize>, AllocError> {
    for (times, parts, printed) in DEEPEST {
        let is_deepest = is_deepest(alloc, times, parts, printed)?;
        if !is_deepest {
            return Ok(Some(times));
        }
    }
    Ok(None)
}

// In a thread with 2 MiB of stack.
#[test]
fn depth(rt: HostRuntime) -> Result<(), Fail> {
    let alloc = rt.alloc();
    let other = thread::Builder::new()
        .stack_size(2 << 20)
        .spawn(&rt, move || first_wrong(alloc))?;
    let wrong = other.join(&rt)?;
    assert_eq!(rt; wrong, None);
    Ok(())
}

// A number of times, a part that a script has that often, and what the script is.
const MANY: [(usize, [&str; 3], [&str; 3]); 6] = [
    (256, [":::a{}", "", ""], [":::a { }\n", "", ""]),
    (257, [":::a{}", "", ""], ["", "TooManyClauses", ""]),
    (257, ["{", "", ""], ["", "TooManyClauses", ""]),
    // depth is reported before the number of clauses
    (
        257,
        [
            ":::a{",
            "((((((((((((((((((((((((((((((((((((((((((((((((((((((((((((((((((",
            "",
        ],
        ["", "TooDeep", ""],
    ),
    // a semicolon and braces end a row, a closing bracket an open one
    (1500, ["self int x;", "", ""], ["self int32_t x;\n", "", ""]),
    (
        200,
        [":::a{x[f(1)]=1;y}", "", ""],
        [":::a { (x[f(1)] = 1); y; }\n", "", ""],
    ),
];

// What such a script prints as.
fn repeated_tree(alloc: Global, times: usize, printed: [&str; 3]) -> Result<String, AllocError> {
    match printed {
        ["", fault, ""] => nested_text(alloc, 1, ["", fault, ""]),
        tree => nested_text(alloc, times, tree),
    }
}

// Whether it does.
fn is_repeated(
    alloc: Global,
    times: usize,
    parts: [&str; 3],
    printed: [&str; 3],
) -> Result<bool, AllocError> {
    let script = nested_text(alloc, times, parts)?;
    let tree = repeated_tree(alloc, times, printed)?;
    has_tree(alloc, &script, &tree)
}

#[test]
fn numbers(rt: HostRuntime) -> Result<(), Fail> {
    for (times, parts, printed) in MANY {
        let is_repeated = is_repeated(rt.alloc(), times, parts, printed)?;
        assert!(rt; is_repeated, "{times} times");
    }
    Ok(())
}
