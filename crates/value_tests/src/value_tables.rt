//! Variables, set and read. A refused allocation leaves them as they were: a test then ends as out
//! of memory, once it has seen that; let the first allocation fail, then the second, and so on.
use d_values::{ClauseLocals, Key, KeyPart, Kind, Text, ThreadTable, Value, ValueRef, Var};
use std::alloc::{AllocError, Global};
use std::test::Fail;

const COUNT: Var = Var {
    slot: 0,
    kind: Kind::Number,
};

const NAME: Var = Var {
    slot: 0,
    kind: Kind::Text,
};

const OTHER: Var = Var {
    slot: 7,
    kind: Kind::Number,
};

// A value of one's own that is the same.
fn value_of(alloc: Global, value: ValueRef<'_>) -> Result<Value, AllocError> {
    match value {
        ValueRef::Int(n) => Ok(Value::Int(n)),
        ValueRef::Text(bytes) => {
            let text = Text::from_slice(alloc, bytes)?;
            Ok(Value::Text(text))
        }
    }
}

// The number that a value is, or a text's length and 1,000.
fn value_number(value: ValueRef<'_>) -> u64 {
    match value {
        ValueRef::Int(n) => n,
        ValueRef::Text(bytes) => 1000 + bytes.len() as u64 % 1000,
    }
}

fn read_own(table: &ThreadTable, [first, second]: [&Key; 2]) -> [u64; 6] {
    [
        value_number(table.get(COUNT, first)),
        value_number(table.get(COUNT, second)),
        value_number(table.get(NAME, first)),
        value_number(table.get(NAME, second)),
        value_number(table.get(OTHER, first)),
        value_number(table.get(OTHER, second)),
    ]
}

fn read_locals(locals: &ClauseLocals) -> [u64; 3] {
    [
        value_number(locals.get(COUNT)),
        value_number(locals.get(NAME)),
        value_number(locals.get(OTHER)),
    ]
}

// Adds a text and a number to a key.
fn add_parts(alloc: Global, key: &mut Key, name: &[u8], number: i64) -> Result<(), AllocError> {
    let text = Text::from_slice(alloc, name)?;
    key.push(KeyPart::Name(text))?;
    key.push(KeyPart::Number(number))
}

// Eight parts of both kinds, the last one this.
fn long_key(alloc: Global, last: i64) -> Result<Key, AllocError> {
    let mut key = Key::new(alloc);
    for number in [-1, 0, 1] {
        add_parts(alloc, &mut key, b"x", number)?;
    }
    add_parts(alloc, &mut key, b"", last)?;
    Ok(key)
}

// A variable, what it is set to, and what is read of all variables then.
const LOCALS: [(Var, ValueRef<'static>, [u64; 3]); 7] = [
    (COUNT, ValueRef::Int(5), [5, 1000, 0]),
    (NAME, ValueRef::Text(b"abc"), [5, 1003, 0]),
    (OTHER, ValueRef::Int(u64::MAX), [5, 1003, u64::MAX]),
    (COUNT, ValueRef::Int(0), [0, 1003, u64::MAX]),
    (NAME, ValueRef::Text(b"a"), [0, 1001, u64::MAX]),
    (NAME, ValueRef::Text(b""), [0, 1000, u64::MAX]),
    (COUNT, ValueRef::Int(6), [6, 1000, u64::MAX]),
];

// Sets a variable, and says whether all variables then read as they have to.
fn set_local(
    locals: &mut ClauseLocals,
    var: Var,
    value: Value,
    after: [u64; 3],
) -> Result<bool, AllocError> {
    if value.kind() != var.kind {
        return Ok(false);
    }
    let before = read_locals(locals);
    match locals.set(var, value) {
        Err(refused) if read_locals(locals) == before => Err(refused),
        set => Ok(set.is_ok() && read_locals(locals) == after),
    }
}

// The first row after which something else is read.
fn first_wrong_local(
    alloc: Global,
    locals: &mut ClauseLocals,
) -> Result<Option<usize>, AllocError> {
    for (row, (var, value, after)) in LOCALS.iter().enumerate() {
        let value = value_of(alloc, *value)?;
        if !set_local(locals, *var, value, *after)? {
            return Ok(Some(row));
        }
    }
    Ok(None)
}

#[test]
fn locals_keep_values(rt: HostRuntime) -> Result<(), Fail> {
    let mut locals = ClauseLocals::new(rt.alloc());
    assert!(rt; read_locals(&locals) == [0, 1000, 0]);
    let wrong = first_wrong_local(rt.alloc(), &mut locals)?;
    assert_eq!(rt; wrong, None);
    locals.reset();
    assert!(rt; read_locals(&locals) == [0, 1000, 0]);
    Ok(())
}

// A variable, whether it has the second key, what it is set to, and what is read then.
const OWN: [(Var, bool, ValueRef<'static>, [u64; 6]); 9] = [
    (COUNT, false, ValueRef::Int(5), [5, 0, 1000, 1000, 0, 0]),
    (COUNT, true, ValueRef::Int(6), [5, 6, 1000, 1000, 0, 0]),
    (NAME, true, ValueRef::Text(b"abc"), [5, 6, 1000, 1003, 0, 0]),
    (OTHER, true, ValueRef::Int(0), [5, 6, 1000, 1003, 0, 0]),
    (OTHER, true, ValueRef::Int(9), [5, 6, 1000, 1003, 0, 9]),
    (COUNT, true, ValueRef::Int(7), [5, 7, 1000, 1003, 0, 9]),
    (COUNT, false, ValueRef::Int(0), [0, 7, 1000, 1003, 0, 9]),
    (NAME, true, ValueRef::Text(b""), [0, 7, 1000, 1000, 0, 9]),
    (NAME, false, ValueRef::Text(b"z"), [0, 7, 1001, 1000, 0, 9]),
];

// Sets a variable at the second key, or at the first, and says whether all then read as they
// have to.
fn set_own(
    table: &mut ThreadTable,
    keys: [&Key; 2],
    (var, is_second): (Var, bool),
    value: Value,
    after: [u64; 6],
) -> Result<bool, AllocError> {
    if value.kind() != var.kind {
        return Ok(false);
    }
    let before = read_own(table, keys);
    let key = if is_second { keys[1] } else { keys[0] };
    match table.set(var, key, value) {
        Err(refused) if read_own(table, keys) == before => Err(refused),
        set => Ok(set.is_ok() && read_own(table, keys) == after),
    }
}

// The first row after which something else is read.
fn first_wrong_own(
    alloc: Global,
    table: &mut ThreadTable,
    keys: [&Key; 2],
) -> Result<Option<usize>, AllocError> {
    for (row, (var, is_second, value, after)) in OWN.iter().enumerate() {
        let value = value_of(alloc, *value)?;
        if !set_own(table, keys, (*var, *is_second), value, *after)? {
            return Ok(Some(row));
        }
    }
    Ok(None)
}

// Whether three variables are held, of which one text has a value of its own and no elements.
fn holds_three(table: &ThreadTable) -> bool {
    match table.map().get(&NAME) {
        Some(held) => {
            table.map().len() == 3 && held.scalar().is_some() && held.elements().is_empty()
        }
        None => false,
    }
}

#[test]
fn threads_keep_values(rt: HostRuntime) -> Result<(), Fail> {
    let long = long_key(rt.alloc(), 2)?;
    let none = Key::new(rt.alloc());
    let mut table = ThreadTable::new(rt.alloc());
    assert!(rt; read_own(&table, [&none, &long]) == [0, 0, 1000, 1000, 0, 0]);
    let wrong = first_wrong_own(rt.alloc(), &mut table, [&none, &long])?;
    assert_eq!(rt; wrong, None);
    assert!(rt; holds_three(&table));
    Ok(())
}

// What is read of two keys that differ in their last part, after the first is set, and after both.
fn read_both(alloc: Global, one: &Key, two: &Key) -> Result<[[u64; 6]; 2], AllocError> {
    let mut table = ThreadTable::new(alloc);
    table.set(COUNT, one, Value::Int(1))?;
    let first = read_own(&table, [one, two]);
    table.set(COUNT, two, Value::Int(2))?;
    Ok([first, read_own(&table, [one, two])])
}

#[test]
fn every_part_counts(rt: HostRuntime) -> Result<(), Fail> {
    let one = long_key(rt.alloc(), 1)?;
    let two = long_key(rt.alloc(), 2)?;
    let [first, both] = read_both(rt.alloc(), &one, &two)?;
    assert!(rt; first == [1, 0, 1000, 1000, 0, 0] && both == [1, 2, 1000, 1000, 0, 0]);
    Ok(())
}
