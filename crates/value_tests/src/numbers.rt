//! Worked values of every operator and type. The expected numbers are a C compiler's, but for a
//! least value divided by -1. Words are written as the signed numbers of their 64 bits.

ghost use Rattle.std.specs.Prelude.{◌<◌};

use d_values::{
    ArithmeticOperator, ComparisonOperator, IntType, ShiftOperator, binary, common, compare,
    complement, convert, negate, promotion_of, shift,
};
use std::cmp::Ordering;

const OPERATORS: [ArithmeticOperator; 8] = [
    ArithmeticOperator::Multiply,
    ArithmeticOperator::Divide,
    ArithmeticOperator::Remainder,
    ArithmeticOperator::Add,
    ArithmeticOperator::Subtract,
    ArithmeticOperator::BitAnd,
    ArithmeticOperator::BitXor,
    ArithmeticOperator::BitOr,
];

const ARITHMETIC: [(IntType, i64, i64, [i64; 8]); 27] = [
    (
        IntType::INT8,
        -128,
        -1,
        [-128, -128, 0, 127, -127, -128, 127, -1],
    ),
    (IntType::INT8, 127, 2, [-2, 63, 1, -127, 125, 2, 125, 127]),
    (IntType::INT8, -7, 3, [-21, -2, -1, -4, -10, 1, -6, -5]),
    (
        IntType::INT16,
        -32768,
        -1,
        [-32768, -32768, 0, 32767, -32767, -32768, 32767, -1],
    ),
    (
        IntType::INT16,
        32767,
        32767,
        [1, 1, 0, -2, 0, 32767, 0, 32767],
    ),
    (IntType::INT16, -7, 2, [-14, -3, -1, -5, -9, 0, -5, -5]),
    (
        IntType::INT32,
        -2147483648,
        -1,
        [
            -2147483648,
            -2147483648,
            0,
            2147483647,
            -2147483647,
            -2147483648,
            2147483647,
            -1,
        ],
    ),
    (
        IntType::INT32,
        2147483647,
        1,
        [
            2147483647,
            2147483647,
            0,
            -2147483648,
            2147483646,
            1,
            2147483646,
            2147483647,
        ],
    ),
    (IntType::INT32, -7, 2, [-14, -3, -1, -5, -9, 0, -5, -5]),
    (IntType::INT32, 7, -2, [-14, -3, 1, 5, 9, 6, -7, -1]),
    (
        IntType::INT32,
        2147483647,
        -2147483648,
        [-2147483648, 0, 2147483647, -1, -1, 0, -1, -1],
    ),
    (
        IntType::INT64,
        i64::MIN,
        -1,
        [
            i64::MIN,
            i64::MIN,
            0,
            i64::MAX,
            -i64::MAX,
            i64::MIN,
            i64::MAX,
            -1,
        ],
    ),
    (
        IntType::INT64,
        i64::MAX,
        1,
        [
            i64::MAX,
            i64::MAX,
            0,
            i64::MIN,
            9223372036854775806,
            1,
            9223372036854775806,
            i64::MAX,
        ],
    ),
    (IntType::INT64, -7, 2, [-14, -3, -1, -5, -9, 0, -5, -5]),
    (
        IntType::INT64,
        i64::MAX,
        i64::MIN,
        [i64::MIN, 0, i64::MAX, -1, -1, 0, -1, -1],
    ),
    (
        IntType::INT64,
        3037000500,
        3037000500,
        [
            -9223372036709301616,
            1,
            0,
            6074001000,
            0,
            3037000500,
            0,
            3037000500,
        ],
    ),
    (IntType::UINT8, 255, 2, [254, 127, 1, 1, 253, 2, 253, 255]),
    (IntType::UINT8, 0, 255, [0, 0, 0, 255, 1, 0, 255, 255]),
    (
        IntType::UINT16,
        65535,
        65535,
        [1, 1, 0, 65534, 0, 65535, 0, 65535],
    ),
    (IntType::UINT16, 1, 2, [2, 0, 1, 3, 65535, 0, 3, 3]),
    (
        IntType::UINT32,
        4294967295,
        4294967295,
        [1, 1, 0, 4294967294, 0, 4294967295, 0, 4294967295],
    ),
    (IntType::UINT32, 1, 2, [2, 0, 1, 3, 4294967295, 0, 3, 3]),
    (
        IntType::UINT32,
        2147483648,
        3,
        [
            2147483648, 715827882, 2, 2147483651, 2147483645, 0, 2147483651, 2147483651,
        ],
    ),
    (IntType::UINT64, -1, -1, [1, 1, 0, -2, 0, -1, 0, -1]),
    (IntType::UINT64, 1, 2, [2, 0, 1, 3, -1, 0, 3, 3]),
    (
        IntType::UINT64,
        -1,
        10,
        [-10, 1844674407370955161, 5, 9, -11, 10, -11, -1],
    ),
    (
        IntType::UINT64,
        i64::MIN,
        3,
        [
            i64::MIN,
            3074457345618258602,
            2,
            -9223372036854775805,
            9223372036854775805,
            0,
            -9223372036854775805,
            -9223372036854775805,
        ],
    ),
];

#[test]
fn arithmetic(rt: HostRuntime) {
    for (t, a, b, results) in ARITHMETIC {
        for i in 0..8 {
            let answer = binary(OPERATORS[i], t, a.cast_unsigned(), b.cast_unsigned());
            assert_eq!(rt; answer, Ok(results[i].cast_unsigned()), "{t:?} {a} {i} {b}");
        }
    }
}

// Whether an operator refuses to divide by zero, if it divides, and takes zero on its left.
fn divides_by_no_zero(op: ArithmeticOperator, t: IntType) -> bool {
    let divides = op == ArithmeticOperator::Divide || op == ArithmeticOperator::Remainder;
    binary(op, t, 7, 0).is_err() == divides && binary(op, t, 0, 7).is_ok()
}

#[test]
fn zero_divides_nothing(rt: HostRuntime) {
    for op in OPERATORS {
        assert!(rt; divides_by_no_zero(op, IntType::INT32), "{op:?}");
        assert!(rt; divides_by_no_zero(op, IntType::UINT64), "{op:?}");
    }
}

const SHIFTS: [(IntType, i64, i64, i64, i64); 36] = [
    (IntType::INT32, -5, 0, -5, -5),
    (IntType::INT32, -5, 1, -10, -3),
    (IntType::INT32, -5, 31, -2147483648, -1),
    (IntType::INT32, -5, 32, -5, -5),
    (IntType::INT32, -5, 33, -10, -3),
    (IntType::INT32, -5, 63, -2147483648, -1),
    (IntType::INT32, -5, 64, -5, -5),
    (IntType::INT32, -5, -1, -2147483648, -1),
    (IntType::INT32, -5, -32, -5, -5),
    (IntType::UINT32, 4294967291, 0, 4294967291, 4294967291),
    (IntType::UINT32, 4294967291, 1, 4294967286, 2147483645),
    (IntType::UINT32, 4294967291, 31, 2147483648, 1),
    (IntType::UINT32, 4294967291, 32, 4294967291, 4294967291),
    (IntType::UINT32, 4294967291, 33, 4294967286, 2147483645),
    (IntType::UINT32, 4294967291, 63, 2147483648, 1),
    (IntType::UINT32, 4294967291, 64, 4294967291, 4294967291),
    (IntType::UINT32, 4294967291, -1, 2147483648, 1),
    (IntType::UINT32, 4294967291, -32, 4294967291, 4294967291),
    (IntType::INT64, -5, 0, -5, -5),
    (IntType::INT64, -5, 1, -10, -3),
    (IntType::INT64, -5, 31, -10737418240, -1),
    (IntType::INT64, -5, 32, -21474836480, -1),
    (IntType::INT64, -5, 33, -42949672960, -1),
    (IntType::INT64, -5, 63, i64::MIN, -1),
    (IntType::INT64, -5, 64, -5, -5),
    (IntType::INT64, -5, -1, i64::MIN, -1),
    (IntType::INT64, -5, -32, -21474836480, -1),
    (IntType::UINT64, -5, 0, -5, -5),
    (IntType::UINT64, -5, 1, -10, 9223372036854775805),
    (IntType::UINT64, -5, 31, -10737418240, 8589934591),
    (IntType::UINT64, -5, 32, -21474836480, 4294967295),
    (IntType::UINT64, -5, 33, -42949672960, 2147483647),
    (IntType::UINT64, -5, 63, i64::MIN, 1),
    (IntType::UINT64, -5, 64, -5, -5),
    (IntType::UINT64, -5, -1, i64::MIN, 1),
    (IntType::UINT64, -5, -32, -21474836480, 4294967295),
];

#[test]
fn shifts(rt: HostRuntime) {
    for (t, a, count, left, right) in SHIFTS {
        let a = a.cast_unsigned();
        let count = count.cast_unsigned();
        assert_eq!(rt;
            shift(ShiftOperator::Left, t, a, count),
            left.cast_unsigned()
        );
        assert_eq!(rt;
            shift(ShiftOperator::Right, t, a, count),
            right.cast_unsigned()
        );
    }
}

const CONVERSIONS: [(IntType, i64, IntType, i64); 24] = [
    (IntType::INT32, 200, IntType::INT8, -56),
    (IntType::INT32, 200, IntType::UINT8, 200),
    (IntType::INT32, 200, IntType::INT16, 200),
    (IntType::INT32, 200, IntType::UINT16, 200),
    (IntType::INT32, 200, IntType::INT32, 200),
    (IntType::INT32, 200, IntType::UINT32, 200),
    (IntType::INT32, 200, IntType::INT64, 200),
    (IntType::INT32, 200, IntType::UINT64, 200),
    (IntType::INT64, -1, IntType::INT8, -1),
    (IntType::INT64, -1, IntType::UINT8, 255),
    (IntType::INT64, -1, IntType::INT16, -1),
    (IntType::INT64, -1, IntType::UINT16, 65535),
    (IntType::INT64, -1, IntType::INT32, -1),
    (IntType::INT64, -1, IntType::UINT32, 4294967295),
    (IntType::INT64, -1, IntType::INT64, -1),
    (IntType::INT64, -1, IntType::UINT64, -1),
    (IntType::UINT64, -9223231297218903936, IntType::INT8, -128),
    (IntType::UINT64, -9223231297218903936, IntType::UINT8, 128),
    (
        IntType::UINT64,
        -9223231297218903936,
        IntType::INT16,
        -32640,
    ),
    (
        IntType::UINT64,
        -9223231297218903936,
        IntType::UINT16,
        32896,
    ),
    (
        IntType::UINT64,
        -9223231297218903936,
        IntType::INT32,
        -2147450752,
    ),
    (
        IntType::UINT64,
        -9223231297218903936,
        IntType::UINT32,
        2147516544,
    ),
    (
        IntType::UINT64,
        -9223231297218903936,
        IntType::INT64,
        -9223231297218903936,
    ),
    (
        IntType::UINT64,
        -9223231297218903936,
        IntType::UINT64,
        -9223231297218903936,
    ),
];

#[test]
fn conversions(rt: HostRuntime) {
    for (from, value, to, converted) in CONVERSIONS {
        assert_eq!(rt;
            convert(value.cast_unsigned(), from, to),
            converted.cast_unsigned()
        );
    }
}

const OPPOSITES: [(IntType, i64, i64, i64); 10] = [
    (IntType::INT8, -128, -128, 127),
    (IntType::UINT8, 1, 255, 254),
    (IntType::INT16, -32768, -32768, 32767),
    (IntType::UINT16, 1, 65535, 65534),
    (IntType::INT32, -2147483648, -2147483648, 2147483647),
    (IntType::INT32, 5, -5, -6),
    (IntType::UINT32, 1, 4294967295, 4294967294),
    (IntType::INT64, i64::MIN, i64::MIN, i64::MAX),
    (IntType::INT64, 5, -5, -6),
    (IntType::UINT64, 1, -1, -2),
];

#[test]
fn opposites_and_complements(rt: HostRuntime) {
    for (t, a, negated, complemented) in OPPOSITES {
        assert_eq!(rt; negate(t, a.cast_unsigned()), negated.cast_unsigned());
        assert_eq!(rt;
            complement(t, a.cast_unsigned()),
            complemented.cast_unsigned()
        );
    }
}

const TYPES: [IntType; 4] = [
    IntType::INT32,
    IntType::UINT32,
    IntType::INT64,
    IntType::UINT64,
];

const SMALL: [IntType; 4] = [
    IntType::INT8,
    IntType::UINT8,
    IntType::INT16,
    IntType::UINT16,
];

// Whether the later of two types is what they have in common, and small ones count as INT32.
fn have_in_common(i: usize, j: usize) -> bool
    requires i { i < 4 }
    requires j { j < 4 }
{
    common(TYPES[i], TYPES[j]) == TYPES[i.max(j)]
        && common(SMALL[i], TYPES[j]) == TYPES[j]
        && common(SMALL[i], SMALL[j]) == IntType::INT32
}

#[test]
fn common_types(rt: HostRuntime) {
    for i in 0..4 {
        assert!(rt; promotion_of(SMALL[i]) == IntType::INT32 && promotion_of(TYPES[i]) == TYPES[i]);
        for j in 0..4 {
            assert!(rt; have_in_common(i, j), "{i} {j}");
        }
    }
}

const MINUS_ONE: u64 = u64::MAX;

const COMPARED: [(IntType, u64, u64, Ordering); 5] = [
    (IntType::INT32, MINUS_ONE, 1, Ordering::Less),
    (IntType::UINT64, MINUS_ONE, 1, Ordering::Greater),
    (IntType::INT64, 1 << 63, 0, Ordering::Less),
    (IntType::UINT64, 1 << 63, 0, Ordering::Greater),
    (IntType::INT8, 7, 7, Ordering::Equal),
];

#[test]
fn comparisons(rt: HostRuntime) {
    for (t, a, b, order) in COMPARED {
        assert!(rt; compare(t, a, b) == order, "{t:?} {a} {b}");
    }
}

// Operators, and whether they hold of less, of the same and of more.
const HOLD: [(ComparisonOperator, [bool; 3]); 6] = [
    (ComparisonOperator::Less, [true, false, false]),
    (ComparisonOperator::LessEqual, [true, true, false]),
    (ComparisonOperator::Greater, [false, false, true]),
    (ComparisonOperator::GreaterEqual, [false, true, true]),
    (ComparisonOperator::Equal, [false, true, false]),
    (ComparisonOperator::NotEqual, [true, false, true]),
];

#[test]
fn operators_hold(rt: HostRuntime) {
    for (op, wanted) in HOLD {
        let found = [
            op.holds(Ordering::Less),
            op.holds(Ordering::Equal),
            op.holds(Ordering::Greater),
        ];
        assert!(rt; found == wanted, "{op:?}");
    }
}
