//! The causes of faults.

use sections::id::ArrayId;
use sections::window::Window;
use types::code::Operator;

/// The values that cause a fault. If a statement has several elements or operators, `nth` is the
/// number of the one at fault, from 0 in the order of the text.
#[derive(Clone, Copy, PartialEq, Eq, Debug)]
pub enum Cause {
    /// `a[5]`, where `a` has 3 elements.
    Index {
        nth: usize,
        index: i64,
        window: Window,
    },
    /// `x + 1`, where `x` is 9223372036854775807.
    Overflow {
        nth: usize,
        left: i64,
        operator: Operator,
        right: i64,
    },
    /// `-x`, where `x` is -9223372036854775808.
    Negative {
        nth: usize,
    },
    /// `x / 0` or `x % 0`.
    ZeroDivisor {
        nth: usize,
        left: i64,
        operator: Operator,
    },
    /// `b[0] = 256;`, where `b` is an array of bytes.
    OutOfElement {
        array: ArrayId,
        value: i64,
    },
    /// `split s at 4 as l, r { }`, where `s` has 3 elements.
    SplitPoint {
        point: i64,
        length: usize,
    },
    /// `parts s by 0 as p, i { }`
    PieceSize {
        size: i64,
    },
    /// `fault 3;`
    Raised(i64),
}
