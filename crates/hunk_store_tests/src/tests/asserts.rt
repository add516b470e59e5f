//! Assertions as functions. Each of them is proved once, where a macro is proved again at each of its
//! calls.

use std::fmt::Debug;
use std::process::Abort;

/// Both values are equal.
pub(crate) fn equals<T: PartialEq + Debug + Drop>(rt: &impl Abort, got: T, wanted: T) {
    assert_eq!(rt; got, wanted);
}

/// Both values are equal in this row.
pub(crate) fn equals_at<T: PartialEq + Debug + Drop>(
    rt: &impl Abort,
    row: &impl Debug,
    got: T,
    wanted: T,
) {
    assert_eq!(rt; got, wanted, "{row:?}");
}

/// The condition holds in this row.
pub(crate) fn holds(rt: &impl Abort, row: &impl Debug, condition: bool) {
    assert!(rt; condition, "assertion failed: {row:?}");
}
