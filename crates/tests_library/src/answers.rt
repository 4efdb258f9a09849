//! What is found beside what is wanted.
use std::fmt::Debug;
use std::process::Abort;

/// Ends the test if two values differ, and says both, and what they are of.
pub(crate) fn assert_same<T: PartialEq + Debug>(rt: &impl Abort, found: &T, wanted: &T, of: &str) {
    assert!(rt; found == wanted, "{found:?} is not {wanted:?}, at {of}");
}
