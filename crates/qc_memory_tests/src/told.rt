//! What tests say of what they got.

ghost use Rattle.std.specs.Prelude.{◌≡◌, Ok};

use std::fmt::Debug;
use std::process::Abort;

/// The value of an answer that has to be `Ok`.
pub fn must<T, E: Debug + Drop>(rt: &impl Abort, answer: Result<T, E>) -> T
    ensures { answer ≡ Ok result }
{
    match answer {
        Ok(value) => value,
        Err(error) => panic!(rt; "{error:?}"),
    }
}

/// Asserts that the two are the same.
pub fn same<T: PartialEq + Debug + Drop>(rt: &impl Abort, got: T, wanted: T) {
    assert_eq!(rt; got, wanted);
}
