//! What a test wants. A call costs less proof than the macro in its place.
ghost use Rattle.std.specs.Prelude.{IsTrue};

use std::fmt::Debug;
use std::process::Abort;

/// Stops the test where two values differ, and shows both.
pub fn equal<T: PartialEq + Debug + Drop>(rt: &impl Abort, came: T, wanted: T) {
    assert_eq!(rt; came, wanted);
}

/// Stops the test where what it wants doesn't hold.
pub fn holds(rt: &impl Abort, wanted: bool)
    ensures { IsTrue wanted }
{
    assert!(rt; wanted);
}
