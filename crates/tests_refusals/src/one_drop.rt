/// A value that is dropped by one call: so for a proof each early end of a function costs one call, and
/// not one for each part of the value.
pub struct OneDrop<T>(pub T);

impl<T: Drop> Drop for OneDrop<T> {
    fn drop(self) {
        let OneDrop(_) = self;
    }
}

impl<T: Drop> OneDrop<T> {
    /// The value.
    pub fn value(self) -> T {
        let OneDrop(value) = self;
        value
    }
}
