ghost use Rattle.std.specs.Prelude.{◌≡◌, Bool};

/// A condition on the items of a queue.
pub trait Condition<T> {
    /// Whether it holds.
    ghost holds_for: { Self → T → Bool };

    /// Says whether it holds.
    fn holds(&self, item: &T) -> bool
        ensures { result ≡ holds_for self.now item.now };
}
