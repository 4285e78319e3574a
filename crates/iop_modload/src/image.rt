/// An image that can be written into memory for a place.
///
/// What writes it by a closure is generic over it: of a captured value whose type has a lifetime,
/// nothing that the closure did with it would be known.
pub(crate) trait Image {
    ghost use Rattle.std.specs.Prelude.{◌≡◌, ℕ, List, length};

    /// How many bytes it takes.
    ghost length_of: { Self → ℕ };

    /// Its bytes for an address.
    ghost image_for: { Self → ℕ → List ℕ };

    /// Writes it into memory of its length, for the address `base`.
    fn write(&self, memory: &mut [u8], base: u32)
        requires { length memory.old ≡ length_of self.now }
        ensures { memory.new ≡ image_for self.now base };
}
