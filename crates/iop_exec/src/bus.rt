ghost use Rattle.std.specs.Prelude.{◌≡◌, ◌↔◌, ℕ, List, Some, None, OnOk, OnErr, IsErr};
ghost use Rattle.std.specs.Option.{ok_or};
ghost use Rattle.iop_base.specs.Places.{load_at, store_at};
ghost use Rattle.iop_base.specs.declared.width.Width.{Width};
ghost use Rattle.iop_base.specs.declared.width.Width.TheVariants.{Word};

use iop_base::{Bad, Width};

/// What a processor reads its instructions and data from, and stores into.
///
/// An access is `Bad` at an address that is not a multiple of its width, or not wholly in RAM. The
/// clauses write that value `record {}`.
pub trait Bus {
    /// The bytes of RAM that it reads.
    ghost bytes: { Self → List ℕ };

    /// Whether the store of a value's low bytes at an address may take the first bus to the second.
    ghost stores: { Self → ℕ → Width → ℕ → Self → Type 0 };

    /// Reads the word of an instruction. `Bad` as for a load of a word.
    fn fetch(&self, at: u32) -> Result<u32, Bad>
        ensures { result ≡ ok_or (load_at (bytes self.now) at Word) (record {}) };

    /// Reads the unsigned number at an address.
    fn load(&self, at: u32, width: Width) -> Result<u32, Bad>
        ensures { result ≡ ok_or (load_at (bytes self.now) at width) (record {}) };

    /// Stores the low bytes of `value`. A store that is refused changes nothing.
    fn store(&mut self, at: u32, width: Width, value: u32) -> Result<(), Bad>
        ensures stores { OnOk result (stores self.old at width value self.new) }
        ensures bytes { OnOk result
            (store_at (bytes self.old) at width value ≡ Some (bytes self.new)) }
        ensures bad { IsErr result ↔ (store_at (bytes self.old) at width value ≡ None) }
        ensures unchanged { OnErr result (self.new ≡ self.old) };
}
