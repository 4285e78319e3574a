//! Facts about the definitions that no call computes. Each is the contract of a function that does
//! nothing.

ghost use Rattle.iop_registry.specs.Laws.{RegistriesArePutBack};

/// The libraries of a registry, put back in their order from the empty one on, are all accepted,
/// and give that registry again.
pub fn registries_are_put_back()
    ensures { RegistriesArePutBack }
{}
