//! Facts about guest memory that no call computes. Each is the contract of a function that does
//! nothing.

ghost use Rattle.iop_stubs.specs.Laws.{LayersAreSeen, LayersAreFound};
ghost use Rattle.iop_stubs.specs.Laws.{StoresKeepLayers, BindingsKeepLayers, StoresJoin};
ghost use Rattle.iop_stubs.specs.Restoring.{StubsComeBack};

/// Every memory is what is seen of its layers: base, where each live stub reads `jr $ra` and the
/// word of its index, under the jumps of the live stubs.
pub fn layers_are_seen()
    ensures { LayersAreSeen }
{}

/// Sound layers are those of the memory that is seen of them.
pub fn layers_are_found()
    ensures { LayersAreFound }
{}

/// A store changes bytes of base alone, beside the jumps that stay in it where stubs end, and ends
/// exactly the live stubs of which it meets a byte.
pub fn stores_keep_layers()
    ensures { StoresKeepLayers }
{}

/// To bind a stub leaves base as it was, and adds the stub to the live ones.
pub fn bindings_keep_layers()
    ensures { BindingsKeepLayers }
{}

/// Two stores, of which the second begins where the first ends, are the one store of the bytes of
/// both: they leave the same memory, and their lines are those of the one.
pub fn stores_join()
    ensures { StoresJoin }
{}

/// All live stubs of a memory are taken back, in the order of their places, by a memory of the same
/// RAM in which none is live. It is the same memory then.
pub fn stubs_come_back()
    ensures { StubsComeBack }
{}
