//! The modules that a command has loaded: those of its files, or the generated one.

ghost use Rattle.std.specs.Prelude.{◌≡◌, ◌≤◌, All, IfOk, IfSome, length};
ghost use Rattle.iop_base.specs.declared.limits.TheConstants.{MOST_WORKERS};
ghost use Rattle.iop_front.specs.Inputs.{IsShort};
ghost use Rattle.iop_front.specs.Outcome.{generated_module, modules_to_load};
ghost use Rattle.iop_script.specs.declared.statements.TheConstants.{MOST_MODULES};

use iop_generator::generate;
use iop_machine::Module;
use std::alloc::{AllocError, Global};

/// Makes the generated module with so many workers.
fn generated_module(alloc: Global, workers: u32) -> Result<Module, AllocError>
    requires some { 1 ≤ workers }
    requires few { workers ≤ MOST_WORKERS }
    ensures module { IfOk result (λ made. made ≡ generated_module workers) }
    ensures short { IfOk result IsShort }
{
    Ok(Module {
        name: String::from_str(alloc, "generated")?,
        file: generate(alloc, workers)?,
    })
}

/// Gives the modules that the machine is to load: those that were read, or the generated one.
/// `AllocError` stands for want of memory for that one.
pub(crate) fn modules_to_load(
    alloc: Global,
    workers: Option<u32>,
    read: Vec<Module>,
) -> Result<Vec<Module>, AllocError>
    requires workers { IfSome workers (λ count. (1 ≤ count) × (count ≤ MOST_WORKERS)) }
    requires few { length read.items ≤ MOST_MODULES }
    requires short { All IsShort read.items }
    ensures modules { IfOk result (λ modules. modules.items ≡ modules_to_load workers read.items) }
    ensures few { IfOk result (λ modules. length modules.items ≤ MOST_MODULES) }
    ensures short { IfOk result (λ modules. All IsShort modules.items) }
{
    match workers {
        Some(count) => Ok(vec![in alloc; generated_module(alloc, count)?]?),
        None => Ok(read),
    }
}
