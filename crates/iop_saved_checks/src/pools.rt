//! Pools of memory, inside of RAM.

ghost use Rattle.std.specs.Prelude.{◌≡◌, ◌*◌, ◌^◌, ◌<◌, List, length, option_map, slice_get};
ghost use Rattle.std.specs.List.{list_all};
ghost use Rattle.iop_kernel.specs.Standing.{Holds};
ghost use Rattle.iop_kernel.specs.System.{Kernel as State};
ghost use Rattle.iop_pools.specs.Pools.{Pool};
ghost use Rattle.iop_saved_checks.specs.Made.{is_inside, pools_of, pools_are_inside};

use iop_kernel::Kernel;
use iop_pools::{FixedLayout, FixedPools, VariablePools};
use iop_ram::Ram;
use iop_ready::Ready;

/// A table of pools.
pub(crate) trait Pooled {
    /// Those that are live.
    ghost pools: { Self → List Pool };

    /// Tells how many are live.
    fn len(&self) -> usize
        ensures { result ≡ length (pools self.now) };

    /// Says whether the live one at a place in the order of ids is in this RAM. None
    /// exactly where so many or fewer are live.
    fn is_inside(&self, place: usize, ram: &Ram) -> Option<bool>
        ensures { result ≡ option_map (is_inside (length ram.now)) (slice_get (pools self.now) place) };
}

impl Pooled for VariablePools {
    ghost pools = { λ s. pools_of s };

    fn len(&self) -> usize {
        self.len()
    }

    fn is_inside(&self, place: usize, ram: &Ram) -> Option<bool> {
        let (_, pool) = self.nth(place)?;
        Some(ram.contains(pool.base, pool.size))
    }
}

impl Pooled for FixedPools {
    ghost pools = { λ s. pools_of s };

    fn len(&self) -> usize {
        self.len()
    }

    fn is_inside(&self, place: usize, ram: &Ram) -> Option<bool> {
        // That they have whole blocks, and end below 2^32, is told with how many are live.
        self.len();
        let Some(found) = self.nth(place) else {
            return None;
        };
        Some(ram.contains(found.1.base, bytes_of(found.1)))
    }
}

/// Tells how many bytes the blocks of a fixed pool have.
fn bytes_of(pool: FixedLayout) -> u32
    requires { pool.size * pool.count < 2 ^ 32 }
    ensures { result ≡ pool.size * pool.count }
{
    pool.size * pool.count
}

/// Says whether the pools of a table are in this RAM.
fn are_inside<T: Pooled>(table: &T, ram: &Ram) -> bool
    ensures { result ≡ list_all (is_inside (length ram.now)) (T.pools table.now) }
{
    for place in 0..table.len() {
        let Some(inside) = table.is_inside(place, ram) else {
            return true;
        };
        if !inside {
            return false;
        }
    }
    true
}

/// Says whether the variable and the fixed pools are in this RAM.
#[tactic(auto, unfolding(crate::specs::Made::pools_are_inside))]
pub(crate) fn pools_are_inside<R: Ready>(kernel: &Kernel<R>, ram: &Ram) -> bool
    ensures { (k : State) → Holds R.stands kernel.now k → result ≡ pools_are_inside (length ram.now) k }
{
    are_inside(&kernel.variable_pools, ram) && are_inside(&kernel.fixed_pools, ram)
}
