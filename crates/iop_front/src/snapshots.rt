//! The snapshot from which a run goes on.

ghost use Rattle.std.specs.Prelude.{◌≡◌, ◌<◌, ◌++◌, All, IfOk, MatchResult, OnOk, length};
ghost use Rattle.iop_base.specs.Numbers.{IsByte};
ghost use Rattle.iop_machine.specs.Standing.{StandsForWorld, IsSoundMachine};
ghost use Rattle.iop_machine.specs.Restoring.{iop_in};
ghost use Rattle.iop_machine.specs.World.{booted};
ghost use Rattle.iop_saved_machine.specs.Back.{MachineState};
ghost use Rattle.iop_front.specs.Inputs.{seen};
ghost use Rattle.iop_front.specs.Snapshots.{HasFile, HasRestored, HasNotRestored};

use crate::unrestored::Unrestored;
use iop_machine::Machine;
use iop_ports::Files;
use std::alloc::{AllocError, Global};

/// How many bytes the file of a snapshot may have.
pub const LONGEST_SNAPSHOT: u32 = 301_989_888;

/// How many bytes of it are read at most: one more than it may have shows that it is too long.
const READ_LIMIT: usize = LONGEST_SNAPSHOT as usize + 1;

/// How many bytes are read at once.
const PIECE: usize = 0x10_0000;

/// Appends a piece to what was read.
fn append(bytes: &mut Vec<u8>, piece: &[u8]) -> Result<(), AllocError>
    ensures items { OnOk result (bytes.new.items ≡ bytes.old.items ++ piece.now) }
    ensures bytes { All IsByte piece.now }
{
    bytes.extend_from_slice(piece)
}

/// Reads the file of a snapshot through a buffer, piece by piece, since it is mostly much shorter
/// than it may be.
fn read_pieces<F: Files>(
    alloc: Global,
    name: &str,
    piece: &mut [u8],
    files: &mut F,
) -> Result<Vec<u8>, Unrestored>
    requires { 0 < length piece.old }
    ensures { MatchResult result
        (λ bytes. HasFile name.now bytes.items
        (seen F.told F.faults files.old) (seen F.told F.faults files.new))
        (λ fault. HasNotRestored name.now fault
        (seen F.told F.faults files.old) (seen F.told F.faults files.new)) }
{
    files.open_file(name)?;
    let mut bytes = Vec::new(alloc);
    loop {
        let most = piece.len().min(READ_LIMIT - bytes.len());
        let n = files.read(&mut piece[..most])?;
        if n == 0 {
            break;
        }
        append(&mut bytes, &piece[..n])?;
    }
    if bytes.len() > LONGEST_SNAPSHOT as usize {
        return Err(Unrestored::TooLong);
    }
    Ok(bytes)
}

/// Reads the file of a snapshot.
fn read_snapshot<F: Files>(alloc: Global, name: &str, files: &mut F) -> Result<Vec<u8>, Unrestored>
    ensures { MatchResult result
        (λ bytes. HasFile name.now bytes.items
        (seen F.told F.faults files.old) (seen F.told F.faults files.new))
        (λ fault. HasNotRestored name.now fault
        (seen F.told F.faults files.old) (seen F.told F.faults files.new)) }
{
    let mut piece = vec![in alloc; 0; PIECE]?;
    read_pieces(alloc, name, &mut piece, files)
}

/// Puts a machine back from the file of a snapshot.
pub(crate) fn restore<F: Files>(
    alloc: Global,
    name: &str,
    files: &mut F,
) -> Result<Machine, Unrestored>
    ensures read { MatchResult result
        (λ machine. (m : MachineState) × StandsForWorld machine (booted (iop_in m))
        × HasRestored name.now m (seen F.told F.faults files.old) (seen F.told F.faults files.new))
        (λ fault. HasNotRestored name.now fault
        (seen F.told F.faults files.old) (seen F.told F.faults files.new)) }
    ensures sound { IfOk result IsSoundMachine }
{
    let bytes = read_snapshot(alloc, name, files)?;
    Ok(Machine::restore(alloc, &bytes)?)
}
