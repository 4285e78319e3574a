//! The services of `stdio`.

ghost use Rattle.std.specs.Prelude.{◌≡◌, [], ◌∷◌, length};
ghost use Rattle.iop_base.specs.Output.{Gives};
ghost use Rattle.iop_base.specs.Piece.{Told};
ghost use Rattle.iop_libs.specs.Calls.{Sight, text_of, serves_stdio, stdio_pieces};

use arrayvec::ArrayVec;
use iop_base::Lines;
use iop_exec::Cpu;
use iop_printf::format;
use iop_services::StdioService;
use iop_stubs::Guest;

/// The number of `$sp`.
const STACK_POINTER: usize = 29;

/// Prints the text of the format at `$a0`, with the arguments behind it, and answers how many bytes
/// the text has.
pub(crate) fn print<L: Lines>(cpu: &Cpu, guest: &Guest, lines: &mut L) -> u32
    ensures length { let s : Sight = record { memory = guest.now; cpu = cpu.now } in
        result ≡ length (text_of s) }
    ensures lines { let s : Sight = record { memory = guest.now; cpu = cpu.now } in
        Gives (L.output lines.old) (L.output lines.new) (Told (text_of s) ∷ []) }
{
    let arguments = [cpu.regs[5], cpu.regs[6], cpu.regs[7]];
    let mut text = ArrayVec::new();
    format(
        guest.ram(),
        cpu.regs[4],
        arguments,
        cpu.regs[STACK_POINTER],
        &mut text,
    );
    lines.text(&text);
    text.len() as u32
}

/// Does what a service of `stdio` does, and answers the word of `$v0`. The arguments of a format
/// stand in `$a1` to `$a3` of the processor, and go on in the words from 16(`$sp`) on.
pub fn serve_stdio<L: Lines>(service: StdioService, cpu: &Cpu, guest: &Guest, lines: &mut L) -> u32
    ensures answer { let s : Sight = record { memory = guest.now; cpu = cpu.now } in
        result ≡ serves_stdio s service }
    ensures lines { let s : Sight = record { memory = guest.now; cpu = cpu.now } in
        Gives (L.output lines.old) (L.output lines.new) (stdio_pieces s service) }
{
    match service {
        StdioService::Printf => print(cpu, guest, lines),
    }
}
