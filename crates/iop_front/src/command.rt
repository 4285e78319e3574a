ghost use Rattle.std.specs.Prelude.{◌≡◌, ◌≢◌, Some, None, map, string_bytes};
ghost use Rattle.iop_options.specs.Commands.{Command, command_of};
ghost use Rattle.iop_front.specs.Answers.{outside};
ghost use Rattle.iop_front.specs.Headline.{Headline};
ghost use Rattle.iop_front.specs.Promises.{Promises};

use crate::answering::answer;
use crate::laws;
use iop_ports::{Files, Keep, Sink};
use std::alloc::Global;

/// The command `iop`: opens and reads the files that its words name (`parse_options`), a script's
/// first; loads the modules one after the other, or the generated one, links them to the registered
/// libraries and runs them, as the script says, by no more instructions than the budget. It writes
/// the lines of the run to the trace, with a dump of memory behind the last, and the modules' texts
/// to the console, and answers the exit status (`Status::code`). Behind a run that its budget ended
/// at a moment below 2^63 + 2^62 it writes a snapshot of the machine to the keep, where one is asked
/// for (`--save`). Or it goes on from the file of such a snapshot (`--restore`), and reads no other
/// file.
///
/// The words are without the program's name. The first file that cannot be read, or is too long, or
/// a bad line of the script, or a file that is no snapshot, decides, and no later file is opened. At
/// most one byte more of each is read than it may have, which is 4,194,304 bytes, and
/// `LONGEST_SNAPSHOT` of a snapshot.
///
/// What it writes and answers is the outcome of what was read (`Promises`); and that is the outcome
/// of one run, of which the headline holds (`Headline`): how its modules link, where its stubs go,
/// how its threads are switched.
pub fn iop_main<F: Files, K: Keep, C: Sink, T: Sink>(
    alloc: Global,
    words: &[String],
    files: &mut F,
    keep: &mut K,
    console: &mut C,
    trace: &mut T,
) -> u8
    ensures promises { let seen = outside F.told F.faults K.told C.told T.told in
        Promises (command_of (map string_bytes words.now)) result
        (seen files.old keep.old console.old trace.old)
        (seen files.new keep.new console.new trace.new) }
    // Where the words are no command no file is opened.
    ensures untouched { command_of (map string_bytes words.now) ≡ None → files.new ≡ files.old }
    // Nor is a file created; and none is where the words ask for none, or where the status is
    // neither 10 nor 24.
    ensures unkept { command_of (map string_bytes words.now) ≡ None → keep.new ≡ keep.old }
    ensures unsaved { (command : Command) → command_of (map string_bytes words.now) ≡ Some command
        → command.save ≡ None → keep.new ≡ keep.old }
    ensures ended { result ≢ 10 → result ≢ 24 → keep.new ≡ keep.old }
    // What holds of the run whose outcome a command's is.
    ensures headline { Headline }
{
    laws::headline();
    answer(alloc, words, files, keep, console, trace).code()
}
