//! The request `--version`: the version of the program.
ghost use Rattle.std.specs.Prelude.{IfErr, OnOk};
ghost use Rattle.hunk_store.specs.Output.{IsPrinted, IsUnprinted, printed_of};
ghost use Rattle.hunk_commands.specs.Version.{version_line};

use crate::devices::print;
use hunk_store::{Failure, Output};

/// The version of the program, which is that of the newest entry of CHANGELOG.md.
pub const VERSION: &str = "0.1.0";

/// The name of the program and [`VERSION`], in a line.
const LINE: &[u8] = b"amihunk 0.1.0\n";

/// Prints the name of the program and its version, in a line.
///
/// # Errors
///
/// [`Failure::Printing`] if the output did not take or pass on all of the line.
pub fn print_version<'a, O: Output>(output: &mut O) -> Result<(), Failure<'a>>
    ensures ok { OnOk result
        (IsPrinted version_line (printed_of O.taken O.failed O.waiting output.old output.new)) }
    ensures err { IfErr result
        (IsUnprinted (printed_of O.taken O.failed O.waiting output.old output.new)) }
{
    print(output, LINE)
}
