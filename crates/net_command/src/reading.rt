//! NET, and the files that it names.
ghost use Rattle.std.specs.Prelude.{◌≡◌, ◌<◌, [], ◌∷◌, ◌++◌, length, IfOk, IfErr, OnOk, IsUtf8};
ghost use Rattle.std.specs.List.{All, AllZip};
ghost use Rattle.desk_core.specs.Desk.{WhereSpecified, content_of};
ghost use Rattle.desk_core.specs.Whole.{IsReadThrough};
ghost use Rattle.net_command.specs.Net.{IsLastPathRead};
ghost use Rattle.net_command.specs.Nets.{HasNamedNet};
ghost use Rattle.net_command.specs.Processors.{files_of, names_of};
ghost use Rattle.net_command.specs.Private.Prepared.{HasInputs};
ghost use Rattle.net_command.specs.Private.Reading.{IsNoNet, IsNetUnreadable, AreUnreadable};
ghost use Rattle.net_file.specs.Described.{HasTexts};
ghost use Rattle.silc_files.specs.Endings.{IsAmong};
ghost use Rattle.silc_files.specs.Limits.{text_limit};
ghost use Rattle.silc_files.specs.Reading.{OnlyReads};

use desk_core::Desk;
use lists::{Bytes, List, Name};
use net_core::{NetFault, NetFile, NetProc};
use net_file::read_net;
use net_fit::check_names;
use plan_commands::{Inputs, read_inputs};
use silc_files::read_file;
use statuses::Status;
use std::alloc::{AllocError, Global};

/// The most bytes of NET.
const NET_LIMIT: u64 = 1 << 20;

/// The net of the text, whose words are all read, and of which no file has the name of the output.
fn net_in(alloc: Global, text: &Bytes, output: &str) -> Result<NetFile, Status>
    ensures ok { IfOk result (HasNamedNet text.now output.now) }
    ensures texts { IfOk result (λ file. All HasTexts file.procs) }
    ensures err { IfErr result (IsNoNet text.now output.now) }
{
    let file = read_net(alloc, text.as_slice())?;
    check_names(&file, output)?;
    Ok(file)
}

/// Reads NET.
pub(crate) fn read_net_file<D: Desk>(
    alloc: Global,
    desk: &mut D,
    net: &str,
    output: &str,
) -> Result<NetFile, Status>
    ensures reads { OnlyReads (IsAmong (net.now ∷ [])) (D.view desk.old) (D.view desk.new) }
    ensures ok { IfOk result (λ file.
        WhereSpecified (D.view desk.old) (λ files. HasNamedNet (content_of (files net.now)) output.now file)) }
    ensures text { IfOk result (λ file. (text : _) × HasNamedNet text output.now file) }
    ensures texts { IfOk result (λ file. All HasTexts file.procs) }
    ensures err { IfErr result (IsNetUnreadable net.now output.now (D.view desk.old) (D.view desk.new)) }
{
    let too_long = Status::Net(NetFault::TooLong);
    let text = read_file(alloc, desk, net, NET_LIMIT, too_long)?;
    net_in(alloc, &text, output)
}

/// The name of a file.
fn name_of(name: &Name) -> &str
    requires { IsUtf8 name.now }
    ensures { result.now ≡ name.now }
{
    str::from_utf8(name.as_slice()).unwrap()
}

/// Reads the files of a processor.
fn read_one<D: Desk>(alloc: Global, desk: &mut D, proc: &NetProc) -> Result<Inputs, Status>
    requires { HasTexts proc.now }
    ensures reads { OnlyReads (IsAmong (proc.now.src ∷ proc.now.dp ∷ [])) (D.view desk.old) (D.view desk.new) }
    ensures ok { IfOk result (λ inputs. WhereSpecified (D.view desk.old) (λ files.
        AllZip HasInputs (files_of files (proc.now ∷ [])) (inputs ∷ []))) }
    ensures through { OnOk result (IsReadThrough proc.now.dp text_limit (D.view desk.old) (D.view desk.new)) }
    ensures err { IfErr result (AreUnreadable (proc.now.src ∷ proc.now.dp ∷ []) (D.view desk.old) (D.view desk.new)) }
{
    read_inputs(alloc, desk, name_of(&proc.src), name_of(&proc.dp))
}

/// Adds the files of a processor.
fn push(all: &mut List<Inputs>, inputs: Inputs) -> Result<(), AllocError>
    ensures { OnOk result (all.new ≡ all.old ++ inputs ∷ []) }
{
    all.push(inputs)?;
    Ok(())
}

/// Reads the files of all processors.
pub(crate) fn read_all<D: Desk>(
    alloc: Global,
    desk: &mut D,
    procs: &[NetProc],
) -> Result<List<Inputs>, Status>
    requires { All HasTexts procs.now }
    ensures reads { OnlyReads (IsAmong (names_of procs.now)) (D.view desk.old) (D.view desk.new) }
    ensures ok { IfOk result (λ inputs. WhereSpecified (D.view desk.old) (λ files.
        AllZip HasInputs (files_of files procs.now) inputs)) }
    ensures count { IfOk result (λ inputs. length inputs ≡ length procs.now) }
    ensures through { OnOk result (0 < length procs.now
        → IsLastPathRead procs.now (D.view desk.old) (D.view desk.new)) }
    ensures err { IfErr result (AreUnreadable (names_of procs.now) (D.view desk.old) (D.view desk.new)) }
{
    let mut all = List::new(alloc);
    for proc in procs {
        push(&mut all, read_one(alloc, desk, proc)?)?;
    }
    Ok(all)
}
