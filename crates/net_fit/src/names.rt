//! What a net says without its programs: which words of its row are read, and which files.
ghost use Rattle.std.specs.Prelude.{◌≡◌, ◌≤◌, length, IfErr, OnOk};
ghost use Rattle.std.specs.List.{list_any, range_with_len};
ghost use Rattle.fault_order.specs.Ranked.{IsClear, IsFirst};
ghost use Rattle.fault_order.specs.Rules.{faults, each, each_from};
ghost use Rattle.fault_order.specs.Private.FirstMet.{first, first_in};
ghost use Rattle.net_fit.specs.Joints.{is_input};
ghost use Rattle.net_fit.specs.Names as rule;
ghost use Rattle.net_fit.specs.Names.{name_rules};

use crate::wires;
use net_core::{NetFault, NetFile, NetProc, Wire};

/// Whether one of the wires brings the word of the net's row.
fn is_among(wires: &[Wire], word: u8) -> bool
    ensures { result ≡ list_any (is_input word) wires.now }
{
    wires.iter().any(|wire| wires::is_input(word, *wire))
}

/// Whether a processor reads the word of the net's row.
fn is_read(procs: &[NetProc], word: u8) -> bool
    ensures { result ≡ rule.is_read procs.now word }
{
    procs
        .iter()
        .any(|proc| is_among(proc.feed.as_slice(), word))
}

/// `Unfed` where no processor reads a word of the net's row.
fn check_read(net: &NetFile) -> Result<(), NetFault>
    ensures { result ≡ first_in (each (rule.read_rule net.now.procs) (range_with_len 0 net.now.inputs)) }
{
    for word in 0..net.inputs {
        if !is_read(net.procs.as_slice(), word) {
            return Err(NetFault::Unfed(word));
        }
    }
    Ok(())
}

/// Whether a file of the processor has this name.
fn has_file(proc: &NetProc, name: &str) -> bool
    ensures { result ≡ rule.has_file name.now proc.now }
{
    proc.src.as_slice() == name.as_bytes() || proc.dp.as_slice() == name.as_bytes()
}

/// `Overwrites` where a file of a processor has the name of the output.
fn check_output(procs: &[NetProc], output: &str) -> Result<(), NetFault>
    requires { length procs.now ≤ 8 }
    ensures { result ≡ first_in (each_from (rule.output_rule output.now) 0 procs.now) }
{
    for (p, proc) in procs.iter().enumerate() {
        if has_file(proc, output) {
            return Err(NetFault::Overwrites(p as u8));
        }
    }
    Ok(())
}

/// Each of them in order.
fn check_in_order(net: &NetFile, output: &str) -> Result<(), NetFault>
    requires { length net.now.procs ≤ 8 }
    ensures { result ≡ first (name_rules net.now output.now) }
{
    check_read(net)?;
    check_output(net.procs.as_slice(), output)
}

/// Checks that each word of the net's row is read, and that the output has the name of no file of a processor.
///
/// # Errors
///
/// `Unfed` with the least word that no processor reads; else `Overwrites` with the first processor that has the file.
pub fn check_names(net: &NetFile, output: &str) -> Result<(), NetFault>
    requires { length net.now.procs ≤ 8 }
    ensures ok { OnOk result (IsClear (faults (name_rules net.now output.now))) }
    ensures err { IfErr result (IsFirst (faults (name_rules net.now output.now))) }
{
    check_in_order(net, output)
}
