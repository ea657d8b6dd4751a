//! Whether the microwords of an image are those of a datapath.

ghost use Rattle.std.specs.Prelude.{◌≤◌, Contains, IsTrue, OnOk};
ghost use Rattle.std.specs.List.{All};
ghost use Rattle.fix_word.specs.Words.{IsWidth};
ghost use Rattle.image_fit.specs.Fits.{IsIssueWithin, IsDriveOn, IsTakeOn, IsWordOn};

use crate::starts::is_within;
use crate::unfit::Unfit;
use datapath::{Datapath, PortRef};
use fix_word::Op;
use micro_image::{Enable, Issue, Take, Word};

fn is_issue_within(issue: &Issue, bits: u8) -> bool
    requires { IsWidth bits }
    ensures { IsTrue result → IsIssueWithin bits issue.now }
{
    match issue.op {
        Op::Const => issue.fmt.width <= bits && is_within(issue.arg, bits),
        _ => issue.fmt.width <= bits,
    }
}

fn has_unit(units: &[u8], unit: u8) -> bool
    ensures { IsTrue result → Contains units.now unit }
{
    units.contains(&unit)
}

fn has_port(ports: &[PortRef], port: PortRef) -> bool
    ensures { IsTrue result → Contains ports.now port }
{
    ports.contains(&port)
}

fn is_drive_on(path: &Datapath, enable: &Enable) -> bool
    ensures { IsTrue result → IsDriveOn path.now enable.now }
{
    let bus = usize::from(enable.bus);
    bus < path.buses.len() && has_unit(&path.buses[bus].from, enable.unit)
}

fn is_take_on(path: &Datapath, take: &Take) -> bool
    ensures { IsTrue result → IsTakeOn path.now take.now }
{
    let bus = usize::from(take.bus);
    bus < path.buses.len() && has_port(&path.buses[bus].to, take.port)
}

fn check_issues(word: &Word, number: usize, bits: u8) -> Result<(), Unfit>
    requires { IsWidth bits }
    ensures { OnOk result (All (IsIssueWithin bits) word.now.issues) }
{
    for issue in word.issues.iter() {
        if !is_issue_within(issue, bits) {
            return Err(Unfit::Wide {
                word: number,
                unit: issue.unit,
            });
        }
    }
    Ok(())
}

fn check_drives(path: &Datapath, word: &Word, number: usize) -> Result<(), Unfit>
    ensures { OnOk result (All (IsDriveOn path.now) word.now.enables) }
{
    for enable in word.enables.iter() {
        if !is_drive_on(path, enable) {
            return Err(Unfit::Drive {
                word: number,
                unit: enable.unit,
                bus: enable.bus,
            });
        }
    }
    Ok(())
}

fn check_takes(path: &Datapath, word: &Word, number: usize) -> Result<(), Unfit>
    ensures { OnOk result (All (IsTakeOn path.now) word.now.takes) }
{
    for take in word.takes.iter() {
        if !is_take_on(path, take) {
            return Err(Unfit::Take {
                word: number,
                unit: take.port.unit,
                port: take.port.port,
                bus: take.bus,
            });
        }
    }
    Ok(())
}

fn check_word(path: &Datapath, word: &Word, number: usize) -> Result<(), Unfit>
    requires { IsWidth path.now.word }
    ensures { OnOk result (IsWordOn path.now word.now) }
{
    check_issues(word, number, path.word)?;
    check_drives(path, word, number)?;
    check_takes(path, word, number)?;
    Ok(())
}

/// Checks the microwords.
pub fn check_words(path: &Datapath, words: &[Word]) -> Result<(), Unfit>
    requires { IsWidth path.now.word }
    ensures { OnOk result (All (IsWordOn path.now) words.now) }
{
    for (number, word) in words.iter().enumerate() {
        check_word(path, word, number)?;
    }
    Ok(())
}
