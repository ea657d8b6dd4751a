//! All rounds of a net.
ghost use Rattle.std.specs.Prelude.{◌≡◌, List as Listed, true, IfOk};
ghost use Rattle.lists.specs.Rows.{Rows};
ghost use Rattle.net_run.specs.Runs.{IsRunOver};
ghost use Rattle.net_solution.specs.RowLists.{IsRowList};
ghost use Rattle.net_solution.specs.Solutions.{IsNetSolution, AreParts, parts_given};
ghost use Rattle.net_turns.specs.Turns.{is_finished};
ghost use Rattle.proc_net.specs.Nets.{parts_of, shape_in, points_of, IsNetAt};

use crate::texts::text_of;
use lists::Bytes;
use proc_net::{Images, Net, NetFile, NetRunFault, RowList};
use std::alloc::Global;

/// A net that has run all its samples.
#[derive(Drop)]
pub struct RanNet {
    pub net: Net,
    /// The net's rows, as they are printed.
    pub text: Bytes,
}

/// Runs all samples, each processor's as a whole where it can: no order of turns changes a row.
fn run_all(net: &mut Net)
    ensures parts { parts_of net.new ≡ parts_of net.old }
    ensures finished { is_finished (shape_in net.new) (points_of net.new) ≡ true }
    ensures at { (puts : Listed Rows) → IsNetSolution (parts_of net.new) puts → IsNetAt net.new puts }
{
    'rounds: while net.samples() || net.round() {}
}

/// Runs a net of these images over the rows of the list. What is asked is what `Net::new` asks.
///
/// # Errors
///
/// `Memory` where no memory is left.
pub fn run_net(
    alloc: Global,
    images: Images,
    file: &NetFile,
    rows: RowList,
) -> Result<RanNet, NetRunFault>
    requires rows { IsRowList rows }
    requires parts { AreParts (parts_given images file.now rows) }
    ensures { IfOk result (λ ran. IsRunOver (parts_given images file.now rows) ran.net ran.text) }
{
    let mut net = Net::new(alloc, images, file, rows)?;
    run_all(&mut net);
    let text = text_of(alloc, &net)?;
    Ok(RanNet { net, text })
}
