//! The text of a net's rows.
ghost use Rattle.std.specs.Prelude.{◌≡◌, List as Listed, true, IfOk};
ghost use Rattle.lists.specs.Rows.{Rows};
ghost use Rattle.net_run.specs.Runs.{last_put};
ghost use Rattle.net_solution.specs.Solutions.{IsNetSolution, AreParts};
ghost use Rattle.net_turns.specs.Turns.{is_finished};
ghost use Rattle.proc_net.specs.Nets.{parts_of, shape_in, points_of};
ghost use Rattle.sample_io.specs.Samples.{printed};

use lists::Bytes;
use proc_net::Net;
use std::alloc::{AllocError, Global};
use whole_samples::push_row;

/// The rows of a net that has run all samples, as they are printed.
pub(crate) fn text_of(alloc: Global, net: &Net) -> Result<Bytes, AllocError>
    requires parts { AreParts (parts_of net.now) }
    requires finished { is_finished (shape_in net.now) (points_of net.now) ≡ true }
    ensures { IfOk result (λ text. (puts : Listed Rows) → IsNetSolution (parts_of net.now) puts
        → text ≡ printed (last_put (parts_of net.now) puts)) }
{
    let mut text = Bytes::new(alloc);
    for n in 0..net.count() {
        push_row(&mut text, net.row(n))?;
    }
    Ok(text)
}
