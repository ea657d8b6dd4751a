//! In which order the issues, enables and takes of a word stand.
ghost use Rattle.std.specs.Prelude.{◌≡◌};
ghost use Rattle.micro_file.specs.Private.Fields.{last_of};
ghost use Rattle.micro_file.specs.Private.Order.{is_above, is_next, enable_before, take_before};

use lists::List;
use micro_image::{Enable, Issue, Take};

/// Whether the number is above that of the last issue's unit.
pub(crate) fn rises(issues: &List<Issue>, number: u8) -> bool
    ensures { result ≡ is_above (last_of issues.now) number }
{
    match issues.last() {
        Some(last) => last.unit < number,
        None => true,
    }
}

fn is_before(a: &Enable, b: &Enable) -> bool
    ensures { result ≡ enable_before a.now b.now }
{
    a.unit < b.unit || (a.unit == b.unit && a.bus < b.bus)
}

/// Whether the enable comes after the last one.
pub(crate) fn is_next_enable(enables: &[Enable], enable: &Enable) -> bool
    ensures { result ≡ is_next enable_before (last_of enables.now) enable.now }
{
    match enables.last() {
        Some(last) => is_before(last, enable),
        None => true,
    }
}

fn is_take_before(a: &Take, b: &Take) -> bool
    ensures { result ≡ take_before a.now b.now }
{
    if a.port.unit != b.port.unit {
        return a.port.unit < b.port.unit;
    }
    if a.port.port != b.port.port {
        return a.port.port < b.port.port;
    }
    a.bus < b.bus || (a.bus == b.bus && a.reg < b.reg)
}

/// Whether the take comes after the last one.
pub(crate) fn is_next_take(takes: &[Take], take: &Take) -> bool
    ensures { result ≡ is_next take_before (last_of takes.now) take.now }
{
    match takes.last() {
        Some(last) => is_take_before(last, take),
        None => true,
    }
}
