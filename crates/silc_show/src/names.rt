//! The names of a source: where its function `main` stands among the tables and functions, and the names of these.

ghost use Rattle.std.specs.Prelude.{◌≡◌, ◌<◌, ◌^◌, length, IfOk, OnOk};
ghost use Rattle.fault_order.specs.Ranked.{IsClear};
ghost use Rattle.silage_syntax.specs.Tree.{view};
ghost use Rattle.name_rules.specs.NameFaults.{name_faults, IsMain};
ghost use Rattle.name_rules.specs.TopNames.{top_names};

use crate::page::{Page, Refused};
use crate::source::{SOURCE_LIMIT, program_of, refuse_names};
use name_check::check_names;
use name_rules::Names;
use silage_tree::{Program, Top};

fn put_top(page: &mut Page, names: &Names, top: &Top) {
    let name = match top {
        Top::Const(table) => &table.name,
        Top::Func(func) => &func.name,
    };
    match names.tops.position(name) {
        Some(position) => page.number("top ", position),
        None => page.text("no top"),
    }
    page.name(" ", name);
    page.end();
}

pub fn names_of(page: &mut Page, source: &[u8], program: &Program) -> Result<Names, Refused>
    ensures clear { OnOk result (IsClear (name_faults (view program.now))) }
    ensures tops { IfOk result (λ names. names.tops ≡ top_names (view program.now)) }
    ensures main { IfOk result (λ names. IsMain (view program.now) names.main) }
    ensures few { OnOk result (length (view program.now).tops < 2 ^ 32) }
{
    if program.tops.len() > SOURCE_LIMIT {
        return Err(page.refuse_length());
    }
    match check_names(page.alloc, program) {
        Ok(names) => Ok(names),
        Err(fault) => Err(refuse_names(page, source, fault)),
    }
}

pub fn put(page: &mut Page, source: &[u8]) -> Result<(), Refused> {
    let program = program_of(page, source)?;
    let names = names_of(page, source, &program)?;
    page.number("main ", names.main);
    page.end();
    for top in &program.tops {
        put_top(page, &names, top);
    }
    Ok(())
}
