//! Tables and functions, and all of them in order.

ghost use Rattle.std.specs.Prelude.{◌≡◌, ◌≢◌, ◌<◌, ◌^◌, All, IfErr, IfOk, OnOk, length, map};
ghost use Rattle.fault_order.specs.Rules.{parts, each};
ghost use Rattle.fault_order.specs.Private.FirstMet.{first, MeetsOr};
ghost use Rattle.fix_word.specs.declared.types.SigType.TheVariants.{Fix};
ghost use Rattle.silage_syntax.specs.Tree as tree;
ghost use Rattle.silage_syntax.specs.Tree.{view, view_top};
ghost use Rattle.type_rules.specs.TypeRules.{literal_rules, table_rules, top_rules, type_rules};
ghost use Rattle.type_rules.specs.Translation as translation;
ghost use Rattle.type_rules.specs.Translation.{word_of, typed_func, typed_program};
ghost use Rattle.type_rules.specs.TypedTree.{view_func, view_items, view_typed};
ghost use Rattle.type_rules.specs.Numbers.{IsShort};
ghost use Rattle.fix_types.specs.Private.Answers.{GivesAs, GivesItems, AddsTop};
ghost use Rattle.fix_types.specs.Private.FunctionParts.{func_with};
ghost use Rattle.type_rules.specs.Private.Sound.{IsSoundType, IsSoundTop};

use crate::copies;
use crate::items::typed_items;
use crate::operands::literal_word;
use crate::scope::Scope;
use crate::signals::Signals;
use fix_word::{FixType, SigType};
use lists::List;
use name_rules::Tops;
use silage_syntax::{ConstDef, Func, Lit, Top};
use std::alloc::{AllocError, Global};
use type_rules::{TypeFault, Typed, TypedConst, TypedFunc, TypedItem};

/// The raw words of the numbers of a table.
fn words(alloc: Global, ty: FixType, numbers: &[Lit]) -> Result<List<i64>, TypeFault>
    requires type_ { IsSoundType (Fix ty) }
    requires numbers { All IsShort numbers.now }
    ensures { GivesAs (λ words. words) (parts (each (λ word. literal_rules word (Fix ty)) numbers.now))
        (map (λ word. word_of word (Fix ty)) numbers.now) result }
{
    let mut words = List::with_capacity(alloc, numbers.len())?;
    for number in numbers {
        words.push(literal_word(number, SigType::Fix(ty))?)?;
    }
    Ok(words)
}

fn typed_table(alloc: Global, table: &ConstDef) -> Result<TypedConst, TypeFault>
    requires type_ { IsSoundType (Fix table.now.ty) }
    requires numbers { All IsShort table.now.words }
    ensures { GivesAs (λ table. table) (table_rules table.now) (translation.typed_table table.now) result }
{
    let words = words(alloc, table.ty, &table.words)?;
    Ok(TypedConst {
        name: table.name.clone()?,
        dims: List::from_slice(alloc, &table.dims)?,
        ty: table.ty,
        words,
    })
}

/// The items of a function.
fn typed_body(alloc: Global, tops: &Tops, func: &Func) -> Result<Vec<TypedItem>, TypeFault>
    requires { IsSoundTop (view tops.now.program.now) (tree.function (tree.view_func func.now)) }
    ensures { let f = tree.view_func func.now in GivesItems (view tops.now.program.now) f f.items result }
{
    let signals = Signals::of(alloc, func)?;
    let scope = Scope {
        alloc,
        tops: *tops,
        func,
        signals: &signals,
    };
    typed_items(&scope, &func.items)
}

/// The function at this position with these items.
fn with_items(
    alloc: Global,
    position: u32,
    func: &Func,
    items: Vec<TypedItem>,
) -> Result<TypedFunc, AllocError>
    ensures { IfOk result (λ typed. view_func typed
        ≡ func_with position (tree.view_func func.now) (view_items items.items)) }
{
    Ok(TypedFunc {
        func: position,
        params: copies::decls(alloc, &func.params)?,
        results: copies::decls(alloc, &func.results)?,
        locals: copies::decls(alloc, &func.locals)?,
        items: List::from_vec(items),
    })
}

/// The function at this position.
fn typed_function(
    alloc: Global,
    tops: &Tops,
    position: u32,
    func: &Func,
) -> Result<TypedFunc, TypeFault>
    requires { IsSoundTop (view tops.now.program.now) (tree.function (tree.view_func func.now)) }
    ensures { let p = view tops.now.program.now in let f = tree.view_func func.now in
        GivesAs view_func (top_rules p (tree.function f)) (typed_func p position f) result }
{
    let items = typed_body(alloc, tops, func)?;
    Ok(with_items(alloc, position, func, items)?)
}

/// Adds the table or function at this position.
fn add_top(
    alloc: Global,
    tops: &Tops,
    position: u32,
    top: &Top,
    typed: &mut Typed,
) -> Result<(), TypeFault>
    requires { IsSoundTop (view tops.now.program.now) (view_top top.now) }
    ensures { AddsTop (view tops.now.program.now) position (view_top top.now) typed.old typed.new result }
{
    match top {
        Top::Const(table) => typed.consts.push(typed_table(alloc, table)?)?,
        Top::Func(func) => {
            let func = typed_function(alloc, tops, position, func)?;
            typed.funcs.push(func)?;
        }
    }
    Ok(())
}

/// The typed tables and functions, in the order of the source.
pub(crate) fn typed_tops(alloc: Global, tops: &Tops) -> Result<Typed, TypeFault>
    requires few { length (view tops.now.program.now).tops < 2 ^ 32 }
    requires sound { All (IsSoundTop (view tops.now.program.now)) (view tops.now.program.now).tops }
    ensures { let p = view tops.now.program.now in GivesAs view_typed (type_rules p) (typed_program p) result }
{
    let mut typed = Typed {
        consts: List::new(alloc),
        funcs: List::new(alloc),
    };
    for at in 0..tops.program.tops.len() as u32 {
        add_top(alloc, tops, at, &tops.program.tops[at as usize], &mut typed)?;
    }
    Ok(typed)
}
