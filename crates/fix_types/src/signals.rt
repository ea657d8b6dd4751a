//! The types of the signals of a function, by their names.

ghost use Rattle.std.specs.Prelude.{◌≡◌, ℕ, List, [], IfOk, OnOk};
ghost use Rattle.std.specs.Option.{option_or};
ghost use Rattle.silage_syntax.specs.Tree.{view_func};
ghost use Rattle.type_rules.specs.Private.Signals.{signal_type, gives_type, decl_type, type_in};

use fix_word::SigType;
use indexmap::IndexMap;
use lists::Name;
use silage_syntax::{Decl, Func};
use std::alloc::{AllocError, Global};
use std::marker::Model;

/// The types of signals, which contracts see as the list of names with their types.
#[derive(Drop)]
pub(crate) struct Signals {
    types: IndexMap<Name, SigType>,
}

impl Model for Signals {
    ghost use Rattle.std.specs.Prelude.{ℕ, List as Listed};
    ghost use Rattle.fix_word.specs.declared.types.SigType.{SigType as TypeOf};

    ghost Value = { Listed (Listed ℕ × TypeOf) };

    ghost view = { λ signals. signals.types.entries };
}

impl Signals {
    fn new(alloc: Global) -> Signals
        ensures { result ≡ [] }
    {
        Signals {
            types: IndexMap::new(alloc),
        }
    }

    pub fn get(&self, name: &Name) -> Option<SigType>
        ensures { result ≡ type_in self.now name.now }
    {
        self.types.get(name).copied()
    }

    /// Adds the type of a declaration, unless its name has one.
    fn declare(&mut self, decl: &Decl) -> Result<(), AllocError>
        ensures { OnOk result ((name : List ℕ) → type_in self.new name
            ≡ option_or (type_in self.old name) (gives_type decl.now name)) }
    {
        if self.types.get(&decl.name).is_some() {
            return Ok(());
        }
        self.types.insert(decl.name.clone()?, decl.ty)?;
        Ok(())
    }

    /// Adds the types of declarations. The first of a name decides.
    fn declare_all(&mut self, decls: &[Decl]) -> Result<(), AllocError>
        ensures { OnOk result ((name : List ℕ) → type_in self.new name
            ≡ option_or (type_in self.old name) (decl_type decls.now name)) }
    {
        for decl in decls {
            self.declare(decl)?;
        }
        Ok(())
    }

    /// The parameters, results and locals of a function.
    pub fn of(alloc: Global, func: &Func) -> Result<Signals, AllocError>
        ensures { IfOk result (λ signals. (name : List ℕ) → type_in signals name
            ≡ signal_type (view_func func.now) name) }
    {
        let mut signals = Signals::new(alloc);
        signals.declare_all(&func.params)?;
        signals.declare_all(&func.results)?;
        signals.declare_all(&func.locals)?;
        Ok(signals)
    }
}
