ghost use Rattle.std.specs.Prelude.{◌≡◌};
ghost use Rattle.operations.specs.Operations.{IsOperand};

use std::marker::Model;

/// A value that may be an operand: a raw word of magnitude at most 2^39. Contracts see the number.
#[derive(Clone, Copy)]
pub struct Operand {
    value: i64,
}

impl Model for Operand {
    ghost use Rattle.std.specs.Prelude.{ℤ};
    ghost use Rattle.operations.specs.Operations.{IsOperand};

    ghost Value = { ℤ };

    ghost view = { λ operand. operand.value };

    ghost invariant = { λ operand. IsOperand operand.value };

    ghost inverse = { λ value. record { value = value } };
}

impl Operand {
    pub fn new(value: i64) -> Operand
        requires { IsOperand value }
        ensures { result ≡ value }
    {
        Operand { value }
    }

    #[inline(always)]
    pub fn get(self) -> i64
        ensures value { result ≡ self }
        ensures bound { IsOperand result }
    {
        self.value
    }
}
