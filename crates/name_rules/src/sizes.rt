//! Sizes of arrays.

ghost use Rattle.std.specs.Prelude.{◌≡◌, ◌≤◌, IsTrue};
ghost use Rattle.silage_syntax.specs.Names as name;
ghost use Rattle.name_rules.specs.Meanings.{are_dims};

/// How many elements an array with these dims has.
pub fn element_count(dims: &[u32]) -> u32
    requires { IsTrue (are_dims dims.now) }
    ensures value { result ≡ name.element_count dims.now }
    ensures least { 1 ≤ result }
    ensures most { result ≤ 8192 }
{
    match dims {
        [] => 1,
        [dim, rest @ ..] => *dim * element_count(rest),
    }
}
