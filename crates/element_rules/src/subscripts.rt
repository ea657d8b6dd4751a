//! The subscripts of an element.

ghost use Rattle.std.specs.Prelude.{◌≡◌, ◌≤◌, ℕ, List, [], ◌∷◌, length, option_map, Some, IfSome};
ghost use Rattle.element_rules.specs.Subscripts.{listed, IsPlace};

/// The subscripts of an element of an array, from left to right. A signal that is no array has none.
#[derive(Clone, Copy, Drop)]
pub enum Subscripts {
    Bare,
    One(u32),
    Two(u32, u32),
}

fn in_row(dim: u32, place: u32) -> Option<Subscripts>
    ensures place { IfSome result (λ subs. IsPlace (dim ∷ []) (listed subs) place) }
    ensures only { (subs : List ℕ) → IsPlace (dim ∷ []) subs place → option_map listed result ≡ Some subs }
{
    if place < dim {
        Some(Subscripts::One(place))
    } else {
        None
    }
}

fn in_rows(rows: u32, columns: u32, place: u32) -> Option<Subscripts>
    ensures place { IfSome result (λ subs. IsPlace (rows ∷ columns ∷ []) (listed subs) place) }
    ensures only { (subs : List ℕ) → IsPlace (rows ∷ columns ∷ []) subs place → option_map listed result ≡ Some subs }
{
    if columns == 0 {
        return None;
    }
    let row = place / columns;
    if row < rows {
        Some(Subscripts::Two(row, place % columns))
    } else {
        None
    }
}

fn alone(place: u32) -> Option<Subscripts>
    ensures place { IfSome result (λ subs. IsPlace [] (listed subs) place) }
    ensures only { (subs : List ℕ) → IsPlace [] subs place → option_map listed result ≡ Some subs }
{
    if place == 0 {
        Some(Subscripts::Bare)
    } else {
        None
    }
}

/// The subscripts of the element at a row-major place of an array with two dims at most, if it has an element there.
pub fn subscripts_at(dims: &[u32], place: u32) -> Option<Subscripts>
    ensures place { IfSome result (λ subs. IsPlace dims.now (listed subs) place) }
    ensures only { length dims.now ≤ 2 → (subs : List ℕ) → IsPlace dims.now subs place
        → option_map listed result ≡ Some subs }
{
    match dims {
        [] => alone(place),
        [dim] => in_row(*dim, place),
        [rows, columns] => in_rows(*rows, *columns, place),
        _ => None,
    }
}
