//! The turns of loops.

ghost use Rattle.std.specs.Prelude.{◌≡◌, ◌+ℤ◌, ◌-ℤ◌, ◌≤ℤ◌, pos};
ghost use Rattle.element_rules.specs.ElementRules as rules;
ghost use Rattle.element_rules.specs.ElementRules.{count_up};

fn at_least_0(count: i64) -> u64
    ensures { result ≡ rules.at_least_0 count }
{
    match u64::try_from(count) {
        Ok(count) => count,
        Err(_) => 0,
    }
}

fn one_more_than(first: i32, last: i32) -> i64
    ensures { result ≡ last -ℤ first +ℤ pos 1 }
{
    i64::from(last) - i64::from(first) + 1
}

/// How many turns a loop with these bounds has.
pub fn turn_count(first: i32, last: i32) -> u64
    ensures { result ≡ count_up first last }
{
    at_least_0(one_more_than(first, last))
}

/// The index of the turn after so many others.
pub fn turn_at(first: i32, last: i32, k: u64) -> i32
    requires { (first +ℤ pos k) ≤ℤ last }
    ensures { result ≡ first +ℤ pos k }
{
    (i64::from(first) + k as i64) as i32
}
