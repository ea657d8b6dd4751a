//! The numbers that manifest constants give.

ghost use Rattle.std.specs.Prelude.{◌≡◌, ℕ, ◌≤◌, ◌*◌, ◌+◌, map, IsTrue};
ghost use Rattle.name_rules.specs.Meanings.{are_dims};
ghost use Rattle.silage_syntax.specs.Manifests.{HasValue, LooksBack};
ghost use Rattle.silage_syntax.specs.Tree.{view_manifest, view_delay};
ghost use Rattle.silage_syntax.specs.Names.{IsOffset};
ghost use Rattle.loop_expand.specs.Private.Facts as is;
ghost use Rattle.loop_expand.specs.Private.Amounts.{IsKnownAmount};

use fix_word::Format;
use name_rules::{Env, element_count, manifest};
use silage_syntax::Manifest;

/// The value of a manifest constant that has one, which is not negative.
fn natural(env: &Env, m: &Manifest) -> u32
    requires { (k : ℕ) × HasValue env.now (view_manifest m.now) k }
    ensures { result ≡ is.natural env.now (view_manifest m.now) }
{
    match manifest(m, env) {
        Ok(value) => value as u32,
        Err(_) => unreachable!(),
    }
}

/// The row-major place that subscripts pick.
pub(crate) fn offset(env: &Env, dims: &[u32], subs: &[Manifest]) -> u32
    requires sized { IsTrue (are_dims dims.now) }
    requires placed { (k : ℕ) × IsOffset env.now dims.now (map view_manifest subs.now) k }
    ensures { result ≡ is.offset env.now dims.now (map view_manifest subs.now) }
{
    match dims {
        [] => 0,
        [_, dims @ ..] => match subs {
            [] => unreachable!(),
            [sub, subs @ ..] => natural(env, sub) * element_count(dims) + offset(env, dims, subs),
        },
    }
}

/// A number of samples.
pub(crate) fn samples(env: &Env, m: &Manifest) -> u16
    requires { (k : ℕ) × HasValue env.now (view_manifest m.now) k × (k ≤ 1023) }
    ensures { result ≡ is.natural env.now (view_manifest m.now) }
{
    natural(env, m) as u16
}

/// How many samples ago a read with this delay looks.
pub(crate) fn delay(env: &Env, delay: &Option<Manifest>) -> u16
    requires { (k : ℕ) × LooksBack env.now (view_delay delay.now) k }
    ensures { result ≡ is.delay_of env.now (view_delay delay.now) }
{
    match delay {
        None => 0,
        Some(m) => samples(env, m),
    }
}

/// A format with the amount of a shift in it.
pub(crate) fn format(env: &Env, fmt: Format, amount: &Option<Manifest>) -> Format
    requires { IsKnownAmount env.now fmt (view_delay amount.now) }
    ensures { result ≡ is.format_of env.now fmt (view_delay amount.now) }
{
    match amount {
        None => fmt,
        Some(m) => Format {
            shift: (i64::from(fmt.shift) * i64::from(natural(env, m))) as i8,
            mode: fmt.mode,
            width: fmt.width,
        },
    }
}
