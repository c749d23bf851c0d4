// The bounds of variables and of time, by the domains that the root's unknowns declare. A name comes plus 1, or 0, as a
// variable's record and the definitions have it.
ghost use Rattle.std.specs.Prelude.{◌≡◌, [], ◌∷◌, ◌+◌, ◌*◌, ◌≤◌, ◌<◌, length, IfSome};
ghost use Rattle.ast.specs.Words.{low, high, bytes_of};
ghost use Rattle.ast.specs.Bytes.{put};
ghost use Rattle.ast.specs.Views.{file_seen};
ghost use Rattle.definitions.specs.Numbers.{unknown_length};
ghost use Rattle.definitions.specs.Flatten.{model_at};
ghost use Rattle.definitions.specs.Answer.{bounds_words};
ghost use Rattle.area.specs.Fields.{bounds_length, bits_length};
ghost use Rattle.builder.specs.Bounding.{bounds_from, floats, Floating, case_bounds, NamedBelow, unknown_bounds, declared_bounds, LastDeclared, time_in, bound_bits, bounds_bits, NanDeclared, NansDeclared};
ghost use Rattle.builder.specs.VarRecords.{var_bounds};

use crate::names::Class;
use crate::source::Classed;
use area::layout::FLOAT_BYTES;
use ast::layout::{
    MODEL_FIRST_UNKNOWN, MODEL_UNKNOWNS, UNKNOWN_LOWER, UNKNOWN_NAME, UNKNOWN_UPPER,
};
use ast::numbers::{Bounds, Domain};
use ast::view::View;

// The unknown of model m that declares a name (plus 1) last.
pub fn last_declared(file: &View, m: usize, name: usize) -> Option<usize>
    requires { m < file.now.sections.counts.models }
    ensures { LastDeclared file.now.bytes.now file.now.sections m name result }
{
    let first = file.model(m, MODEL_FIRST_UNKNOWN);
    let count = file.model(m, MODEL_UNKNOWNS);
    (first..first + count)
        .rev()
        .find(|u| file.unknown(*u, UNKNOWN_NAME) + 1 == name)
}

// From 0 to infinity, or unbounded.
// `floor` picks a value, not a step, and is the definition's own parameter.
fn bounds_from(floor: bool) -> Bounds
    ensures { result ≡ floats (bounds_from floor) }
{
    let lower = if floor { 0.0 } else { f64::NEG_INFINITY };
    Bounds {
        lower,
        upper: f64::INFINITY,
    }
}

// The bounds of an unknown by its domain: a range has its own, a name's go by its class, and without a domain a time
// begins at 0.
fn domain_bounds(domain: Domain, time: bool, classes: &[Class]) -> Bounds
    requires { NamedBelow (length classes.now) domain }
    ensures { result ≡ case_bounds domain time classes.now }
{
    match domain {
        Domain::Span(lower, upper) => Bounds { lower, upper },
        Domain::Named(n) => bounds_from(classes[n as usize] == Class::NonNegative),
        Domain::None => bounds_from(time),
    }
}

// The bounds of unknown u.
fn unknown_bounds(names: &Classed, u: usize) -> Bounds
    requires { u < names.now.file.sections.counts.unknowns }
    ensures { Floating (unknown_bounds names.now.file.bytes.now names.now.file.sections u) result }
{
    let name = names.file.unknown(u, UNKNOWN_NAME);
    let class = names.classes[name];
    let domain = names.file.domain(u);
    domain_bounds(domain, class == Class::Time, names.classes)
}

// The bounds of unknown u; where there is none, those from 0 or the unbounded ones.
// A match, as the definition has it: `map_or_else` is no plainer.
fn declared_bounds(names: &Classed, u: Option<usize>, floor: bool) -> Bounds
    requires { IfSome u (λ i. i < names.now.file.sections.counts.unknowns) }
    ensures { Floating (declared_bounds names.now.file.bytes.now names.now.file.sections u
        (bounds_from floor)) result }
{
    match u {
        Some(i) => unknown_bounds(names, i),
        None => bounds_from(floor),
    }
}

// Time's bounds: those that model m declares last for the name (plus 1) of t, and from 0 where it declares none.
pub fn time_bounds(names: &Classed, m: usize, name: usize) -> Bounds
    requires { m < names.now.file.sections.counts.models }
    ensures { Floating (time_in names.now.file.bytes.now names.now.file.sections m name) result }
{
    declared_bounds(names, last_declared(&names.file, m, name), true)
}

// The bits of a bound that unknown u declares, or that none does. A NaN has none of its own: they are the file's, from
// word k of the unknown on.
fn bound_bits(x: f64, file: &View, u: Option<usize>, k: usize) -> u64
    requires { IfSome u (λ i. i < file.now.sections.counts.unknowns)
        × (k + 1 < unknown_length)
        × NanDeclared u x }
    ensures { result ≡ bound_bits file.now.bytes.now file.now.sections u k x }
{
    match u {
        Some(i) if x.is_nan() => file.unknown_bits(i, k),
        _ => x.to_bits(),
    }
}

// Writes the two words of a number's bits.
// The bytes and a place go side by side: contracts say what is put at a place.
fn put_bits(bits: u64, out: &mut [u8], place: usize)
    requires { place + 4 * bits_length ≤ length out.old }
    ensures { out.new ≡ put out.old place (bytes_of (low bits ∷ high bits ∷ [])) }
{
    out[place..place + FLOAT_BYTES].copy_from_slice(&bits.to_le_bytes());
}

// Writes the four words of bounds; u is the unknown that declares them, if one does.
pub fn put_bounds(b: Bounds, file: &View, u: Option<usize>, out: &mut [u8], place: usize)
    requires { IfSome u (λ i. i < file.now.sections.counts.unknowns)
        × NansDeclared u b
        × (place + 4 * bounds_length ≤ length out.old) }
    ensures { out.new ≡ put out.old place
        (bytes_of (bounds_words (bounds_bits file.now.bytes.now file.now.sections u b))) }
{
    put_bits(bound_bits(b.lower, file, u, UNKNOWN_LOWER), out, place);
    put_bits(
        bound_bits(b.upper, file, u, UNKNOWN_UPPER),
        out,
        place + FLOAT_BYTES,
    );
}

// Writes the bounds of variable v, of a name (plus 1) of model m.
// Variable 0 is t, with bounds of its own: the definition has that case here too (`var_bounds`).
pub fn put_var_bounds(
    names: &Classed,
    m: usize,
    v: usize,
    name: usize,
    out: &mut [u8],
    place: usize,
)
    requires { (m < names.now.file.sections.counts.models)
        × (place + 4 * bounds_length ≤ length out.old) }
    ensures { out.new ≡ put out.old place
        (bytes_of (bounds_words (var_bounds (file_seen names.now.file).names
        (model_at (file_seen names.now.file) m).unknowns v name))) }
{
    if v == 0 {
        put_bounds(bounds_from(true), &names.file, None, out, place);
        return;
    }
    let u = last_declared(&names.file, m, name);
    put_bounds(declared_bounds(names, u, false), &names.file, u, out, place);
}

// Writes time's bounds, those that model m declares last for the name (plus 1) of t.
pub fn put_time_bounds(
    time: Bounds,
    file: &View,
    m: usize,
    name: usize,
    out: &mut [u8],
    place: usize,
)
    requires { (m < file.now.sections.counts.models)
        × Floating (time_in file.now.bytes.now file.now.sections m name) time
        × (place + 4 * bounds_length ≤ length out.old) }
    ensures { out.new ≡ put out.old place
        (bytes_of (bounds_words (time_in file.now.bytes.now file.now.sections m name))) }
{
    put_bounds(time, file, last_declared(file, m, name), out, place);
}
