// What a name's text decides, each text looked at once: a class and an argument rule for every name number.
ghost use Rattle.std.specs.Prelude.{◌≡◌, ◌&&◌, ℕ, ◌<◌, leb, ltb, length, get_or};
ghost use Rattle.functions.specs.Lists.{plus_one};
ghost use Rattle.ast.specs.Views.{file_seen};
ghost use Rattle.definitions.specs.Numbers.{most_names};
ghost use Rattle.definitions.specs.Names.{time_name};
ghost use Rattle.builder.specs.Tables.{class_of, class_number, last_reserved, first_built_in, other_class};
ghost use Rattle.builder.specs.Tables.{Classes, Rules};
ghost use Rattle.builder.specs.Starting.{place_as};

use crate::source::Classed;
use ast::layout::MOST_NAMES;
use ast::view::View;
use functions::{Rule, function_rule, value_of};

// What a name's text makes of it: which of the texts that decide something it is, in the order of `class_number`.
#[derive(Clone, Copy, Debug, PartialEq, Eq)]
pub enum Class {
    // t: reserved, and the name of time.
    Time,
    // The other reserved names, which no unknown may have.
    U,
    Dudt,
    F,
    G,
    Input,
    // The domain that begins at 0.
    NonNegative,
    // The domain without bounds.
    Real,
    // The built-in functions, ahead of a variable of that name.
    Sin,
    Cos,
    Tan,
    Pow,
    Exp,
    Log,
    Sqrt,
    Abs,
    Interp1d,
    Piecewise,
    // Any other name.
    Other,
}

// The class of each text that decides something.
// A table of pairs, as the rules are.
pub const DECIDING: [(&[u8], Class); 18] = [
    (b"t", Class::Time),
    (b"u", Class::U),
    (b"dudt", Class::Dudt),
    (b"F", Class::F),
    (b"G", Class::G),
    (b"input", Class::Input),
    (b"NonNegative", Class::NonNegative),
    (b"R", Class::Real),
    (b"sin", Class::Sin),
    (b"cos", Class::Cos),
    (b"tan", Class::Tan),
    (b"pow", Class::Pow),
    (b"exp", Class::Exp),
    (b"log", Class::Log),
    (b"sqrt", Class::Sqrt),
    (b"abs", Class::Abs),
    (b"interp1d", Class::Interp1d),
    (b"piecewise", Class::Piecewise),
];

// The reserved names come first, the built-in functions last.
const LAST_RESERVED: u8 = Class::Input as u8;

const FIRST_BUILT_IN: u8 = Class::Sin as u8;

const OTHER: u8 = Class::Other as u8;

// The class of a name's text.
pub fn class_of(name: &[u8]) -> Class
    ensures { class_number result ≡ class_of name.now }
{
    value_of(name, &DECIDING, Class::Other)
}

// Whether the names of a class are reserved: t's and the others'.
pub fn is_reserved(class: Class) -> bool
    ensures { result ≡ leb (class_number class) last_reserved }
{
    class as u8 <= LAST_RESERVED
}

// Whether the names of a class are those of built-in functions.
pub fn is_built_in(class: Class) -> bool
    ensures { result ≡ (leb first_built_in (class_number class) && ltb (class_number class) other_class) }
{
    let number = class as u8;
    (FIRST_BUILT_IN <= number) & (number < OTHER)
}

// What `of` gives of each name, and another value behind the last.
// By number: a name's text is asked for by it.
fn by_name<T: Copy, F: Fn(usize) -> T>(file: &View, of: F, other: T) -> [T; MOST_NAMES]
    requires { (n : ℕ) → n < file.now.sections.counts.names → F.pre of n }
    ensures { (length result ≡ most_names)
        × ((n : ℕ) → n < file.now.sections.counts.names → F.post of n (get_or result n other)) }
{
    let mut out = [other; MOST_NAMES];
    for n in 0..file.sections.counts.names {
        out[n] = of(n);
    }
    out
}

// The class of each name.
// Rules and classes are two tables, since the rules are worked out only where errors are listed.
pub fn classes(file: &View) -> [Class; MOST_NAMES]
    ensures { Classes (file_seen file.now).names result }
{
    by_name(file, |n| class_of(file.text(n)), Class::Other)
}

// The number of the first name that is t.
pub fn time_name(names: &Classed) -> Option<usize>
    ensures { plus_one (place_as result) ≡ time_name (file_seen names.now.file).names }
{
    let classes = names.classes;
    (0..names.file.sections.counts.names).position(|n| classes[n] == Class::Time)
}

// The argument rule of each name.
pub fn rules(file: &View) -> [Rule; MOST_NAMES]
    ensures { Rules (file_seen file.now).names result }
{
    by_name(file, |n| function_rule(file.text(n)), Rule::Any)
}
