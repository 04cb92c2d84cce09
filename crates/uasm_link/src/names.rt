//! The names that modules export and import.

ghost use Rattle.std.specs.Prelude.{◌≡◌, ◌++◌, ◌∷◌, [], not, map, option_map, IfOk, OnOk};
ghost use Rattle.std.specs.List.{flat_map, find};
ghost use Rattle.uasm_read.specs.Texts.{Name as NameBytes, has_name};
ghost use Rattle.uasm_read.specs.Reading.{holds};
ghost use Rattle.uasm_read.specs.Links.{first_twice as twice_in};
ghost use Rattle.uasm_link.specs.Numbering.{names_on};

use cap_words::Name;
use std::alloc::{AllocError, Global};
use std::collections::HashSet;
use uasm_read::Module;

/// What a module does with names.
#[derive(Clone, Copy, Debug, PartialEq, Eq)]
pub enum Side {
    Exports,
    Imports,
}

fn names_on(side: Side, part: &Module) -> &[Name]
    ensures { result.now ≡ names_on side part.now }
{
    match side {
        Side::Exports => part.exports(),
        Side::Imports => part.imports(),
    }
}

fn push_names<'a>(found: &mut Vec<&'a Name>, names: &'a [Name]) -> Result<(), AllocError>
    ensures { OnOk result (map (λ name. name.now) found.new.items ≡ map (λ name. name.now) found.old.items ++ names.now) }
{
    let mut rest = names;
    while let [name, more @ ..] = rest {
        found.push(name)?;
        rest = more;
    }
    Ok(())
}

/// The names on one side of modules, in order.
pub fn names_of<'a>(
    alloc: Global,
    side: Side,
    modules: &'a [Module],
) -> Result<Vec<&'a Name>, AllocError>
    ensures { IfOk result (λ names. map (λ name. name.now) names.items ≡ flat_map (names_on side) modules.now) }
{
    let mut names = Vec::new(alloc);
    let mut rest = modules;
    while let [part, more @ ..] = rest {
        push_names(&mut names, names_on(side, part))?;
        rest = more;
    }
    Ok(names)
}

/// The first name that stands before.
pub fn first_twice<'a>(alloc: Global, names: &[&'a Name]) -> Result<Option<&'a Name>, AllocError>
    ensures { IfOk result (λ name. option_map (λ name. name.now) name ≡ twice_in [] (map (λ name. name.now) names.now)) }
{
    let mut before = HashSet::new(alloc);
    let mut rest = names;
    while let [name, more @ ..] = rest {
        if !before.insert(name.bytes())? {
            return Ok(Some(*name));
        }
        rest = more;
    }
    Ok(None)
}

/// The names as a set.
pub fn set_of<'a>(alloc: Global, names: &[&'a Name]) -> Result<HashSet<&'a [u8]>, AllocError>
    ensures { IfOk result (λ set. (name : NameBytes) → holds set name ≡ has_name (map (λ name. name.now) names.now) name) }
{
    let mut set = HashSet::new(alloc);
    let mut rest = names;
    while let [name, more @ ..] = rest {
        set.insert(name.bytes())?;
        rest = more;
    }
    Ok(set)
}

/// The first name that a set does not have.
pub fn first_missing<'a>(set: &HashSet<&[u8]>, names: &[&'a Name]) -> Option<&'a Name>
    ensures { option_map (λ name. name.now) result ≡ find (λ name. not (holds set.now name)) (map (λ name. name.now) names.now) }
{
    let mut rest = names;
    while let [name, more @ ..] = rest {
        if !set.contains(name.bytes()) {
            return Some(*name);
        }
        rest = more;
    }
    None
}
