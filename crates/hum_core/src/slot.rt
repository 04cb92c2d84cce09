// What both kinds of numbered trees hold.

use hum_syntax::Sym;

/// Stands for a use of a name.
#[derive(Clone, Copy, Debug, PartialEq, Eq)]
pub struct Slot {
    /// How many entries of the environment were bound later than the one that is meant.
    pub back: u32,
    /// The place in that entry, where it is a group of functions.
    pub member: Option<u32>,
}

/// A constant.
#[derive(Drop)]
pub enum Const {
    Undef,
    Nil,
    True,
    False,
    Num(i32),
    Sym(Sym),
}
