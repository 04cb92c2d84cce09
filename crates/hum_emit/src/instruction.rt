// Instructions and data whose words are still numbers of one another.

/// A word of an instruction or of a datum.
#[derive(Clone, Copy, Debug, PartialEq, Eq)]
pub enum Field {
    /// A fixnum.
    Number(i32),
    /// The constant of that number, from 0 to 15.
    Constant(u32),
    /// The instruction that was made after that many others.
    Place(u32),
    /// The first instruction of that unit.
    Unit(u32),
    /// The datum that was made after that many others.
    Data(u32),
}

/// An instruction.
#[derive(Clone, Copy, Debug, PartialEq, Eq)]
pub struct Instruction {
    /// The number of its operation.
    pub operation: u32,
    /// Its operand.
    pub field: Field,
    /// The number of the instruction that comes next, where one does.
    pub next: Option<u32>,
}

/// A cell of the image that is no instruction.
#[derive(Clone, Copy, Debug, PartialEq, Eq)]
pub struct Datum {
    /// The number of the constant that is its type.
    pub kind: u32,
    /// Its first word behind the type.
    pub first: Field,
    /// Its second word.
    pub second: Field,
}
