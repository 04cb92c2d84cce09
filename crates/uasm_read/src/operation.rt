//! The operations that lines name.

ghost use Rattle.std.specs.Prelude.{◌≡◌, pos, IsTrue};
ghost use Rattle.uasm_read.specs.Operations as spec;
ghost use Rattle.uasm_read.specs.Modules.{operation_at};
ghost use Rattle.uasm_read.specs.Reading.{shape_of, is_near};

/// An operation, by the name that its lines begin with. The variants are in the order of the operations' numbers.
#[derive(Clone, Copy, Debug, PartialEq, Eq)]
pub enum Operation {
    Push,
    Dup,
    Drop,
    Pick,
    Roll,
    Depth,
    Pair,
    Part,
    Nth,
    Quad,
    Get,
    Typeq,
    Eq,
    Cmp,
    Alu,
    If,
    Jump,
    Msg,
    State,
    My,
    Actor,
    End,
    Dict,
    Deque,
    Sponsor,
    Assert,
    Debug,
}

/// What an operation has as its operand.
#[derive(Clone, Copy)]
pub enum Shape {
    /// A fixnum, a constant or a name.
    Value,
    /// None, which is `#?`.
    Nothing,
    /// A number from the first to the second one.
    Within(i32, i32),
    /// A number of that size at most, but not 0.
    Turn(u32),
    /// One of these words, which stand for the numbers from this one on.
    Choice(i32, &'static [u8]),
}

const OPERATIONS: [Operation; 27] = [
    Operation::Push,
    Operation::Dup,
    Operation::Drop,
    Operation::Pick,
    Operation::Roll,
    Operation::Depth,
    Operation::Pair,
    Operation::Part,
    Operation::Nth,
    Operation::Quad,
    Operation::Get,
    Operation::Typeq,
    Operation::Eq,
    Operation::Cmp,
    Operation::Alu,
    Operation::If,
    Operation::Jump,
    Operation::Msg,
    Operation::State,
    Operation::My,
    Operation::Actor,
    Operation::End,
    Operation::Dict,
    Operation::Deque,
    Operation::Sponsor,
    Operation::Assert,
    Operation::Debug,
];

impl Operation {
    /// The name that its lines begin with.
    pub fn name(self) -> &'static [u8]
        ensures { result.now ≡ (spec.row_of self).name }
    {
        match self {
            Operation::Push => b"push",
            Operation::Dup => b"dup",
            Operation::Drop => b"drop",
            Operation::Pick => b"pick",
            Operation::Roll => b"roll",
            Operation::Depth => b"depth",
            Operation::Pair => b"pair",
            Operation::Part => b"part",
            Operation::Nth => b"nth",
            Operation::Quad => b"quad",
            Operation::Get => b"get",
            Operation::Typeq => b"typeq",
            Operation::Eq => b"eq",
            Operation::Cmp => b"cmp",
            Operation::Alu => b"alu",
            Operation::If => b"if",
            Operation::Jump => b"jump",
            Operation::Msg => b"msg",
            Operation::State => b"state",
            Operation::My => b"my",
            Operation::Actor => b"actor",
            Operation::End => b"end",
            Operation::Dict => b"dict",
            Operation::Deque => b"deque",
            Operation::Sponsor => b"sponsor",
            Operation::Assert => b"assert",
            Operation::Debug => b"debug",
        }
    }

    /// The number that stands in the cell.
    pub fn number(self) -> i32
        ensures { result ≡ pos (spec.row_of self).number }
    {
        match self {
            Operation::Push => 0,
            Operation::Dup => 1,
            Operation::Drop => 2,
            Operation::Pick => 3,
            Operation::Roll => 4,
            Operation::Depth => 5,
            Operation::Pair => 6,
            Operation::Part => 7,
            Operation::Nth => 8,
            Operation::Quad => 9,
            Operation::Get => 10,
            Operation::Typeq => 11,
            Operation::Eq => 12,
            Operation::Cmp => 13,
            Operation::Alu => 14,
            Operation::If => 15,
            Operation::Jump => 16,
            Operation::Msg => 17,
            Operation::State => 18,
            Operation::My => 19,
            Operation::Actor => 20,
            Operation::End => 21,
            Operation::Dict => 22,
            Operation::Deque => 23,
            Operation::Sponsor => 24,
            Operation::Assert => 25,
            Operation::Debug => 26,
        }
    }

    /// What it has as its operand.
    pub fn shape(self) -> Shape
        ensures value { shape_of result ≡ (spec.row_of self).operand }
        ensures near { IsTrue (is_near (shape_of result)) }
    {
        match self {
            Operation::Push
            | Operation::Typeq
            | Operation::Eq
            | Operation::If
            | Operation::Assert => Shape::Value,
            Operation::Depth | Operation::Jump | Operation::Debug => Shape::Nothing,
            Operation::Dup => Shape::Within(0, 15),
            Operation::Drop => Shape::Within(0, 4095),
            Operation::Pick => Shape::Within(1, 4095),
            Operation::Roll => Shape::Turn(15),
            Operation::Pair => Shape::Within(1, 15),
            Operation::Part => Shape::Within(1, 15),
            Operation::Nth => Shape::Within(-4095, 4095),
            Operation::Quad => Shape::Turn(4),
            Operation::Get => Shape::Within(0, 3),
            Operation::Cmp => Shape::Choice(0, b"eq ge gt lt le ne"),
            Operation::Alu => Shape::Choice(0, b"not and or xor add sub mul"),
            Operation::Msg => Shape::Within(-4095, 4095),
            Operation::State => Shape::Within(-4095, 4095),
            Operation::My => Shape::Choice(0, b"self beh state"),
            Operation::Actor => Shape::Choice(0, b"send post create assign become"),
            Operation::End => Shape::Choice(-1, b"abort stop commit"),
            Operation::Dict => Shape::Choice(0, b"has get add set del"),
            Operation::Deque => Shape::Choice(0, b"new empty push pop put pull len"),
            Operation::Sponsor => Shape::Choice(0, b"new memory events cycles reclaim start stop"),
        }
    }

    /// The operation of that number.
    #[tactic(auto, unfolding(crate::specs::Modules::operation_at))]
    pub fn of_number(n: i32) -> Option<Operation>
        ensures { result ≡ operation_at n }
    {
        let mut rest: &[Operation] = &OPERATIONS;
        while let [operation, more @ ..] = rest {
            if n == operation.number() {
                return Some(*operation);
            }
            rest = more;
        }
        None
    }

    /// The operation of that name.
    #[tactic(auto, unfolding(crate::specs::Operations::operation_of))]
    pub fn of_name(part: &[u8]) -> Option<Operation>
        ensures { result ≡ spec.operation_of part.now }
    {
        let mut rest: &[Operation] = &OPERATIONS;
        while let [operation, more @ ..] = rest {
            if part == operation.name() {
                return Some(*operation);
            }
            rest = more;
        }
        None
    }

    /// Whether a next instruction follows it.
    pub fn goes_on(self) -> bool
        ensures { result ≡ spec.goes_on self }
    {
        match self {
            Operation::End => false,
            Operation::Jump => false,
            _ => true,
        }
    }
}
