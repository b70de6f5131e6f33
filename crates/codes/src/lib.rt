// The functions, axes and tests of document 01, and their numbers: read and written here, and nowhere else.
#![tactic(auto)]

pub mod limits;
pub mod marks;
pub mod refusals;

// The functions of QO and RF.
#[derive(Clone, Copy, PartialEq, Eq)]
pub enum Function {
    Add,
    Subtract,
    Multiply,
    Divide,
    Equal,
    Less,
}

// The axes of a step.
#[derive(Clone, Copy, PartialEq, Eq)]
pub enum Axis {
    Child,
    Descendant,
    DescendantOrSelf,
    Itself,
    Parent,
    Ancestor,
    Following,
    Preceding,
}

// The tests of a step.
#[derive(Clone, Copy, PartialEq, Eq)]
pub enum Test {
    AnyNode,
    Element,
    Text,
    Named(usize),
}

ghost use Rattle.std.specs.Prelude.{◌≡◌, eqb};
ghost use Rattle.laws.specs.Attempt.{gives, provided};
ghost use Rattle.codes.specs.Codes.{function_of, axis_of, test_of, function_field, axis_field, test_field};
ghost use Rattle.codes.specs.Codes.{function_number, axis_number, test_number, test_name};
ghost use Rattle.codes.specs.Codes.{FunctionRead, AxisRead, FunctionNumbered, AxisNumbered};

// A number that names nothing.
#[derive(Clone, Copy, PartialEq, Eq)]
pub struct UnknownCode;

// The function of a number, 1 to 6.
impl TryFrom<u8> for Function {
    type Error = UnknownCode;

    ghost try_from_gives = { FunctionRead };

    #[tactic(auto, unfolding(crate::specs::Codes::function_of))]
    fn try_from(byte: u8) -> Result<Function, UnknownCode> {
        match byte {
            1 => Ok(Function::Add),
            2 => Ok(Function::Subtract),
            3 => Ok(Function::Multiply),
            4 => Ok(Function::Divide),
            5 => Ok(Function::Equal),
            6 => Ok(Function::Less),
            0 | 7..=255 => Err(UnknownCode),
        }
    }
}

// The axis of a number, 1 to 8.
impl TryFrom<u8> for Axis {
    type Error = UnknownCode;

    ghost try_from_gives = { AxisRead };

    #[tactic(auto, unfolding(crate::specs::Codes::axis_of))]
    fn try_from(byte: u8) -> Result<Axis, UnknownCode> {
        match byte {
            1 => Ok(Axis::Child),
            2 => Ok(Axis::Descendant),
            3 => Ok(Axis::DescendantOrSelf),
            4 => Ok(Axis::Itself),
            5 => Ok(Axis::Parent),
            6 => Ok(Axis::Ancestor),
            7 => Ok(Axis::Following),
            8 => Ok(Axis::Preceding),
            0 | 9..=255 => Err(UnknownCode),
        }
    }
}

// The number of a function.
impl From<Function> for u8 {
    ghost from_gives = { FunctionNumbered };

    #[tactic(auto, unfolding(crate::specs::Codes::function_number))]
    fn from(f: Function) -> u8 {
        match f {
            Function::Add => 1,
            Function::Subtract => 2,
            Function::Multiply => 3,
            Function::Divide => 4,
            Function::Equal => 5,
            Function::Less => 6,
        }
    }
}

// The number of an axis.
impl From<Axis> for u8 {
    ghost from_gives = { AxisNumbered };

    #[tactic(auto, unfolding(crate::specs::Codes::axis_number))]
    fn from(axis: Axis) -> u8 {
        match axis {
            Axis::Child => 1,
            Axis::Descendant => 2,
            Axis::DescendantOrSelf => 3,
            Axis::Itself => 4,
            Axis::Parent => 5,
            Axis::Ancestor => 6,
            Axis::Following => 7,
            Axis::Preceding => 8,
        }
    }
}

// A test without a name: its name field is 0.
#[tactic(auto, unfolding(laws::specs::Attempt::provided))]
fn nameless(test: Test, name: usize) -> Option<Test>
    ensures { test_field result ≡ provided (eqb name 0) (gives test) }
{
    if name == 0 { Some(test) } else { None }
}

// The test of a number, 0 to 3, and a name.
// As it is: (d) a test stands in two fields, so a conversion from or into one number says no more.
#[tactic(auto, unfolding(crate::specs::Codes::test_of, laws::specs::Attempt::provided))]
pub fn test_of(byte: u8, name: usize) -> Option<Test>
    ensures { test_field result ≡ test_of byte name }
{
    match byte {
        0 => nameless(Test::AnyNode, name),
        1 => nameless(Test::Element, name),
        2 => nameless(Test::Text, name),
        3 => Some(Test::Named(name)),
        4..=255 => None,
    }
}

// The number of a test.
#[tactic(auto, unfolding(crate::specs::Codes::test_number))]
pub fn test_number(test: Test) -> u8
    ensures { result ≡ test_number test }
{
    match test {
        Test::AnyNode => 0,
        Test::Element => 1,
        Test::Text => 2,
        Test::Named(_) => 3,
    }
}

// The name that a test asks for, 0 where it asks for none.
#[tactic(auto, unfolding(crate::specs::Codes::test_name))]
pub fn test_name(test: Test) -> usize
    ensures { result ≡ test_name test }
{
    match test {
        Test::AnyNode | Test::Element | Test::Text => 0,
        Test::Named(name) => name,
    }
}
