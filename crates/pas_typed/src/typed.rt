//! Typed programs: the tree of a program in which each name is resolved to a number and each place has its type. Names
//! and texts stay where a translation prints them.
ghost use Rattle.std.specs.Prelude.{◌≡◌};
ghost use Rattle.pas_typed.specs.Typed as typed;
ghost use Rattle.pas_typed.specs.TypeOf as spec;
ghost use Rattle.pas_typed.specs.TypeViews.{type_view};
ghost use Rattle.pas_typed.specs.TypedViews.{function_view, part_view, place_view, value_view};

use crate::types::{Base, PasType, Range, Table};
use pas_syntax::tree::Span;
use pas_syntax::{Adding, Multiplying, Relation, Sign, Way};
use sqlite_items::{Boxed, Items};
use wb_base::Text;

/// Whether a variable is one of the program or of the routine.
#[derive(Clone, Copy, Debug, PartialEq, Eq)]
pub enum Home {
    /// Of the program.
    Global,
    /// Of the routine.
    Local,
}

/// What a variable is.
#[derive(Clone, Copy, Debug, PartialEq, Eq)]
pub enum Mode {
    /// Declared as a variable.
    Declared,
    /// A value parameter.
    ByValue,
    /// A variable parameter.
    ByName,
}

/// A variable.
#[derive(Clone, Copy, Debug, PartialEq, Eq)]
pub struct Variable {
    /// Its name.
    pub name: Span,
    /// What it is.
    pub mode: Mode,
    /// Its type.
    pub pas_type: PasType,
}

/// A variable by its place among those of its home.
#[derive(Clone, Copy, Debug, PartialEq, Eq)]
pub struct Slot {
    /// Whose it is.
    pub home: Home,
    /// Its number there, from 0. Parameters come before declared variables.
    pub number: u32,
    /// What it is.
    pub mode: Mode,
    /// Its type.
    pub pas_type: PasType,
}

/// A required function of one ordinal argument.
#[derive(Clone, Copy, Debug, PartialEq, Eq)]
pub enum Function {
    /// `ord`
    Ord,
    /// `chr`
    Chr,
    /// `abs`
    Abs,
    /// `odd`
    Odd,
}

/// A required function that asks a file.
#[derive(Clone, Copy, Debug, PartialEq, Eq)]
pub enum FileTest {
    /// `eof`
    Eof,
    /// `eoln`
    Eoln,
}

/// A step of a file.
#[derive(Clone, Copy, Debug, PartialEq, Eq)]
pub enum FileStep {
    /// `reset`
    Reset,
    /// `rewrite`
    Rewrite,
    /// `get`
    Get,
    /// `put`
    Put,
}

/// A value.
#[cycle(value)]
#[derive(Drop)]
pub enum Value {
    /// A constant of a base.
    Constant(Base, i64),
    /// What a variable holds.
    Read(Boxed<Place>),
    /// The call of a function.
    Call(Boxed<Call>),
    /// A required function of a value.
    Applied(Function, Boxed<Value>),
    /// A question to a file.
    Tested(FileTest, Boxed<Place>),
    /// A value between parentheses.
    Parenthesized(Boxed<Value>),
    /// A value behind a sign.
    Signed(Sign, Boxed<Value>),
    /// `not` of a value.
    Negated(Boxed<Value>),
    /// An operator between factors.
    Product(Boxed<Value>, Multiplying, Boxed<Value>),
    /// An operator between terms.
    Addition(Boxed<Value>, Adding, Boxed<Value>),
    /// A relation.
    Comparison(Boxed<Value>, Relation, Boxed<Value>),
}

/// The call of a function.
#[cycle(value)]
#[derive(Drop)]
pub struct Call {
    /// The number of the routine.
    pub routine: u32,
    /// The type of its result.
    pub pas_type: PasType,
    /// The arguments.
    pub passed: Items<Passed>,
}

/// An argument.
#[cycle(value)]
#[derive(Drop)]
pub enum Passed {
    /// A value for a parameter of this type.
    Value(PasType, Value),
    /// A place for a variable parameter.
    Reference(Place),
}

/// A variable, or a part of one.
#[cycle(value)]
#[derive(Drop)]
pub struct Place {
    /// The variable.
    pub slot: Slot,
    /// What selects the part, each of what those before it select.
    pub parts: Items<Part>,
}

/// What selects a part of a variable, and the part's type.
#[cycle(value)]
#[derive(Drop)]
pub enum Part {
    /// An element of an array with this range of indexes, by its index.
    Element(Range, PasType, Value),
    /// A field of a record, by its number from 0.
    Field(u32, PasType),
    /// The buffer of a file.
    Buffer(PasType),
}

impl Function {
    /// The type of its value.
    pub fn pas_type(self) -> PasType
        ensures { spec.type_of_function (function_view self) ≡ type_view result }
    {
        match self {
            Function::Ord | Function::Abs => PasType::Whole(Base::Integer),
            Function::Chr => PasType::Whole(Base::Char),
            Function::Odd => PasType::Whole(Base::Boolean),
        }
    }
}

impl Part {
    /// The type of the part, whatever it is a part of.
    pub fn pas_type(&self) -> PasType
        ensures { (place : typed.Place) → spec.type_of_place (part_view self.now place) ≡ type_view result }
    {
        match self {
            Part::Element(_, pas_type, _) | Part::Field(_, pas_type) | Part::Buffer(pas_type) => {
                *pas_type
            }
        }
    }
}

impl Place {
    /// The type of the place.
    pub fn pas_type(&self) -> PasType
        ensures { spec.type_of_place (place_view self.now) ≡ type_view result }
    {
        match self.parts.as_slice().last() {
            Some(part) => part.pas_type(),
            None => self.slot.pas_type,
        }
    }

    /// Whether it is the buffer of a file.
    pub fn is_buffer(&self) -> bool
        ensures { spec.is_buffer (place_view self.now) ≡ result }
    {
        matches!(self.parts.as_slice().last(), Some(Part::Buffer(_)))
    }
}

impl Value {
    /// The type of the value.
    pub fn pas_type(&self) -> PasType
        ensures { spec.type_of (value_view self.now) ≡ type_view result }
    {
        match self {
            Value::Constant(base, _) => PasType::Whole(*base),
            Value::Read(place) => place.get().pas_type(),
            Value::Call(call) => call.get().pas_type,
            Value::Applied(function, _) => function.pas_type(),
            Value::Parenthesized(value) => value.get().pas_type(),
            Value::Signed(..) => PasType::Whole(Base::Integer),
            Value::Product(_, operator, _) => match operator {
                Multiplying::And => PasType::Whole(Base::Boolean),
                _ => PasType::Whole(Base::Integer),
            },
            Value::Addition(_, operator, _) => match operator {
                Adding::Or => PasType::Whole(Base::Boolean),
                _ => PasType::Whole(Base::Integer),
            },
            Value::Tested(..) | Value::Negated(_) | Value::Comparison(..) => {
                PasType::Whole(Base::Boolean)
            }
        }
    }
}

/// An item that is written on a text, with its width if one is given.
#[derive(Drop)]
pub enum Item {
    /// A number.
    Number(Value, Option<Value>),
    /// A byte.
    Char(Value, Option<Value>),
    /// A string of more than one byte.
    Text(Span, Option<Value>),
}

/// The head of a `for`.
#[derive(Drop)]
pub struct Counted {
    /// The variable that counts.
    pub slot: Slot,
    /// `to` or `downto`.
    pub way: Way,
    /// The first value.
    pub first: Value,
    /// The last value.
    pub last: Value,
}

/// Statements one after another.
pub type Statements = Items<Labelled>;

/// The elements of a `case`.
pub type Arms = Items<Arm>;

/// A statement. The body of a loop is the list of a compound, or of one statement.
#[cycle(statement)]
#[derive(Drop)]
pub enum Statement {
    /// Nothing.
    Empty,
    /// A value is assigned to a place.
    Assigns(Boxed<Place>, Boxed<Value>),
    /// A value becomes the result of a function, which is the cell with this number behind its variables, and of this
    /// type.
    SetsResult(u32, PasType, Boxed<Value>),
    /// The routine of this number is called.
    Calls(u32, Items<Passed>),
    /// A compound.
    Compound(Statements),
    /// `if` without `else`.
    If(Boxed<Value>, Boxed<Statement>),
    /// `if` with `else`.
    IfElse(Boxed<Value>, Boxed<Statement>, Boxed<Statement>),
    /// `case` without `others`.
    Case(Boxed<Value>, Arms),
    /// `case` with `others`.
    CaseOthers(Boxed<Value>, Arms, Boxed<Statement>),
    /// `while`.
    While(Boxed<Value>, Statements),
    /// `repeat`.
    Repeat(Statements, Boxed<Value>),
    /// `for`.
    For(Boxed<Counted>, Statements),
    /// `goto` to a label of a list around it.
    Goto(u32),
    /// `goto` to the program's last label, which halts with this status.
    GotoLast(u8),
    /// A step of a file.
    Steps(FileStep, Boxed<Place>),
    /// `read` from a file into places.
    Reads(Boxed<Place>, Items<Place>),
    /// `readln` from a text into places.
    ReadsLine(Boxed<Place>, Items<Place>),
    /// `write` on a text.
    Writes(Boxed<Place>, Items<Item>),
    /// `writeln` on a text.
    WritesLine(Boxed<Place>, Items<Item>),
    /// `write` of components on a file that is no text.
    WritesBytes(Boxed<Place>, Items<Value>),
    /// `uexit`.
    Halts(Boxed<Value>),
}

/// A statement of a list, with its label if it has one.
#[cycle(statement)]
#[derive(Drop)]
pub struct Labelled {
    /// The label.
    pub label: Option<u32>,
    /// The statement.
    pub statement: Statement,
}

/// An element of a `case`.
#[cycle(statement)]
#[derive(Drop)]
pub struct Arm {
    /// The constants that choose it.
    pub constants: Items<i64>,
    /// Its statement.
    pub statement: Statement,
}

/// What a heading tells of a routine.
#[derive(Debug, Drop)]
pub struct Heading {
    /// Its name.
    pub name: Span,
    /// The type of its result, if it is a function.
    pub result: Option<PasType>,
    /// Its parameters.
    pub parameters: Items<Variable>,
}

/// The body of a routine.
#[derive(Drop)]
pub struct Body {
    /// The number of the routine.
    pub routine: u32,
    /// The parameters, and then the declared variables.
    pub variables: Items<Variable>,
    /// The labels.
    pub labels: Items<u32>,
    /// The statements.
    pub statements: Statements,
}

/// A typed program.
#[derive(Drop)]
pub struct TypedProgram {
    /// The spellings of its names and texts, one after another.
    pub spellings: Text,
    /// Its types.
    pub types: Table,
    /// Its variables.
    pub globals: Items<Variable>,
    /// The numbers of the variables that its parameters are, in their order.
    pub files: Items<u32>,
    /// The headings of its routines, in the order of the first ones.
    pub headings: Items<Heading>,
    /// The bodies of its routines, in their own order.
    pub bodies: Items<Body>,
    /// Its labels.
    pub labels: Items<u32>,
    /// Its statements.
    pub statements: Statements,
}
