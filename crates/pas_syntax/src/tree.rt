//! Trees of Pascal programs: a variant for each choice of the grammar (ISO 7185, 6, in this project's profile), and the
//! line of each token. A name that tells a line is a `u32`, from 1.

use crate::operators::{Adding, Multiplying, Relation, Sign, Way};
use sqlite_items::{Boxed, Items};

/// A part of the spellings that a program keeps.
#[derive(Clone, Copy, Debug, PartialEq, Eq)]
pub struct Span {
    /// How many bytes stand before it.
    pub first: u32,
    /// How many bytes it has.
    pub count: u32,
}

/// A name, in small letters.
#[derive(Clone, Copy, Debug, PartialEq, Eq)]
pub struct Ident {
    /// Its bytes.
    pub span: Span,
    /// Its line.
    pub line: u32,
}

/// A number.
#[derive(Clone, Copy, Debug, PartialEq, Eq)]
pub struct Numeral {
    /// Its value.
    pub value: u32,
    /// Its line.
    pub line: u32,
}

/// A string.
#[derive(Clone, Copy, Debug, PartialEq, Eq)]
pub struct Quoted {
    /// What stands between its quotes, with quotes in it doubled.
    pub span: Span,
    /// Its line.
    pub line: u32,
}

/// A sign or an operator, and its line.
#[derive(Clone, Copy, Debug, PartialEq, Eq)]
pub struct Lined<T> {
    /// Which one it is.
    pub item: T,
    /// Its line.
    pub line: u32,
}

/// Something behind a token of which the line is known: a comma, a colon, a semicolon.
#[derive(Clone, Copy, Debug, PartialEq, Eq, Drop)]
pub struct Behind<T> {
    /// The line of the token.
    pub line: u32,
    /// What stands behind it.
    pub item: T,
}

/// Items with a separator before each but the first.
#[derive(Debug, Drop)]
pub struct Separated<T> {
    /// The first.
    pub first: T,
    /// The others, each behind its separator.
    pub more: Items<Behind<T>>,
}

/// `id {"," id}`
pub type Idents = Separated<Ident>;

/// `["+"|"-"] (number | id) | string`
#[derive(Clone, Copy, Debug, PartialEq, Eq)]
pub enum Constant {
    /// A number.
    Number(Option<Lined<Sign>>, Numeral),
    /// The name of a constant.
    Named(Option<Lined<Sign>>, Ident),
    /// A string.
    Text(Quoted),
}

/// `id | const ".." const`
#[derive(Clone, Copy, Debug, PartialEq, Eq)]
pub enum Simple {
    /// The name of a type.
    Named(Ident),
    /// A subrange: its lower bound, the line of `..`, and its upper bound.
    Range(Constant, u32, Constant),
}

/// What an array type begins with: `["packed"] "array" "[" simple {"," simple} "]" "of"`.
#[derive(Debug, Drop)]
pub struct ArrayHead {
    /// The line of `packed`.
    pub packed: Option<u32>,
    /// The line of `array`.
    pub line: u32,
    /// The line of the bracket that opens the indexes.
    pub opened: u32,
    /// The types of the indexes.
    pub indexes: Separated<Simple>,
    /// The line of the bracket that closes the indexes.
    pub closed: u32,
    /// The line of `of`.
    pub of_line: u32,
}

/// What a file type begins with: `["packed"] "file" "of"`.
#[derive(Clone, Copy, Debug, PartialEq, Eq)]
pub struct FileHead {
    /// The line of `packed`.
    pub packed: Option<u32>,
    /// The line of `file`.
    pub line: u32,
    /// The line of `of`.
    pub of_line: u32,
}

/// A type.
#[cycle(type_form)]
#[derive(Drop)]
pub enum TypeForm {
    /// A name or a subrange.
    Simple(Simple),
    /// An array type: its head, and the type of its elements.
    Array(Boxed<ArrayHead>, Boxed<TypeForm>),
    /// A record type.
    Record(Boxed<RecordForm>),
    /// A file type: its head, and the type of its components.
    File(FileHead, Boxed<TypeForm>),
}

/// `["packed"] "record" ids ":" type {";" ids ":" type} [";"] "end"`
#[cycle(type_form)]
#[derive(Drop)]
pub struct RecordForm {
    /// The line of `packed`.
    pub packed: Option<u32>,
    /// The line of `record`.
    pub line: u32,
    /// The first fields.
    pub first: FieldGroup,
    /// The other fields.
    pub more: Items<MoreFields>,
    /// The line of the semicolon behind the last field.
    pub semicolon: Option<u32>,
    /// The line of `end`.
    pub end: u32,
}

/// Fields of one type: `ids ":" type`.
#[cycle(type_form)]
#[derive(Drop)]
pub struct FieldGroup {
    /// Their names.
    pub names: Idents,
    /// The line of the colon.
    pub colon: u32,
    /// Their type.
    pub form: TypeForm,
}

/// Fields behind other fields.
#[cycle(type_form)]
#[derive(Drop)]
pub struct MoreFields {
    /// The line of the semicolon before them.
    pub line: u32,
    /// The fields.
    pub group: FieldGroup,
}

/// `sum [("="|"<>"|"<"|"<="|">"|">=") sum]`
#[cycle(expression)]
#[derive(Drop)]
pub enum Expr {
    /// A sum alone.
    Sum(Sum),
    /// A relation of two sums.
    Relation(Boxed<Sum>, Lined<Relation>, Boxed<Sum>),
}

/// `["+"|"-"] term {("+"|"-"|"or") term}`
#[cycle(expression)]
#[derive(Drop)]
pub enum Sum {
    /// A term alone.
    FirstTerm(Term),
    /// A term behind a sign.
    SignedTerm(Lined<Sign>, Term),
    /// A sum, and a term behind an operator.
    MoreTerms(Boxed<Sum>, Lined<Adding>, Boxed<Term>),
}

/// `factor {("*"|"div"|"mod"|"and") factor}`
#[cycle(expression)]
#[derive(Drop)]
pub enum Term {
    /// A factor alone.
    FirstFactor(Factor),
    /// A term, and a factor behind an operator.
    MoreFactors(Boxed<Term>, Lined<Multiplying>, Boxed<Factor>),
}

/// `number | string | "(" expr ")" | "not" factor | var | id "(" expr {"," expr} ")"`
#[cycle(expression)]
#[derive(Drop)]
pub enum Factor {
    /// A number.
    Literal(Numeral),
    /// A string.
    Text(Quoted),
    /// An expression between parentheses, with their lines.
    Parenthesized(u32, Boxed<Expr>, u32),
    /// `not`, with its line, before a factor.
    Negated(u32, Boxed<Factor>),
    /// A variable, or the name of a constant or a function.
    Variable(Boxed<Variable>),
    /// The call of a function.
    Call(Boxed<FunctionCall>),
}

/// `id "(" expr {"," expr} ")"`
#[cycle(expression)]
#[derive(Drop)]
pub struct FunctionCall {
    /// The name of the function.
    pub name: Ident,
    /// The line of `(`.
    pub opened: u32,
    /// The arguments.
    pub arguments: Exprs,
    /// The line of `)`.
    pub closed: u32,
}

/// `id {"[" expr {"," expr} "]" | "." id | "^"}`
#[cycle(expression)]
#[derive(Drop)]
pub struct Variable {
    /// The name that it begins with.
    pub name: Ident,
    /// What selects parts of it.
    pub selectors: Items<Selector>,
}

/// What selects a part of a variable.
#[cycle(expression)]
#[derive(Drop)]
pub enum Selector {
    /// Indexes between brackets, with their lines.
    Indexes(u32, Boxed<Exprs>, u32),
    /// A field behind a point, with its line.
    Field(u32, Ident),
    /// `^`, the buffer of a file, with its line.
    Buffer(u32),
}

/// `expr {"," expr}`
#[cycle(expression)]
#[derive(Drop)]
pub struct Exprs {
    /// The first.
    pub first: Expr,
    /// The others.
    pub more: Items<MoreExpr>,
}

/// An expression behind others.
#[cycle(expression)]
#[derive(Drop)]
pub struct MoreExpr {
    /// The line of the comma before it.
    pub line: u32,
    /// The expression.
    pub value: Expr,
}

/// An argument of a procedure: `expr [":" expr]`.
#[derive(Drop)]
pub struct Argument {
    /// Its value.
    pub value: Expr,
    /// The width behind a colon.
    pub width: Option<Behind<Expr>>,
}

/// `"(" arg {"," arg} ")"`
#[derive(Drop)]
pub struct Arguments {
    /// The line of `(`.
    pub opened: u32,
    /// The arguments.
    pub items: Separated<Argument>,
    /// The line of `)`.
    pub closed: u32,
}

/// `var ":=" expr`
#[derive(Drop)]
pub struct Assignment {
    /// What is assigned to.
    pub target: Variable,
    /// The line of `:=`.
    pub becomes: u32,
    /// What is assigned.
    pub value: Expr,
}

/// `id ["(" arg {"," arg} ")"]`
#[derive(Drop)]
pub struct ProcedureCall {
    /// The name of the procedure.
    pub name: Ident,
    /// Its arguments.
    pub arguments: Option<Arguments>,
}

/// An expression between two words: that of an `if`, a `while` or a `case`.
#[derive(Drop)]
pub struct Guard {
    /// The line of `if`, `while` or `case`.
    pub line: u32,
    /// The expression.
    pub value: Expr,
    /// The line of `then`, `do` or `of`.
    pub behind: u32,
}

/// `"for" id ":=" expr ("to"|"downto") expr "do"`
#[derive(Drop)]
pub struct ForHead {
    /// The line of `for`.
    pub line: u32,
    /// The variable.
    pub name: Ident,
    /// The line of `:=`.
    pub becomes: u32,
    /// The first value.
    pub first: Expr,
    /// `to` or `downto`.
    pub way: Lined<Way>,
    /// The last value.
    pub last: Expr,
    /// The line of `do`.
    pub do_line: u32,
}

/// A statement without a label.
#[cycle(statement)]
#[derive(Drop)]
pub enum Plain {
    /// Nothing.
    Empty,
    /// `var ":=" expr`
    Assignment(Boxed<Assignment>),
    /// The call of a procedure.
    Call(Boxed<ProcedureCall>),
    /// `"begin" list "end"`
    Compound(Boxed<Compound>),
    /// `"if" expr "then" stmt`
    If(Boxed<Guard>, Boxed<Statement>),
    /// `"if" expr "then" stmt "else" stmt`, with the line of `else`
    IfElse(Boxed<Guard>, Boxed<Statement>, u32, Boxed<Statement>),
    /// `"case" expr "of" elem {";" elem} [";" ["others" ":" stmt [";"]]] "end"`, with the line of `end`
    Case(Boxed<Guard>, Boxed<Elements>, Boxed<Others>, u32),
    /// `"while" expr "do" stmt`
    While(Boxed<Guard>, Boxed<Statement>),
    /// `"repeat" list "until" expr`, with the line of `repeat`
    Repeat(u32, Boxed<Statements>, Boxed<Behind<Expr>>),
    /// `"for" id ":=" expr ("to"|"downto") expr "do" stmt`
    For(Boxed<ForHead>, Boxed<Statement>),
    /// `"goto" number`, with the line of `goto`
    Goto(u32, Numeral),
}

/// A label and the line of the colon behind it.
#[derive(Clone, Copy, Debug, PartialEq, Eq)]
pub struct LabelHere {
    /// The label.
    pub numeral: Numeral,
    /// The line of the colon.
    pub colon: u32,
}

/// `[number ":"] plain`
#[cycle(statement)]
#[derive(Drop)]
pub enum Statement {
    /// A statement without a label.
    Unlabelled(Plain),
    /// A statement with a label.
    Labelled(LabelHere, Boxed<Plain>),
}

/// `"begin" list "end"`
#[cycle(statement)]
#[derive(Drop)]
pub struct Compound {
    /// The line of `begin`.
    pub begin: u32,
    /// The statements.
    pub list: Statements,
    /// The line of `end`.
    pub end: u32,
}

/// `stmt {";" stmt}`
#[cycle(statement)]
#[derive(Drop)]
pub struct Statements {
    /// The first.
    pub first: Statement,
    /// The others.
    pub more: Items<MoreStatement>,
}

/// A statement behind others.
#[cycle(statement)]
#[derive(Drop)]
pub struct MoreStatement {
    /// The line of the semicolon before it.
    pub line: u32,
    /// The statement.
    pub statement: Statement,
}

/// `elem {";" elem}`
#[cycle(statement)]
#[derive(Drop)]
pub struct Elements {
    /// The first.
    pub first: Element,
    /// The others.
    pub more: Items<MoreElement>,
}

/// An element of a `case`: `const {"," const} ":" stmt`.
#[cycle(statement)]
#[derive(Drop)]
pub struct Element {
    /// Its constants.
    pub constants: Separated<Constant>,
    /// The line of the colon.
    pub colon: u32,
    /// Its statement.
    pub statement: Statement,
}

/// An element behind others.
#[cycle(statement)]
#[derive(Drop)]
pub struct MoreElement {
    /// The line of the semicolon before it.
    pub line: u32,
    /// The element.
    pub element: Element,
}

/// What stands behind the elements of a `case`.
#[cycle(statement)]
#[derive(Drop)]
pub enum Others {
    /// Nothing.
    Nothing,
    /// A semicolon, in this line.
    Semicolon(u32),
    /// `others` behind a semicolon.
    Others(OthersHead, Boxed<Statement>, Option<u32>),
}

/// `";" "others" ":"`
#[derive(Clone, Copy, Debug, PartialEq, Eq)]
pub struct OthersHead {
    /// The line of the semicolon.
    pub semicolon: u32,
    /// The line of `others`.
    pub line: u32,
    /// The line of the colon.
    pub colon: u32,
}

/// `"label" number {"," number} ";"`
#[derive(Debug, Drop)]
pub struct Labels {
    /// The line of `label`.
    pub line: u32,
    /// The labels.
    pub numbers: Separated<Numeral>,
    /// The line of the semicolon.
    pub end: u32,
}

/// `id "=" const ";"`
#[derive(Clone, Copy, Debug, PartialEq, Eq)]
pub struct ConstantRow {
    /// The name.
    pub name: Ident,
    /// The line of `=`.
    pub equals: u32,
    /// Its value.
    pub value: Constant,
    /// The line of the semicolon.
    pub end: u32,
}

/// `id "=" type ";"`
#[derive(Drop)]
pub struct TypeRow {
    /// The name.
    pub name: Ident,
    /// The line of `=`.
    pub equals: u32,
    /// Its type.
    pub form: TypeForm,
    /// The line of the semicolon.
    pub end: u32,
}

/// `ids ":" type ";"`
#[derive(Drop)]
pub struct VariableRow {
    /// The names.
    pub names: Idents,
    /// The line of the colon.
    pub colon: u32,
    /// Their type.
    pub form: TypeForm,
    /// The line of the semicolon.
    pub end: u32,
}

/// A part of the declarations: its word, and one row or more.
#[derive(Debug, Drop)]
pub struct Rows<T> {
    /// The line of its word.
    pub line: u32,
    /// The first row.
    pub first: T,
    /// The other rows.
    pub more: Items<T>,
}

/// Parameters of one type: `["var"] ids ":" id`.
#[derive(Debug, Drop)]
pub struct Parameter {
    /// The line of `var`.
    pub by_name: Option<u32>,
    /// Their names.
    pub names: Idents,
    /// The line of the colon.
    pub colon: u32,
    /// The name of their type.
    pub type_name: Ident,
}

/// `"(" param {";" param} ")"`
#[derive(Debug, Drop)]
pub struct Parameters {
    /// The line of `(`.
    pub opened: u32,
    /// The parameters.
    pub items: Separated<Parameter>,
    /// The line of `)`.
    pub closed: u32,
}

/// The heading of a routine.
#[derive(Debug, Drop)]
pub enum Heading {
    /// `"procedure" id [params]`, with the line of `procedure`
    Procedure(u32, Ident, Option<Parameters>),
    /// `"function" id [params] [":" id]`, with the line of `function`
    Function(u32, Ident, Option<Parameters>, Option<Behind<Ident>>),
}

/// What stands behind the heading of a routine: its declarations and its statements.
#[derive(Drop)]
pub struct Block {
    /// The labels.
    pub labels: Option<Labels>,
    /// The variables.
    pub variables: Option<Rows<VariableRow>>,
    /// The statements.
    pub body: Compound,
}

/// What stands behind the heading of a routine.
#[derive(Drop)]
pub enum Body {
    /// `forward`, in this line.
    Forward(u32),
    /// Declarations and statements.
    Block(Block),
}

/// `heading ";" body ";"`
#[derive(Drop)]
pub struct Routine {
    /// The heading.
    pub heading: Heading,
    /// The line of the semicolon behind it.
    pub behind_heading: u32,
    /// The body.
    pub body: Body,
    /// The line of the semicolon at the end.
    pub end: u32,
}

/// `"(" id {"," id} ")"`
#[derive(Debug, Drop)]
pub struct ProgramParameters {
    /// The line of `(`.
    pub opened: u32,
    /// The names.
    pub names: Idents,
    /// The line of `)`.
    pub closed: u32,
}

/// What a program begins with: `"program" id ["(" id {"," id} ")"] ";"`.
#[derive(Debug, Drop)]
pub struct ProgramHead {
    /// The line of `program`.
    pub line: u32,
    /// The name.
    pub name: Ident,
    /// The parameters.
    pub parameters: Option<ProgramParameters>,
    /// The line of the semicolon.
    pub end: u32,
}

/// The declarations of a program.
#[derive(Drop)]
pub struct Declarations {
    /// The labels.
    pub labels: Option<Labels>,
    /// The constants.
    pub constants: Option<Rows<ConstantRow>>,
    /// The types.
    pub types: Option<Rows<TypeRow>>,
    /// The variables.
    pub variables: Option<Rows<VariableRow>>,
    /// The routines.
    pub routines: Items<Routine>,
}

/// `"program" id ["(" id {"," id} ")"] ";" labels consts types vars {routine} compound "."`, and the end of the text
#[derive(Drop)]
pub struct ProgramTree {
    /// What it begins with.
    pub head: ProgramHead,
    /// The declarations.
    pub declarations: Declarations,
    /// The statements.
    pub body: Compound,
    /// The line of the point.
    pub dot: u32,
    /// The line of the end of the text.
    pub end: u32,
}
