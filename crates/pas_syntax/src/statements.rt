//! How statements are read.
ghost use Rattle.std.specs.Prelude.{◌≡◌, ◌≢◌, length, Ok, Some, None};
ghost use Rattle.pas_tokens.specs.declared.kinds.Kind.TheVariants as k;
ghost use Rattle.pas_syntax.specs.Tree as tree;
ghost use Rattle.pas_syntax.specs.Views.{ident_in, numeral_in, lined_in, separated_in, if_there, expr_in};
ghost use Rattle.pas_syntax.specs.ProgramViews.{argument_in, arguments_in, plain_in, statement_in, statements_in};
ghost use Rattle.pas_syntax.specs.ProgramViews.{compound_in, elements_in, others_in};
ghost use Rattle.pas_syntax.specs.inner.Prog.{head, look, skip, bind};
ghost use Rattle.pas_syntax.specs.inner.Readers.{expr as expr_reader, ident as ident_reader};
ghost use Rattle.pas_syntax.specs.inner.TypeReaders.{items_by};
ghost use Rattle.pas_syntax.specs.inner.Places.{IsMark, Parses, ParsesIn};
ghost use Rattle.pas_syntax.specs.inner.Deeps.{Makes};
ghost use Rattle.pas_syntax.specs.inner.StatementReaders as spec;
ghost use Rattle.pas_syntax.specs.inner.StatementReaders.{with_line};
ghost use Rattle.pas_syntax.specs.inner.StatementViews.{guard_in, for_head_in, assignment_in, width_in};

use crate::cases::case_arms;
use crate::depth::Depth;
use crate::expressions::{expr, variable};
use crate::operators::Way;
use crate::reader::Reader;
use crate::stop::Stop;
use crate::tree::{
    Argument, Arguments, Assignment, Behind, Compound, Elements, Expr, ForHead, Guard, Ident,
    LabelHere, Lined, MoreStatement, Numeral, Others, Plain, ProcedureCall, Separated, Statement,
    Statements,
};
use pas_tokens::Kind;
use sqlite_items::{Boxed, Items};
use std::alloc::Global;
use wb_base::faults::WITH_STATEMENTS;

// Reads `stmt {";" stmt}`.
#[cycle(statement)]
fn statements(alloc: Global, reader: &mut Reader<'_>, depth: Depth) -> Result<Statements, Stop>
    ensures { Parses (λ m. spec.statements m depth.forms) statements_in reader.old result reader.new }
{
    let first = statement(alloc, reader, depth)?;
    let mut more = Items::new(alloc);
    'more: loop {
        match reader.kind() {
            Kind::Semicolon => {
                let line = reader.pass();
                let statement = statement(alloc, reader, depth)?;
                more.push(MoreStatement { line, statement })?;
            }
            _ => return Ok(Statements { first, more }),
        }
    }
}

// Reads `[number ":"] plain`.
#[cycle(statement)]
pub(crate) fn statement(
    alloc: Global,
    reader: &mut Reader<'_>,
    depth: Depth,
) -> Result<Statement, Stop>
    ensures { Parses (λ m. spec.statement m depth.forms) statement_in reader.old result reader.new }
{
    match reader.kind() {
        Kind::Number => {
            let numeral = reader.numeral()?;
            let colon = reader.take(Kind::Colon)?;
            let plain = plain(alloc, reader, depth)?;
            labelled(alloc, numeral, colon, plain)
        }
        _ => Ok(Statement::Unlabelled(plain(alloc, reader, depth)?)),
    }
}

// A statement with a label.
fn labelled(alloc: Global, numeral: Numeral, colon: u32, plain: Plain) -> Result<Statement, Stop>
    ensures { Makes statement_in result (λ spellings.
        tree.labelled (numeral_in numeral) colon (plain_in spellings plain)) }
{
    Ok(Statement::Labelled(LabelHere { numeral, colon }, Boxed::new(alloc, plain)?))
}

// Reads a statement without a label.
#[cycle(statement)]
fn plain(alloc: Global, reader: &mut Reader<'_>, depth: Depth) -> Result<Plain, Stop>
    ensures { ParsesIn (length reader.old.tokens) (λ m. spec.plain m depth.forms) plain_in reader.old result
        reader.new }
{
    match reader.kind() {
        Kind::Name => named_statement(alloc, reader, depth),
        Kind::Begin => {
            let body = compound(alloc, reader, depth)?;
            Ok(Plain::Compound(Boxed::new(alloc, body)?))
        }
        Kind::If => conditional(alloc, reader, depth),
        Kind::Case => case_statement(alloc, reader, depth),
        Kind::While => while_loop(alloc, reader, depth),
        Kind::Repeat => repeat_loop(alloc, reader, depth),
        Kind::For => for_loop(alloc, reader, depth),
        Kind::Goto => {
            let line = reader.pass();
            Ok(Plain::Goto(line, reader.numeral()?))
        }
        Kind::With => Err(Stop::LeftOut(WITH_STATEMENTS)),
        _ => Ok(Plain::Empty),
    }
}

// Reads `"begin" list "end"`.
#[cycle(statement)]
pub(crate) fn compound(
    alloc: Global,
    reader: &mut Reader<'_>,
    depth: Depth,
) -> Result<Compound, Stop>
    requires { (head reader.old.tokens).kind ≢ k.EndOfText }
    ensures { ParsesIn (length reader.old.tokens) (λ m. with_line (spec.compound_by (spec.statement m) m depth.forms))
        compound_in reader.old result reader.new }
{
    let inner = depth.in_form()?;
    let begin = reader.pass();
    let list = statements(alloc, reader, inner)?;
    let end = reader.take(Kind::End)?;
    Ok(Compound { begin, list, end })
}

// Reads `"if" expr "then" stmt ["else" stmt]`.
#[cycle(statement)]
fn conditional(alloc: Global, reader: &mut Reader<'_>, depth: Depth) -> Result<Plain, Stop>
    requires { (head reader.old.tokens).kind ≢ k.EndOfText }
    ensures { ParsesIn (length reader.old.tokens) (λ m. with_line (spec.if_by (spec.statement m) m depth.forms))
        plain_in reader.old result reader.new }
{
    let inner = depth.in_form()?;
    let head = guard(alloc, reader, inner, Kind::Then)?;
    let chosen = statement(alloc, reader, inner)?;
    match reader.kind() {
        Kind::Else => {
            let line = reader.pass();
            let other = statement(alloc, reader, inner)?;
            if_else(alloc, head, chosen, line, other)
        }
        _ => if_then(alloc, head, chosen),
    }
}

// An `if` with no `else`.
fn if_then(alloc: Global, head: Guard, chosen: Statement) -> Result<Plain, Stop>
    ensures { Makes plain_in result (λ spellings. tree.if_then head.line (expr_in spellings head.value) head.behind
        (statement_in spellings chosen)) }
{
    Ok(Plain::If(Boxed::new(alloc, head)?, Boxed::new(alloc, chosen)?))
}

// An `if` with an `else` in this line.
fn if_else(
    alloc: Global,
    head: Guard,
    chosen: Statement,
    line: u32,
    other: Statement,
) -> Result<Plain, Stop>
    ensures { Makes plain_in result (λ spellings. tree.if_else head.line (expr_in spellings head.value) head.behind
        (statement_in spellings chosen) line (statement_in spellings other)) }
{
    let head = Boxed::new(alloc, head)?;
    let chosen = Boxed::new(alloc, chosen)?;
    Ok(Plain::IfElse(head, chosen, line, Boxed::new(alloc, other)?))
}

// Reads a `case` statement.
#[cycle(statement)]
fn case_statement(alloc: Global, reader: &mut Reader<'_>, depth: Depth) -> Result<Plain, Stop>
    requires { (head reader.old.tokens).kind ≢ k.EndOfText }
    ensures { ParsesIn (length reader.old.tokens) (λ m. with_line (spec.case_by (spec.statement m) m depth.forms))
        plain_in reader.old result reader.new }
{
    let inner = depth.in_form()?;
    let head = guard(alloc, reader, inner, Kind::Of)?;
    let arms = case_arms(alloc, reader, inner)?;
    let end = reader.take(Kind::End)?;
    case_of(alloc, head, arms.elements, arms.others, end)
}

// A `case`, with its `end` in this line.
fn case_of(
    alloc: Global,
    head: Guard,
    elements: Elements,
    others: Others,
    end: u32,
) -> Result<Plain, Stop>
    ensures { Makes plain_in result (λ spellings. tree.case head.line (expr_in spellings head.value) head.behind
        (elements_in spellings elements) (others_in spellings others) end) }
{
    let head = Boxed::new(alloc, head)?;
    let elements = Boxed::new(alloc, elements)?;
    Ok(Plain::Case(head, elements, Boxed::new(alloc, others)?, end))
}

// Reads `"while" expr "do" stmt`.
#[cycle(statement)]
fn while_loop(alloc: Global, reader: &mut Reader<'_>, depth: Depth) -> Result<Plain, Stop>
    requires { (head reader.old.tokens).kind ≢ k.EndOfText }
    ensures { ParsesIn (length reader.old.tokens) (λ m. with_line (spec.while_by (spec.statement m) m depth.forms))
        plain_in reader.old result reader.new }
{
    let inner = depth.in_form()?;
    let head = guard(alloc, reader, inner, Kind::Do)?;
    let body = statement(alloc, reader, inner)?;
    while_do(alloc, head, body)
}

// A `while` loop.
fn while_do(alloc: Global, head: Guard, body: Statement) -> Result<Plain, Stop>
    ensures { Makes plain_in result (λ spellings. tree.while head.line (expr_in spellings head.value) head.behind
        (statement_in spellings body)) }
{
    Ok(Plain::While(Boxed::new(alloc, head)?, Boxed::new(alloc, body)?))
}

// Reads `"repeat" list "until" expr`.
#[cycle(statement)]
fn repeat_loop(alloc: Global, reader: &mut Reader<'_>, depth: Depth) -> Result<Plain, Stop>
    requires { (head reader.old.tokens).kind ≢ k.EndOfText }
    ensures { ParsesIn (length reader.old.tokens) (λ m. with_line (spec.repeat_by (spec.statement m) m depth.forms))
        plain_in reader.old result reader.new }
{
    let inner = depth.in_form()?;
    let line = reader.pass();
    let list = statements(alloc, reader, inner)?;
    let until = reader.take(Kind::Until)?;
    let item = expression(alloc, reader, inner)?;
    repeat_until(alloc, line, list, Behind { line: until, item })
}

// A `repeat` loop, which begins in this line.
fn repeat_until(
    alloc: Global,
    line: u32,
    list: Statements,
    until: Behind<Expr>,
) -> Result<Plain, Stop>
    ensures { Makes plain_in result (λ spellings. tree.repeat line (statements_in spellings list) until.line
        (expr_in spellings until.item)) }
{
    Ok(Plain::Repeat(line, Boxed::new(alloc, list)?, Boxed::new(alloc, until)?))
}

// Reads `"for" id ":=" expr ("to"|"downto") expr "do" stmt`.
#[cycle(statement)]
fn for_loop(alloc: Global, reader: &mut Reader<'_>, depth: Depth) -> Result<Plain, Stop>
    requires { (head reader.old.tokens).kind ≢ k.EndOfText }
    ensures { ParsesIn (length reader.old.tokens) (λ m. with_line (spec.for_by (spec.statement m) m depth.forms))
        plain_in reader.old result reader.new }
{
    let inner = depth.in_form()?;
    let head = for_head(alloc, reader, inner)?;
    let body = statement(alloc, reader, inner)?;
    for_do(alloc, head, body)
}

// A `for` loop.
fn for_do(alloc: Global, head: ForHead, body: Statement) -> Result<Plain, Stop>
    ensures { Makes plain_in result (λ spellings. tree.for head.line (ident_in spellings head.name) head.becomes
        (expr_in spellings head.first) (lined_in head.way) (expr_in spellings head.last) head.do_line
        (statement_in spellings body)) }
{
    Ok(Plain::For(Boxed::new(alloc, head)?, Boxed::new(alloc, body)?))
}

// Reads an expression that stands in no operand.
fn expression(alloc: Global, reader: &mut Reader<'_>, depth: Depth) -> Result<Expr, Stop>
    ensures { Parses (λ m. expr_reader m depth.forms 0) expr_in reader.old result reader.new }
{
    let outside = Depth {
        forms: depth.forms,
        operators: 0,
    };
    Ok(expr(alloc, reader, outside)?.tree)
}

// Reads `("if"|"while"|"case") expr` and the word behind it.
fn guard(alloc: Global, reader: &mut Reader<'_>, depth: Depth, word: Kind) -> Result<Guard, Stop>
    requires first { (head reader.old.tokens).kind ≢ k.EndOfText }
    requires last { IsMark word }
    ensures { ParsesIn (length reader.old.tokens)
        (λ m. with_line (λ line. skip (spec.guard_by m depth.forms word line))) guard_in reader.old result reader.new }
{
    let line = reader.pass();
    let value = expression(alloc, reader, depth)?;
    let behind = reader.take(word)?;
    Ok(Guard {
        line,
        value,
        behind,
    })
}

// Reads `"for" id ":=" expr ("to"|"downto") expr "do"`.
fn for_head(alloc: Global, reader: &mut Reader<'_>, depth: Depth) -> Result<ForHead, Stop>
    requires { (head reader.old.tokens).kind ≢ k.EndOfText }
    ensures { ParsesIn (length reader.old.tokens) (λ m. with_line (λ line. skip (spec.for_head_by m depth.forms line)))
        for_head_in reader.old result reader.new }
{
    let line = reader.pass();
    let name = reader.ident()?;
    let becomes = reader.take(Kind::Becomes)?;
    let first = expression(alloc, reader, depth)?;
    let way = way(reader)?;
    let last = expression(alloc, reader, depth)?;
    let do_line = reader.take(Kind::Do)?;
    Ok(ForHead {
        line,
        name,
        becomes,
        first,
        way,
        last,
        do_line,
    })
}

// Reads `"to"|"downto"`.
fn way(reader: &mut Reader<'_>) -> Result<Lined<Way>, Stop>
    ensures { Parses (λ m. look spec.way_at) (λ spellings. lined_in) reader.old result reader.new }
{
    match reader.kind() {
        Kind::To => Ok(reader.lined(Way::Up)),
        Kind::Downto => Ok(reader.lined(Way::Down)),
        _ => Err(Stop::Misplaced),
    }
}

// Reads `var ":=" expr | id ["(" arg {"," arg} ")"]`.
fn named_statement(alloc: Global, reader: &mut Reader<'_>, depth: Depth) -> Result<Plain, Stop>
    ensures { ParsesIn (length reader.old.tokens)
        (λ m. bind ident_reader (λ name. look (spec.behind_statement_name m depth.forms name))) plain_in reader.old
        result reader.new }
{
    let name = reader.ident()?;
    match reader.kind() {
        Kind::LeftParenthesis => {
            let arguments = arguments(alloc, reader, depth)?;
            called(alloc, name, Some(arguments))
        }
        Kind::LeftBracket | Kind::Dot | Kind::Caret | Kind::Becomes => {
            let assignment = assignment(alloc, reader, depth, name)?;
            Ok(Plain::Assignment(Boxed::new(alloc, assignment)?))
        }
        _ => called(alloc, name, None),
    }
}

// The call of a procedure.
fn called(alloc: Global, name: Ident, arguments: Option<Arguments>) -> Result<Plain, Stop>
    ensures { Makes plain_in result (λ spellings.
        tree.procedure_call (ident_in spellings name) (if_there (arguments_in spellings) arguments)) }
{
    Ok(Plain::Call(Boxed::new(alloc, ProcedureCall { name, arguments })?))
}

// Reads an assignment behind the name of its variable.
fn assignment(
    alloc: Global,
    reader: &mut Reader<'_>,
    depth: Depth,
    name: Ident,
) -> Result<Assignment, Stop>
    ensures { Parses (λ m. spec.assignment_by m depth.forms (ident_in reader.old.spellings name)) assignment_in
        reader.old result reader.new }
{
    let outside = Depth {
        forms: depth.forms,
        operators: 0,
    };
    let target = variable(alloc, reader, outside, name)?.tree;
    let becomes = reader.take(Kind::Becomes)?;
    let value = expression(alloc, reader, depth)?;
    Ok(Assignment {
        target,
        becomes,
        value,
    })
}

// Reads `"(" arg {"," arg} ")"`.
fn arguments(alloc: Global, reader: &mut Reader<'_>, depth: Depth) -> Result<Arguments, Stop>
    requires { (head reader.old.tokens).kind ≢ k.EndOfText }
    ensures { ParsesIn (length reader.old.tokens) (λ m. with_line (spec.arguments_by m depth.forms)) arguments_in
        reader.old result reader.new }
{
    let inner = depth.in_form()?;
    let opened = reader.pass();
    let items = argument_list(alloc, reader, inner)?;
    let closed = reader.take(Kind::RightParenthesis)?;
    Ok(Arguments {
        opened,
        items,
        closed,
    })
}

// Reads `arg {"," arg}`.
fn argument_list(
    alloc: Global,
    reader: &mut Reader<'_>,
    depth: Depth,
) -> Result<Separated<Argument>, Stop>
    ensures { Parses (λ m. items_by (spec.argument_by m depth.forms) m) (λ spellings.
        separated_in (argument_in spellings)) reader.old result reader.new }
{
    let first = argument(alloc, reader, depth)?;
    let mut more = Items::new(alloc);
    'more: loop {
        match reader.kind() {
            Kind::Comma => {
                let line = reader.pass();
                let item = argument(alloc, reader, depth)?;
                more.push(Behind { line, item })?;
            }
            _ => return Ok(Separated { first, more }),
        }
    }
}

// Reads `expr [":" expr]`.
fn argument(alloc: Global, reader: &mut Reader<'_>, depth: Depth) -> Result<Argument, Stop>
    ensures { Parses (λ m. spec.argument_by m depth.forms) argument_in reader.old result reader.new }
{
    let value = expression(alloc, reader, depth)?;
    let width = width(alloc, reader, depth)?;
    Ok(Argument { value, width })
}

// Reads `[":" expr]`.
fn width(alloc: Global, reader: &mut Reader<'_>, depth: Depth) -> Result<Option<Behind<Expr>>, Stop>
    ensures { Parses (λ m. look (spec.width_at m depth.forms)) width_in reader.old result reader.new }
{
    match reader.kind() {
        Kind::Colon => {
            let line = reader.pass();
            let item = expression(alloc, reader, depth)?;
            Ok(Some(Behind { line, item }))
        }
        _ => Ok(None),
    }
}
