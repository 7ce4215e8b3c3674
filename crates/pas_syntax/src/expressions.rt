//! How expressions are read.
ghost use Rattle.std.specs.Prelude.{◌≡◌, ◌≤◌, ◌<◌, ◌+◌, ◌-◌, max, length, Ok, IfOk, OnOk};
ghost use Rattle.pas_tokens.specs.declared.kinds.Kind.TheVariants as k;
ghost use Rattle.wb_base.specs.declared.faults.TheConstants.{REAL_NUMBERS, SETS};
ghost use Rattle.pas_syntax.specs.declared.limits.TheConstants.{NESTING_LIMIT};
ghost use Rattle.pas_syntax.specs.Tree as tree;
ghost use Rattle.pas_syntax.specs.Tree.{Variable as VariableTree};
ghost use Rattle.pas_syntax.specs.Words.{depth_of, sum_depth, term_depth, factor_depth, variable_depth, exprs_depth};
ghost use Rattle.pas_syntax.specs.Views.{lined_in, ident_in, expr_in, sum_in, term_in, factor_in, variable_in};
ghost use Rattle.pas_syntax.specs.Views.{selector_in, exprs_in, call_in};
ghost use Rattle.pas_syntax.specs.inner.Prog.{head, look, bind, a_turn};
ghost use Rattle.pas_syntax.specs.inner.Places.{Fits, Parses, ParsesIn};
ghost use Rattle.pas_syntax.specs.inner.Deeps.{of_deep, HasDepth, Makes, IsRefused, BeginsSelector};
ghost use Rattle.pas_syntax.specs.inner.Readers as spec;

use crate::depth::{Deep, Depth};
use crate::operator_kinds::{adding_of, multiplying_of, relation_of, sign_of};
use crate::operators::{Adding, Multiplying, Relation};
use crate::reader::Reader;
use crate::stop::Stop;
use crate::tree::{
    Expr, Exprs, Factor, FunctionCall, Ident, Lined, MoreExpr, Selector, Sum, Term, Variable,
};
use pas_tokens::Kind;
use sqlite_items::{Boxed, Items};
use std::alloc::Global;
use wb_base::faults::{POINTERS, REAL_NUMBERS, SETS};

// Reads `sum [("="|"<>"|"<"|"<="|">"|">=") sum]`.
#[cycle(expression)]
pub(crate) fn expr(alloc: Global, reader: &mut Reader<'_>, depth: Depth) -> Result<Deep<Expr>, Stop>
    ensures value { Parses (λ m. spec.expr m depth.forms depth.operators)
        (of_deep expr_in) reader.old result reader.new }
    ensures depth { IfOk result (λ found. HasDepth depth.operators found.depth
        (depth_of (expr_in reader.old.spellings found.tree))) }
{
    let left = sum(alloc, reader, depth)?;
    match relation_of(reader.kind()) {
        Some(relation) => {
            let inner = depth.in_operand(left.depth)?;
            let relation = reader.lined(relation);
            let right = sum(alloc, reader, inner)?;
            related(alloc, left, relation, right)
        }
        None => Ok(Deep {
            tree: Expr::Sum(left.tree),
            depth: left.depth,
        }),
    }
}

// A relation of two sums.
fn related(
    alloc: Global,
    left: Deep<Sum>,
    relation: Lined<Relation>,
    right: Deep<Sum>,
) -> Result<Deep<Expr>, Stop>
    requires { max left.depth right.depth < NESTING_LIMIT }
    ensures made { Makes (of_deep expr_in) result (λ spellings.
        tree.relation (sum_in spellings left.tree) (lined_in relation) (sum_in spellings right.tree)) }
    ensures depth { IfOk result (λ found. found.depth ≡ max left.depth right.depth + 1) }
{
    Ok(Deep {
        depth: left.depth.max(right.depth) + 1,
        tree: Expr::Relation(
            Boxed::new(alloc, left.tree)?,
            relation,
            Boxed::new(alloc, right.tree)?,
        ),
    })
}

// Reads `["+"|"-"] term {("+"|"-"|"or") term}`.
#[cycle(expression)]
fn sum(alloc: Global, reader: &mut Reader<'_>, depth: Depth) -> Result<Deep<Sum>, Stop>
    ensures value { Parses (λ m. spec.sum_by (spec.factor m) m depth.forms depth.operators)
        (of_deep sum_in) reader.old result reader.new }
    ensures depth { IfOk result (λ found. HasDepth depth.operators found.depth
        (sum_depth (sum_in reader.old.spellings found.tree))) }
{
    let mut left = first_term(alloc, reader, depth)?;
    'more: loop {
        match adding_of(reader.kind()) {
            Some(adding) => {
                let inner = depth.in_operand(left.depth)?;
                let adding = reader.lined(adding);
                let right = term(alloc, reader, inner)?;
                left = added(alloc, left, adding, right)?;
            }
            None => {
                not_in(reader)?;
                return Ok(left);
            }
        }
    }
}

// Refuses `in`, which would be left out.
fn not_in(reader: &Reader<'_>) -> Result<(), Stop>
    ensures { IsRefused k.In SETS (head reader.now.tokens).kind result }
{
    match reader.kind() {
        Kind::In => Err(Stop::LeftOut(SETS)),
        _ => Ok(()),
    }
}

// Reads `["+"|"-"] term`.
#[cycle(expression)]
fn first_term(alloc: Global, reader: &mut Reader<'_>, depth: Depth) -> Result<Deep<Sum>, Stop>
    ensures value { Parses (λ m. look (spec.first_term_at (spec.factor m) m depth.forms depth.operators))
        (of_deep sum_in) reader.old result reader.new }
    ensures depth { IfOk result (λ found. HasDepth depth.operators found.depth
        (sum_depth (sum_in reader.old.spellings found.tree))) }
{
    match sign_of(reader.kind()) {
        Some(sign) => {
            let inner = depth.in_operand(0)?;
            let sign = reader.lined(sign);
            let first = term(alloc, reader, inner)?;
            Ok(Deep {
                tree: Sum::SignedTerm(sign, first.tree),
                depth: first.depth + 1,
            })
        }
        None => {
            let first = term(alloc, reader, depth)?;
            Ok(Deep {
                tree: Sum::FirstTerm(first.tree),
                depth: first.depth,
            })
        }
    }
}

// A sum with one term more.
fn added(
    alloc: Global,
    left: Deep<Sum>,
    adding: Lined<Adding>,
    right: Deep<Term>,
) -> Result<Deep<Sum>, Stop>
    requires { max left.depth right.depth < NESTING_LIMIT }
    ensures made { Makes (of_deep sum_in) result (λ spellings.
        tree.more_terms (sum_in spellings left.tree) (lined_in adding) (term_in spellings right.tree)) }
    ensures depth { IfOk result (λ found. found.depth ≡ max left.depth right.depth + 1) }
{
    Ok(Deep {
        depth: left.depth.max(right.depth) + 1,
        tree: Sum::MoreTerms(
            Boxed::new(alloc, left.tree)?,
            adding,
            Boxed::new(alloc, right.tree)?,
        ),
    })
}

// Reads `factor {("*"|"div"|"mod"|"and") factor}`.
#[cycle(expression)]
fn term(alloc: Global, reader: &mut Reader<'_>, depth: Depth) -> Result<Deep<Term>, Stop>
    ensures value { Parses (λ m. spec.term_by (spec.factor m) m depth.forms depth.operators)
        (of_deep term_in) reader.old result reader.new }
    ensures depth { IfOk result (λ found. HasDepth depth.operators found.depth
        (term_depth (term_in reader.old.spellings found.tree))) }
{
    let first = factor(alloc, reader, depth)?;
    let mut left = Deep {
        tree: Term::FirstFactor(first.tree),
        depth: first.depth,
    };
    'more: loop {
        match multiplying_of(reader.kind()) {
            Some(multiplying) => {
                let inner = depth.in_operand(left.depth)?;
                let multiplying = reader.lined(multiplying);
                let right = factor(alloc, reader, inner)?;
                left = multiplied(alloc, left, multiplying, right)?;
            }
            None => {
                not_slash(reader)?;
                return Ok(left);
            }
        }
    }
}

// Refuses `/`, which would be left out.
fn not_slash(reader: &Reader<'_>) -> Result<(), Stop>
    ensures { IsRefused k.Slash REAL_NUMBERS (head reader.now.tokens).kind result }
{
    match reader.kind() {
        Kind::Slash => Err(Stop::LeftOut(REAL_NUMBERS)),
        _ => Ok(()),
    }
}

// A term with one factor more.
fn multiplied(
    alloc: Global,
    left: Deep<Term>,
    multiplying: Lined<Multiplying>,
    right: Deep<Factor>,
) -> Result<Deep<Term>, Stop>
    requires { max left.depth right.depth < NESTING_LIMIT }
    ensures made { Makes (of_deep term_in) result (λ spellings.
        tree.more_factors (term_in spellings left.tree) (lined_in multiplying) (factor_in spellings right.tree)) }
    ensures depth { IfOk result (λ found. found.depth ≡ max left.depth right.depth + 1) }
{
    Ok(Deep {
        depth: left.depth.max(right.depth) + 1,
        tree: Term::MoreFactors(
            Boxed::new(alloc, left.tree)?,
            multiplying,
            Boxed::new(alloc, right.tree)?,
        ),
    })
}

// Reads `number | string | "(" expr ")" | "not" factor | var | id "(" expr {"," expr} ")"`.
#[cycle(expression)]
fn factor(alloc: Global, reader: &mut Reader<'_>, depth: Depth) -> Result<Deep<Factor>, Stop>
    ensures value { Parses (λ m. spec.factor m depth.forms depth.operators)
        (of_deep factor_in) reader.old result reader.new }
    ensures depth { IfOk result (λ found. HasDepth depth.operators found.depth
        (factor_depth (factor_in reader.old.spellings found.tree))) }
{
    match reader.kind() {
        Kind::Number => Ok(shallow(Factor::Literal(reader.numeral()?))),
        Kind::Text => Ok(shallow(Factor::Text(reader.quoted()?))),
        Kind::LeftParenthesis => {
            let inner = depth.in_form()?;
            let opened = reader.pass();
            let value = expr(alloc, reader, inner)?;
            let closed = reader.take(Kind::RightParenthesis)?;
            Ok(Deep {
                tree: Factor::Parenthesized(opened, Boxed::new(alloc, value.tree)?, closed),
                depth: value.depth,
            })
        }
        Kind::Not => {
            let inner = depth.in_operand(0)?;
            let line = reader.pass();
            let operand = factor(alloc, reader, inner)?;
            Ok(Deep {
                tree: Factor::Negated(line, Boxed::new(alloc, operand.tree)?),
                depth: operand.depth + 1,
            })
        }
        Kind::LeftBracket => Err(Stop::LeftOut(SETS)),
        Kind::Nil => Err(Stop::LeftOut(POINTERS)),
        _ => named_factor(alloc, reader, depth),
    }
}

// A factor without operators.
fn shallow(tree: Factor) -> Deep<Factor>
    ensures { result ≡ record { tree = tree; depth = 0 } }
{
    Deep { tree, depth: 0 }
}

// Reads `var | id "(" expr {"," expr} ")"`.
#[cycle(expression)]
fn named_factor(alloc: Global, reader: &mut Reader<'_>, depth: Depth) -> Result<Deep<Factor>, Stop>
    ensures value { ParsesIn (length reader.old.tokens) (λ m. spec.named_by (spec.factor m) m depth.forms
        depth.operators) (of_deep factor_in) reader.old result reader.new }
    ensures depth { IfOk result (λ found. HasDepth depth.operators found.depth
        (factor_depth (factor_in reader.old.spellings found.tree))) }
{
    let name = reader.ident()?;
    match reader.kind() {
        Kind::LeftParenthesis => {
            let found = function_call(alloc, reader, depth, name)?;
            Ok(Deep {
                tree: Factor::Call(Boxed::new(alloc, found.tree)?),
                depth: found.depth,
            })
        }
        _ => {
            let found = variable(alloc, reader, depth, name)?;
            Ok(Deep {
                tree: Factor::Variable(Boxed::new(alloc, found.tree)?),
                depth: found.depth,
            })
        }
    }
}

// Reads `"(" expr {"," expr} ")"` behind the name of a function.
#[cycle(expression)]
fn function_call(
    alloc: Global,
    reader: &mut Reader<'_>,
    depth: Depth,
    name: Ident,
) -> Result<Deep<FunctionCall>, Stop>
    requires opens { k.LeftParenthesis ≡ (head reader.old.tokens).kind }
    requires fits { Fits (head reader.old.tokens).kind (head reader.old.tokens).payload }
    ensures value { Parses (λ m. look (spec.behind_name (spec.factor m) m depth.forms depth.operators
        (ident_in reader.old.spellings name))) (of_deep call_in) reader.old result reader.new }
    ensures depth { IfOk result (λ found. HasDepth depth.operators found.depth
        (factor_depth (call_in reader.old.spellings found.tree))) }
{
    let inner = depth.in_form()?;
    let opened = reader.pass();
    let arguments = exprs(alloc, reader, inner)?;
    let closed = reader.take(Kind::RightParenthesis)?;
    Ok(Deep {
        tree: FunctionCall {
            name,
            opened,
            arguments: arguments.tree,
            closed,
        },
        depth: arguments.depth,
    })
}

// Reads `{"[" expr {"," expr} "]" | "." id | "^"}` behind a name.
#[cycle(expression)]
pub(crate) fn variable(
    alloc: Global,
    reader: &mut Reader<'_>,
    depth: Depth,
    name: Ident,
) -> Result<Deep<Variable>, Stop>
    ensures value { Parses (λ m. spec.variable m depth.forms depth.operators (ident_in reader.old.spellings name))
        (of_deep variable_in) reader.old result reader.new }
    ensures depth { IfOk result (λ found. HasDepth depth.operators found.depth
        (variable_depth (variable_in reader.old.spellings found.tree))) }
{
    let mut selectors = Items::new(alloc);
    let mut deepest = 0;
    'more: loop {
        match reader.kind() {
            Kind::LeftBracket | Kind::Dot | Kind::Caret => {
                let found = selector(alloc, reader, depth)?;
                deepest = found.depth.max(deepest);
                selectors.push(found.tree)?;
            }
            _ => {
                return Ok(Deep {
                    tree: Variable { name, selectors },
                    depth: deepest,
                });
            }
        }
    }
}

// Reads `"[" expr {"," expr} "]" | "." id | "^"`.
#[cycle(expression)]
fn selector(alloc: Global, reader: &mut Reader<'_>, depth: Depth) -> Result<Deep<Selector>, Stop>
    requires { BeginsSelector (head reader.old.tokens).kind }
    ensures value { (v : VariableTree) → Parses
        (λ m. a_turn (spec.behind_variable (spec.factor m) m depth.forms depth.operators) v)
        (λ spellings found. selector_in spellings found.tree v) reader.old result reader.new }
    ensures depth { IfOk result (λ found. (v : VariableTree)
        → variable_depth (selector_in reader.old.spellings found.tree v) ≡ max (variable_depth v) found.depth) }
    ensures few { IfOk result (λ found. found.depth ≤ NESTING_LIMIT - depth.operators) }
    ensures further { OnOk result (length reader.new.tokens < length reader.old.tokens) }
{
    match reader.kind() {
        Kind::LeftBracket => {
            let inner = depth.in_form()?;
            let opened = reader.pass();
            let indexes = exprs(alloc, reader, inner)?;
            let closed = reader.take(Kind::RightBracket)?;
            Ok(Deep {
                tree: Selector::Indexes(opened, Boxed::new(alloc, indexes.tree)?, closed),
                depth: indexes.depth,
            })
        }
        Kind::Dot => {
            let line = reader.pass();
            Ok(Deep {
                tree: Selector::Field(line, reader.ident()?),
                depth: 0,
            })
        }
        _ => Ok(Deep {
            tree: Selector::Buffer(reader.pass()),
            depth: 0,
        }),
    }
}

// Reads `expr {"," expr}`.
#[cycle(expression)]
fn exprs(alloc: Global, reader: &mut Reader<'_>, depth: Depth) -> Result<Deep<Exprs>, Stop>
    ensures value { Parses (λ m. spec.exprs m depth.forms depth.operators)
        (of_deep exprs_in) reader.old result reader.new }
    ensures depth { IfOk result (λ found. HasDepth depth.operators found.depth
        (exprs_depth (exprs_in reader.old.spellings found.tree))) }
{
    let first = expr(alloc, reader, depth)?;
    let mut more = Items::new(alloc);
    let mut deepest = first.depth;
    'more: loop {
        match reader.kind() {
            Kind::Comma => {
                let line = reader.pass();
                let found = expr(alloc, reader, depth)?;
                deepest = found.depth.max(deepest);
                more.push(MoreExpr {
                    line,
                    value: found.tree,
                })?;
            }
            _ => {
                return Ok(Deep {
                    tree: Exprs {
                        first: first.tree,
                        more,
                    },
                    depth: deepest,
                });
            }
        }
    }
}
