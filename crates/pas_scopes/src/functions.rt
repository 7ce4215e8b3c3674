//! Calls of functions (ISO 7185, 6.7.3, in this project's profile).
ghost use Rattle.std.specs.Prelude.{◌≡◌, ◌≢◌, ◌∷◌, [], ℕ, ◌+◌, ◌&&◌, List, map, Some, None, is_some, codes};
ghost use Rattle.std.specs.Prelude.{option_map, IfOk, OnErr};
ghost use Rattle.std.specs.Option.{option_copied};
ghost use Rattle.wb_base.specs.declared.faults.TheConstants.{WRONG_TYPE as WRONG_TYPE_CODE};
ghost use Rattle.pas_tokens.specs.Cutting.{wrong};
ghost use Rattle.pas_syntax.specs.Views.{ident_in, quoted_in, expr_in, sum_in, term_in, factor_in, call_in, exprs_in};
ghost use Rattle.pas_syntax.specs.Tree as tree;
ghost use Rattle.pas_syntax.specs.declared.tree.Expr.TheViews.{out-Exprs};
ghost use Rattle.pas_syntax.specs.Words.{Word, name_at, text_at, expr_words, sum_words, term_words, factor_words};
ghost use Rattle.pas_typed.specs.Types.{Table as SpecTable};
ghost use Rattle.pas_typed.specs.Typed as typed;
ghost use Rattle.pas_typed.specs.Typed.{Value as SpecValue, Passed as SpecPassed};
ghost use Rattle.pas_typed.specs.TypeOf.{type_of, type_of_function};
ghost use Rattle.pas_typed.specs.TypedViews.{value_view, place_view, passed_view, passed_views, variable_view};
ghost use Rattle.pas_typed.specs.TypedViews.{heading_view, mode_view, function_view, file_test_view};
ghost use Rattle.pas_typed.specs.TypeViews.{type_view};
ghost use Rattle.pas_rules.specs.Marks.{at_first, checked, unless, Judged as SpecJudged};
ghost use Rattle.pas_rules.specs.Scopes as spec_entity;
ghost use Rattle.pas_rules.specs.Scopes.{standard_file, entity_of, routine};
ghost use Rattle.pas_rules.specs.Expressions as spec;
ghost use Rattle.pas_scopes.specs.NameViews.{entity_view};
ghost use Rattle.pas_scopes.specs.ScopeViews.{scopes_view, IsClear};
ghost use Rattle.pas_scopes.specs.Answers.{end_in, EndsAs, Answers, FailsBy, StandsAs, Stands};
ghost use Rattle.pas_rules.specs.TypeForms.{char_in, undoubled};
ghost use Rattle.pas_scopes.specs.Arguments.{ShowsFirst, first_name_shows, taken_by, taken_as, passing_in};
ghost use Rattle.pas_scopes.specs.Arguments.{plainly, passing_part, called_part, sole_part, is_asked_of};
ghost use Rattle.pas_scopes.specs.Arguments.{not_asked};

use crate::constants::single_byte;
use crate::expressions::value_of;
use crate::judged::{End, Judged};
use crate::names::Entity;
use crate::scopes::Scopes;
use crate::stop::{Stop, demand, fault, left_out};
use crate::variables::whole;
use pas_syntax::tree::{Expr, Exprs, Factor, FunctionCall, Ident, Quoted, Sum, Term};
use pas_typed::typed::{Call, FileTest, Function, Heading, Mode, Passed, Place, Value, Variable};
use pas_typed::types::{Base, PasType};
use sqlite_items::{Boxed, Items};
use wb_base::faults::{FILE_RULE, STRINGS_OUTSIDE_WRITE, UNKNOWN_NAME, WRONG_TYPE};

// What the name of a routine means as a value: the call of a function that takes no arguments. One that takes some
// shows it at the token behind, and stays known by its type.
pub(crate) fn function_alone(
    scopes: &Scopes<'_>,
    ident: Ident,
    number: u32,
) -> Result<Judged<Value>, Stop>
    ensures { (n : ℕ) → Answers (name_at n (ident_in scopes.now.spellings.now ident) ∷ [])
        (spec.function_alone number (spec.heading_of (scopes_view scopes.now) number)) value_view result }
{
    match scopes.heading_of(number) {
        Some(heading) => heading_alone(scopes, ident, number, heading),
        // No text leads here: each routine that has a name has a heading.
        None => Err(Stop::OutOfMemory),
    }
}

// The same of a routine with this heading.
fn heading_alone(
    scopes: &Scopes<'_>,
    ident: Ident,
    number: u32,
    heading: &Heading,
) -> Result<Judged<Value>, Stop>
    ensures { (n : ℕ) → Answers (name_at n (ident_in scopes.now.spellings.now ident) ∷ [])
        (spec.function_alone number (Some (heading_view scopes.now.spellings.now heading.now))) value_view result }
{
    match heading.result {
        Some(pas_type) => {
            let call = Call {
                routine: number,
                pas_type,
                passed: Items::new(scopes.alloc),
            };
            let value = Value::Call(Boxed::new(scopes.alloc, call)?);
            let end = End::lawful(ident.line);
            if heading.parameters.is_empty() {
                Ok(Judged { value, end })
            } else {
                Ok(Judged {
                    value,
                    end: end.short(),
                })
            }
        }
        None => Err(fault(WRONG_TYPE, ident.line)),
    }
}

// What the name of a required function in this line means, which shows at the token behind that its argument is
// missing.
pub(crate) fn missing_arguments(function: Function, line: u32) -> Judged<Value>
    ensures { (word : Word) (table : SpecTable) → word.token.line ≡ line → EndsAs (word ∷ [])
        (spec.missing_arguments (spec.any_of table (type_of_function (function_view function))))
        (value_view result.value) (end_in result.end) }
{
    let base = match function {
        Function::Ord | Function::Abs => Base::Integer,
        Function::Chr => Base::Char,
        Function::Odd => Base::Boolean,
    };
    Judged {
        value: Value::Constant(base, 0),
        end: End::lawful(line).short(),
    }
}

// What a question to `input` means. Where that is no parameter of the program, it stays known as a boolean.
pub(crate) fn test_alone(
    scopes: &Scopes<'_>,
    ident: Ident,
    test: FileTest,
) -> Result<Judged<Value>, Stop>
    ensures { (n : ℕ) → Answers (name_at n (ident_in scopes.now.spellings.now ident) ∷ [])
        (spec.test_alone (file_test_view test) (standard_file (scopes_view scopes.now) (codes "input"))) value_view
        result }
{
    match scopes.standard_file(b"input") {
        Some(slot) => {
            let file = Boxed::new(scopes.alloc, whole(scopes, slot))?;
            Ok(Judged::lawful(Value::Tested(test, file), ident.line))
        }
        None => {
            let unknown = Judged::lawful(Value::Constant(Base::Boolean, 0), ident.line);
            Ok(unknown.noted(false, FILE_RULE))
        }
    }
}

// What the call of a function with arguments means.
#[cycle(expression)]
pub(crate) fn called(scopes: &Scopes<'_>, call: &FunctionCall) -> Result<Judged<Value>, Stop>
    ensures { IsClear (scopes_view scopes.now) → (lead deep : ℕ)
        → Answers (factor_words lead deep (call_in scopes.now.spellings.now call.now))
        (spec.factor_of (scopes_view scopes.now) (call_in scopes.now.spellings.now call.now)) value_view result }
{
    match scopes.named(call.name) {
        Some(entity) => called_as(scopes, entity, call.name, &call.arguments, call.closed),
        None => Err(fault(UNKNOWN_NAME, call.name.line)),
    }
}

// What the call with arguments of a name means that stands for this.
#[cycle(expression)]
fn called_as(
    scopes: &Scopes<'_>,
    entity: Entity,
    name: Ident,
    arguments: &Exprs,
    closed: u32,
) -> Result<Judged<Value>, Stop>
    ensures { IsClear (scopes_view scopes.now) → entity_view entity ≢ spec_entity.unclear
        → (lead deep opened : ℕ) → Answers
        (factor_words lead deep (tree.function_call (ident_in scopes.now.spellings.now name) opened
        (exprs_in scopes.now.spellings.now arguments.now) closed))
        (spec.as_call (scopes_view scopes.now) (map spec.bare_argument
        (spec.values_of (scopes_view scopes.now) (exprs_in scopes.now.spellings.now arguments.now)))
        (Some (entity_view entity))) value_view result }
{
    match entity {
        Entity::Routine(number) => routine_called(scopes, name, number, arguments, closed),
        Entity::Function(function) => applied(scopes, function, arguments, closed),
        Entity::FileTest(test) => tested(scopes, test, arguments, closed),
        _ => Err(fault(WRONG_TYPE, name.line)),
    }
}

// What the call of a declared function with arguments means.
#[cycle(expression)]
fn routine_called(
    scopes: &Scopes<'_>,
    name: Ident,
    number: u32,
    arguments: &Exprs,
    closed: u32,
) -> Result<Judged<Value>, Stop>
    ensures { IsClear (scopes_view scopes.now) → (lead deep opened : ℕ) → Answers
        (factor_words lead deep (tree.function_call (ident_in scopes.now.spellings.now name) opened
        (exprs_in scopes.now.spellings.now arguments.now) closed))
        (spec.as_call (scopes_view scopes.now) (map spec.bare_argument
        (spec.values_of (scopes_view scopes.now) (exprs_in scopes.now.spellings.now arguments.now)))
        (Some (routine number))) value_view result }
{
    match scopes.heading_of(number) {
        Some(heading) => match heading.result {
            Some(pas_type) => {
                let passed = passed_to(scopes, &heading.parameters, arguments, closed)?;
                call_of(scopes, number, pas_type, passed)
            }
            None => Err(fault(WRONG_TYPE, name.line)),
        },
        // No text leads here: each routine that has a name has a heading.
        None => Err(Stop::OutOfMemory),
    }
}

// The call of a function with these arguments.
fn call_of(
    scopes: &Scopes<'_>,
    number: u32,
    pas_type: PasType,
    passed: Judged<Items<Passed>>,
) -> Result<Judged<Value>, Stop>
    ensures { (words : List Word) (part : SpecJudged SpecPassed)
        → EndsAs words part (passed_views passed.value) (end_in passed.end)
        → Answers words (called_part number (type_view pas_type) part) value_view result }
{
    let call = Call {
        routine: number,
        pas_type,
        passed: passed.value,
    };
    Ok(Judged {
        value: Value::Call(Boxed::new(scopes.alloc, call)?),
        end: passed.end,
    })
}

// The arguments before the parenthesis in this line, as they are passed. Too few show it at that.
#[cycle(expression)]
fn passed_to(
    scopes: &Scopes<'_>,
    parameters: &Items<Variable>,
    arguments: &Exprs,
    closed: u32,
) -> Result<Judged<Items<Passed>>, Stop>
    ensures { IsClear (scopes_view scopes.now) → (lead deep opened : ℕ) (name : tree.Ident) → Answers
        (factor_words lead deep (tree.function_call name opened (exprs_in scopes.now.spellings.now arguments.now)
        closed))
        (passing_part (scopes_view scopes.now).outer.types
        (map (variable_view scopes.now.spellings.now) parameters.now) (map spec.bare_argument
        (spec.values_of (scopes_view scopes.now) (exprs_in scopes.now.spellings.now arguments.now))))
        passed_views result }
{
    let mut passed = Items::new(scopes.alloc);
    let mut last = argument_of(scopes, parameters.get(0), &arguments.first)?;
    for (index, more) in arguments.more.as_slice().iter().enumerate() {
        passed.push(last.before(more.line)?)?;
        last = argument_of(scopes, parameters.get(index + 1), &more.value)?;
    }
    let last = last.closed(closed)?;
    passed.push(last.value)?;
    demand(parameters.len() <= passed.len(), WRONG_TYPE, closed)?;
    Ok(Judged {
        value: passed,
        end: last.end,
    })
}

/// An argument as it is passed to a parameter, if there is one. One too many shows it at its first token.
#[cycle(expression)]
pub fn argument_of(
    scopes: &Scopes<'_>,
    parameter: Option<&Variable>,
    expr: &Expr,
) -> Result<Judged<Passed>, Stop>
    ensures { IsClear (scopes_view scopes.now) → (lead deep : ℕ)
        → Stands (expr_words lead deep (expr_in scopes.now.spellings.now expr.now))
        (taken_by (option_map (passing_in scopes.now.spellings.now (scopes_view scopes.now).outer.types)
        (option_copied parameter.entry))
        (spec.bare_argument (spec.value_of (scopes_view scopes.now) (expr_in scopes.now.spellings.now expr.now))))
        passed_view result }
{
    match parameter {
        Some(parameter) => {
            let found = value_of(scopes, expr)?;
            passed_by(scopes, *parameter, found)
        }
        None => Err(one_too_many(scopes, expr)),
    }
}

// A value as it is passed.
fn passed_by(
    scopes: &Scopes<'_>,
    parameter: Variable,
    found: Judged<Value>,
) -> Result<Judged<Passed>, Stop>
    ensures { (words : List Word) (part : SpecJudged SpecValue)
        → EndsAs words part (value_view found.value) (end_in found.end)
        → Stands words (taken_as (passing_in scopes.now.spellings.now (scopes_view scopes.now).outer.types parameter)
        part) passed_view result }
{
    let is_fit = fits_parameter(scopes, parameter, &found.value);
    let found = found.noted(is_fit, WRONG_TYPE);
    found.end.stands()?;
    let value = passed_as(parameter, found.value, found.end.line)?;
    Ok(Judged {
        value,
        end: found.end,
    })
}

// A value as it is passed, of which the last token stands in this line.
fn passed_as(parameter: Variable, value: Value, line: u32) -> Result<Passed, Stop>
    ensures ok { IfOk result (λ found. passed_view found
        ≡ spec.passed_by (mode_view parameter.mode) (type_view parameter.pas_type) (value_view value)) }
    ensures err { OnErr result ((mode_view parameter.mode ≡ typed.by_name)
        × (spec.place_in (value_view value) ≡ None)) }
{
    match parameter.mode {
        Mode::ByName => Ok(Passed::Reference(place_alone(value, line)?.into_inner())),
        _ => Ok(Passed::Value(parameter.pas_type, value)),
    }
}

// Whether a value may be passed: a variable parameter takes a variable of its type that is no buffer of a file,
// another one a compatible value.
fn fits_parameter(scopes: &Scopes<'_>, parameter: Variable, value: &Value) -> bool
    ensures { spec.demand_of_mode (scopes_view scopes.now).outer.types (mode_view parameter.mode)
        (type_view parameter.pas_type) (value_view value.now) ≡ unless result (wrong WRONG_TYPE_CODE) }
{
    match parameter.mode {
        Mode::ByName => is_reference(parameter.pas_type, value),
        _ => scopes
            .types
            .are_compatible(parameter.pas_type, value.pas_type()),
    }
}

// Whether a value is a variable of a type that is no buffer of a file.
fn is_reference(pas_type: PasType, value: &Value) -> bool
    ensures { result ≡ spec.is_reference (type_view pas_type) (spec.place_in (value_view value.now)) }
{
    match value {
        Value::Read(place) => pas_type.is(place.get().pas_type()) && !place.get().is_buffer(),
        _ => false,
    }
}

// What a required function of its one argument means.
#[cycle(expression)]
fn applied(
    scopes: &Scopes<'_>,
    function: Function,
    arguments: &Exprs,
    closed: u32,
) -> Result<Judged<Value>, Stop>
    ensures { IsClear (scopes_view scopes.now) → (lead deep opened : ℕ) (name : tree.Ident) → Answers
        (factor_words lead deep (tree.function_call name opened (exprs_in scopes.now.spellings.now arguments.now)
        closed))
        (spec.as_call (scopes_view scopes.now) (map spec.bare_argument
        (spec.values_of (scopes_view scopes.now) (exprs_in scopes.now.spellings.now arguments.now)))
        (Some (spec_entity.function (function_view function)))) value_view result }
{
    let found = value_of(scopes, &arguments.first)?;
    let found = taken(scopes, function, found)?;
    let found = sole(scopes, arguments, closed, found)?;
    Ok(Judged {
        value: Value::Applied(function, Boxed::new(scopes.alloc, found.value)?),
        end: found.end,
    })
}

// A value that a required function takes.
fn taken(
    scopes: &Scopes<'_>,
    function: Function,
    found: Judged<Value>,
) -> Result<Judged<Value>, Stop>
    ensures { (words : List Word) (part : SpecJudged SpecValue)
        → EndsAs words part (value_view found.value) (end_in found.end)
        → Stands words (taken_as (plainly (spec.function_demand (scopes_view scopes.now).outer.types
        (function_view function))) part) value_view result }
{
    let is_fit = takes(scopes, function, found.value.pas_type());
    let found = found.noted(is_fit, WRONG_TYPE);
    found.end.stands()?;
    Ok(found)
}

// Whether a required function takes values of a type.
fn takes(scopes: &Scopes<'_>, function: Function, pas_type: PasType) -> bool
    ensures { (value : SpecValue) → type_of value ≡ type_view pas_type
        → spec.function_demand (scopes_view scopes.now).outer.types (function_view function) value
        ≡ unless result (wrong WRONG_TYPE_CODE) }
{
    match function {
        Function::Ord => scopes.types.base_of(pas_type).is_some(),
        _ => scopes.types.is_of(Base::Integer, pas_type),
    }
}

// The first argument of a call, behind which none may stand.
fn sole<T: Drop>(
    scopes: &Scopes<'_>,
    arguments: &Exprs,
    closed: u32,
    found: Judged<T>,
) -> Result<Judged<T>, Stop>
    ensures { (lead deep opened : ℕ) (name : tree.Ident) (demand : spec.Demand) (view : T → SpecValue)
        → StandsAs (expr_words (lead + 1) deep (expr_in scopes.now.spellings.now (out-Exprs arguments.now).first))
        (taken_as (plainly demand) (spec.value_of (scopes_view scopes.now)
        (expr_in scopes.now.spellings.now (out-Exprs arguments.now).first))) (view found.value) (end_in found.end)
        → Answers
        (factor_words lead deep (tree.function_call name opened (exprs_in scopes.now.spellings.now arguments.now)
        closed))
        (sole_part demand (map spec.bare_argument
        (spec.values_of (scopes_view scopes.now) (exprs_in scopes.now.spellings.now arguments.now))))
        view result }
{
    match arguments.more.get(0) {
        Some(more) => {
            found.before(more.line)?;
            Err(one_too_many(scopes, &more.value))
        }
        None => found.closed(closed),
    }
}

// What a question to a file means.
#[cycle(expression)]
fn tested(
    scopes: &Scopes<'_>,
    test: FileTest,
    arguments: &Exprs,
    closed: u32,
) -> Result<Judged<Value>, Stop>
    ensures { IsClear (scopes_view scopes.now) → (lead deep opened : ℕ) (name : tree.Ident) → Answers
        (factor_words lead deep (tree.function_call name opened (exprs_in scopes.now.spellings.now arguments.now)
        closed))
        (spec.as_call (scopes_view scopes.now) (map spec.bare_argument
        (spec.values_of (scopes_view scopes.now) (exprs_in scopes.now.spellings.now arguments.now)))
        (Some (spec_entity.file_test (file_test_view test)))) value_view result }
{
    let found = value_of(scopes, &arguments.first)?;
    let file = asked(scopes, test, found)?;
    let file = sole(scopes, arguments, closed, file)?;
    Ok(Judged {
        value: Value::Tested(test, file.value),
        end: file.end,
    })
}

// The file that a value is of which a question is asked: `eoln` asks a text.
fn asked(
    scopes: &Scopes<'_>,
    test: FileTest,
    found: Judged<Value>,
) -> Result<Judged<Boxed<Place>>, Stop>
    ensures { (words : List Word) (part : SpecJudged SpecValue)
        → EndsAs words part (value_view found.value) (end_in found.end)
        → Stands words (taken_as (plainly (spec.test_demand (scopes_view scopes.now).outer.types
        (file_test_view test))) part) (λ place. typed.read (place_view place)) result }
{
    let is_file = is_file(scopes, &found.value);
    let is_fit = is_asked(test, is_file, found.value.pas_type());
    let found = found.noted(is_fit, no_question(is_file));
    found.end.stands()?;
    Ok(Judged {
        value: place_alone(found.value, found.end.line)?,
        end: found.end,
    })
}

// Whether a question may be asked a value of a type, which is a file or not: `eoln` asks a text.
fn is_asked(test: FileTest, is_file: bool, pas_type: PasType) -> bool
    ensures { result ≡ is_file && is_asked_of (file_test_view test) (type_view pas_type) }
{
    match test {
        FileTest::Eof => is_file,
        FileTest::Eoln => is_file && pas_type.is(PasType::Text),
    }
}

// What a value shows of which no question may be asked.
fn no_question(is_file: bool) -> u16
    ensures { result ≡ not_asked is_file }
{
    if is_file { FILE_RULE } else { WRONG_TYPE }
}

/// The place that a value is, of which the last token stands in this line.
pub fn place_alone(value: Value, line: u32) -> Result<Boxed<Place>, Stop>
    ensures ok { IfOk result (λ place. value_view value ≡ typed.read (place_view place)) }
    ensures err { OnErr result (spec.place_in (value_view value) ≡ None) }
{
    match value {
        Value::Read(place) => Ok(place),
        _ => Err(fault(WRONG_TYPE, line)),
    }
}

/// Whether a value is a file.
pub fn is_file(scopes: &Scopes<'_>, value: &Value) -> bool
    ensures { result ≡ is_some (spec.file_in (scopes_view scopes.now).outer.types (value_view value.now)) }
{
    match value {
        Value::Read(place) => scopes.types.is_file(place.get().pas_type()),
        _ => false,
    }
}

/// Why an expression is refused that is one too many: its first token shows it, unless it shows a lower fault.
pub fn one_too_many(scopes: &Scopes<'_>, expr: &Expr) -> Stop
    ensures fails { (lead deep : ℕ) → FailsBy (expr_words lead deep (expr_in scopes.now.spellings.now expr.now))
        (at_first (wrong WRONG_TYPE_CODE ∷ [])
        (spec.value_of (scopes_view scopes.now) (expr_in scopes.now.spellings.now expr.now)).marks) result }
    ensures first { (lead deep : ℕ) → ShowsFirst (expr_words lead deep (expr_in scopes.now.spellings.now expr.now))
        (spec.value_of (scopes_view scopes.now) (expr_in scopes.now.spellings.now expr.now)).marks.tokens result }
{
    match expr {
        Expr::Sum(sum) => first_of_sum(scopes, sum),
        Expr::Relation(left, _, _) => first_of_sum(scopes, left.get()),
    }
}

// The same of a sum.
fn first_of_sum(scopes: &Scopes<'_>, sum: &Sum) -> Stop
    ensures { (lead deep : ℕ) → ShowsFirst (sum_words lead deep (sum_in scopes.now.spellings.now sum.now))
        (spec.sum_of (scopes_view scopes.now) (sum_in scopes.now.spellings.now sum.now)).marks.tokens result }
{
    match sum {
        Sum::FirstTerm(term) => first_of_term(scopes, term),
        Sum::SignedTerm(sign, _) => fault(WRONG_TYPE, sign.line),
        Sum::MoreTerms(left, _, _) => first_of_sum(scopes, left.get()),
    }
}

// The same of a term.
fn first_of_term(scopes: &Scopes<'_>, term: &Term) -> Stop
    ensures { (lead deep : ℕ) → ShowsFirst (term_words lead deep (term_in scopes.now.spellings.now term.now))
        (spec.term_of (scopes_view scopes.now) (term_in scopes.now.spellings.now term.now)).marks.tokens result }
{
    match term {
        Term::FirstFactor(factor) => first_of_factor(scopes, factor),
        Term::MoreFactors(left, _, _) => first_of_term(scopes, left.get()),
    }
}

// The same of a factor.
fn first_of_factor(scopes: &Scopes<'_>, factor: &Factor) -> Stop
    ensures { (lead deep : ℕ) → ShowsFirst (factor_words lead deep (factor_in scopes.now.spellings.now factor.now))
        (spec.factor_of (scopes_view scopes.now) (factor_in scopes.now.spellings.now factor.now)).marks.tokens
        result }
{
    match factor {
        Factor::Literal(numeral) => fault(WRONG_TYPE, numeral.line),
        Factor::Text(quoted) => first_of_text(scopes, *quoted),
        Factor::Parenthesized(line, _, _) => fault(WRONG_TYPE, *line),
        Factor::Negated(line, _) => fault(WRONG_TYPE, *line),
        Factor::Variable(variable) => first_of_name(scopes, variable.get().name),
        Factor::Call(call) => first_of_name(scopes, call.get().name),
    }
}

// The same of a string, of which one that is no char is left out here.
fn first_of_text(scopes: &Scopes<'_>, quoted: Quoted) -> Stop
    ensures { (n : ℕ) → ShowsFirst (text_at n (quoted_in scopes.now.spellings.now quoted) ∷ [])
        (char_in (undoubled (quoted_in scopes.now.spellings.now quoted).text)).marks.tokens result }
{
    match single_byte(scopes.spelling(quoted.span)) {
        Some(_) => fault(WRONG_TYPE, quoted.line),
        None => left_out(STRINGS_OUTSIDE_WRITE, quoted.line),
    }
}

// The same of a name.
fn first_of_name(scopes: &Scopes<'_>, ident: Ident) -> Stop
    ensures { result ≡ first_name_shows ident.line
        (entity_of (scopes_view scopes.now) (ident_in scopes.now.spellings.now ident).name) }
{
    match scopes.named(ident) {
        Some(_) => fault(WRONG_TYPE, ident.line),
        None => fault(UNKNOWN_NAME, ident.line),
    }
}
