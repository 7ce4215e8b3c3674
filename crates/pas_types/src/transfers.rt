//! Reading and writing (ISO 7185, 6.9, in this project's profile).
ghost use Rattle.std.specs.Prelude.{◌≡◌, ◌∷◌, [], ℕ, List, true, false, not, is_some, ◌&&◌, ◌||◌, map, Option};
ghost use Rattle.std.specs.Prelude.{Some, None, option_map, option_and_then, slice_get, if◌then◌else◌, ◌+◌};
ghost use Rattle.std.specs.Prelude.{length, nat_lt};
ghost use Rattle.pas_syntax.specs.Tree as tree;
ghost use Rattle.pas_syntax.specs.Views.{expr_in, sum_in, term_in, factor_in, quoted_in};
ghost use Rattle.pas_syntax.specs.ProgramViews.{argument_in, arguments_in};
ghost use Rattle.pas_tokens.specs.declared.kinds.Kind.TheVariants as k;
ghost use Rattle.pas_syntax.specs.Words.{Word, at, text_at, words_if, width_words, expr_words, argument_words};
ghost use Rattle.pas_syntax.specs.Words.{arguments_words};
ghost use Rattle.pas_typed.specs.Types.{component_of};
ghost use Rattle.pas_typed.specs.Types as spec_type;
ghost use Rattle.pas_typed.specs.Typed.{Value as SpecValue, Place as SpecPlace, read, writes_bytes};
ghost use Rattle.pas_typed.specs.TypeOf.{type_of, type_of_place};
ghost use Rattle.pas_typed.specs.TypeViews.{type_view};
ghost use Rattle.pas_typed.specs.TypedViews.{value_view, place_view, slot_view, item_view, statement_view};
ghost use Rattle.pas_rules.specs.Calls as spec;
ghost use Rattle.pas_rules.specs.Expressions as spec_value;
ghost use Rattle.wb_base.specs.declared.faults.TheConstants.{FILE_RULE as FILE_RULE_CODE};
ghost use Rattle.pas_tokens.specs.Cutting.{wrong};
ghost use Rattle.pas_rules.specs.Scopes.{Scopes as SpecScopes};
ghost use Rattle.pas_rules.specs.Marks.{checked, unless, Judged as SpecJudged};
ghost use Rattle.pas_scopes.specs.ScopeViews.{scopes_view, IsClear};
ghost use Rattle.pas_scopes.specs.Answers.{end_in, EndsAs, Stands, Settles};
ghost use Rattle.pas_scopes.specs.inner.Listed.{line_behind as spec_line_behind, items_behind, Gathers};
ghost use Rattle.pas_types.specs.inner.Transfers.{reading, writing, extent_view, Makes, MeansFile, wrongs_in};
ghost use Rattle.pas_types.specs.inner.Transfers.{place_by, width_refused, refused_by, behind_actuals};
ghost use Rattle.pas_types.specs.inner.Transfers.{NamesFile, IsFileAlone, component_of_item, item_written, writes_by};
ghost use Rattle.pas_types.specs.inner.Transfers.{IsOnText, IsLongText, text_alone, string_written};
ghost use Rattle.pas_typed.specs.Texts.{undoubled};

use pas_scopes::expressions::{only, value_of};
use pas_scopes::functions::place_alone;
use pas_scopes::judged::Judged;
use pas_scopes::scopes::Scopes;
use pas_scopes::stop::{Stop, Wrong, demand, fault};
use pas_scopes::variables::whole;
use pas_syntax::tree::{Argument, Arguments, Expr, Factor, Quoted, Sum, Term};
use pas_typed::typed::{Item, Passed, Place, Slot, Statement, Value};
use pas_typed::types::{Base, PasType};
use sqlite_items::{Boxed, Items};
use wb_base::faults::{FILE_RULE, PASCAL_LEFT_OUT, READING_NUMBERS, WRONG_TYPE};

// Whether items alone are read or written, or with the end of a line.
#[derive(Clone, Copy, Debug, PartialEq, Eq)]
pub(crate) enum Extent {
    ItemsAlone,
    WholeLine,
}

// What a transfer without arguments is on: the file that it means, with its name in this line.
fn standard_only(scopes: &Scopes<'_>, slot: Option<Slot>, line: u32) -> Result<Place, Stop>
    ensures { MeansFile (option_map slot_view slot) line result }
{
    match slot {
        Some(slot) => Ok(whole(scopes, slot)),
        None => Err(fault(FILE_RULE, line)),
    }
}

// What `read` or `readln` without arguments means.
pub(crate) fn read_alone(scopes: &Scopes<'_>, line: u32, extent: Extent) -> Result<Statement, Stop>
    ensures { (word : Word) → word.token.line ≡ line → Settles (word ∷ [])
        (spec.procedure_alone (scopes_view scopes.now) (reading extent)) (statement_view scopes.now.spellings.now)
        result }
{
    let file = standard_only(scopes, scopes.standard_file(b"input"), line)?;
    match extent {
        Extent::ItemsAlone => Err(Stop::Missing),
        Extent::WholeLine => reads(scopes, extent, file, Items::new(scopes.alloc)),
    }
}

// What `write` or `writeln` without arguments means.
pub(crate) fn write_alone(scopes: &Scopes<'_>, line: u32, extent: Extent) -> Result<Statement, Stop>
    ensures { (word : Word) → word.token.line ≡ line → Settles (word ∷ [])
        (spec.procedure_alone (scopes_view scopes.now) (writing extent)) (statement_view scopes.now.spellings.now)
        result }
{
    let file = standard_only(scopes, scopes.standard_file(b"output"), line)?;
    match extent {
        Extent::ItemsAlone => Err(Stop::Missing),
        Extent::WholeLine => {
            let file = Boxed::new(scopes.alloc, file)?;
            Ok(Statement::WritesLine(file, Items::new(scopes.alloc)))
        }
    }
}

// Reading from a file into places.
fn reads(
    scopes: &Scopes<'_>,
    extent: Extent,
    file: Place,
    places: Items<Place>,
) -> Result<Statement, Stop>
    ensures { Makes (statement_view scopes.now.spellings.now)
        (spec.reads_by (extent_view extent) (place_view file) (map place_view places)) result }
{
    let file = Boxed::new(scopes.alloc, file)?;
    match extent {
        Extent::ItemsAlone => Ok(Statement::Reads(file, places)),
        Extent::WholeLine => Ok(Statement::ReadsLine(file, places)),
    }
}

// The place that is read from a file of this type.
fn read_item(scopes: &Scopes<'_>, file: PasType, argument: &Argument) -> Result<Judged<Place>, Stop>
    ensures { IsClear (scopes_view scopes.now) → (n : ℕ) (place : SpecPlace) → type_of_place place ≡ type_view file
        → is_some (component_of (scopes_view scopes.now).outer.types (type_view file)) ≡ true
        → Stands (argument_words n (argument_in scopes.now.spellings.now argument.now))
        (spec.read_item (scopes_view scopes.now).outer.types (Some place)
        (spec.actual_of (scopes_view scopes.now) (argument_in scopes.now.spellings.now argument.now)))
        place_view result }
{
    let found = value_of(scopes, &argument.value)?;
    let found = read_only(scopes, file, found)?;
    no_width(argument)?;
    Ok(found)
}

// The place that a value is which is read from a file of this type.
fn read_only(
    scopes: &Scopes<'_>,
    file: PasType,
    found: Judged<Value>,
) -> Result<Judged<Place>, Stop>
    ensures { (words : List Word) (part : SpecJudged SpecValue) (place : SpecPlace)
        → type_of_place place ≡ type_view file
        → is_some (component_of (scopes_view scopes.now).outer.types (type_view file)) ≡ true
        → EndsAs words part (value_view found.value) (end_in found.end)
        → Stands words (place_by (spec.read_demand (scopes_view scopes.now).outer.types (Some place)) part)
        place_view result }
{
    match unread(scopes, file, &found.value) {
        Some(wrong) => Err(found.end.refuses(wrong)),
        None => {
            found.end.stands()?;
            let line = found.end.line;
            let place = place_alone(found.value, line)?.into_inner();
            Ok(Judged {
                value: place,
                end: found.end,
            })
        }
    }
}

// Why a value is not read from a file of this type. From a text a char is read, into a variable, and from another file
// a component. Integers are not read from a text.
fn unread(scopes: &Scopes<'_>, file: PasType, value: &Value) -> Option<Wrong>
    ensures { (place : SpecPlace) → type_of_place place ≡ type_view file
        → is_some (component_of (scopes_view scopes.now).outer.types (type_view file)) ≡ true
        → spec.read_demand (scopes_view scopes.now).outer.types (Some place) (value_view value.now)
        ≡ wrongs_in result }
{
    if is_left_out(scopes, file, value) {
        return Some(Wrong {
            code: PASCAL_LEFT_OUT,
            which: READING_NUMBERS,
        });
    }
    if is_read(scopes, file, value) {
        None
    } else {
        Some(Wrong {
            code: WRONG_TYPE,
            which: 0,
        })
    }
}

// Whether reading a value from a file of this type is left out.
fn is_left_out(scopes: &Scopes<'_>, file: PasType, value: &Value) -> bool
    ensures { result ≡ (spec_type.same_type (type_view file) spec_type.text
        && (spec_type.is_of spec_type.integer (scopes_view scopes.now).outer.types (type_of (value_view value.now))
        && not (spec.is_call_by_name (value_view value.now)))) }
{
    file.is(PasType::Text) && is_number(scopes, value)
}

// Whether a value is an integer, and no function by its name alone.
fn is_number(scopes: &Scopes<'_>, value: &Value) -> bool
    ensures { result ≡ (spec_type.is_of spec_type.integer (scopes_view scopes.now).outer.types
        (type_of (value_view value.now)) && not (spec.is_call_by_name (value_view value.now))) }
{
    scopes.types.is_of(Base::Integer, value.pas_type()) && !is_call_by_name(value)
}

// Whether a value is the call of a function without arguments.
fn is_call_by_name(value: &Value) -> bool
    ensures { result ≡ spec.is_call_by_name (value_view value.now) }
{
    match value {
        Value::Call(call) => match call.get().passed.get(0) {
            Some(Passed::Value(_pas_type, _value)) => false,
            Some(Passed::Reference(_place)) => false,
            None => true,
        },
        _ => false,
    }
}

// Whether a value is a variable that takes what is read from a file of this type.
fn is_read(scopes: &Scopes<'_>, file: PasType, value: &Value) -> bool
    ensures { (component : spec_type.PasType)
        → component_of (scopes_view scopes.now).outer.types (type_view file) ≡ Some component
        → result ≡ (is_some (spec_value.place_in (value_view value.now)) && spec_type.are_compatible
        (scopes_view scopes.now).outer.types component (type_of (value_view value.now))) }
{
    match value {
        Value::Read(place) => takes(scopes, file, place.get().pas_type()),
        _ => false,
    }
}

// Whether components of a file of this type fit another type.
fn takes(scopes: &Scopes<'_>, file: PasType, pas_type: PasType) -> bool
    ensures { (component : spec_type.PasType)
        → component_of (scopes_view scopes.now).outer.types (type_view file) ≡ Some component
        → result ≡ spec_type.are_compatible (scopes_view scopes.now).outer.types component (type_view pas_type) }
{
    match scopes.types.component_of(file) {
        Some(component) => scopes.types.are_compatible(component, pas_type),
        None => false,
    }
}

// Refuses a width, at its colon.
fn no_width(argument: &Argument) -> Result<(), Stop>
    ensures { (spellings : List ℕ) → result ≡ width_refused (argument_in spellings argument.now).width }
{
    match &argument.width {
        Some(width) => Err(fault(WRONG_TYPE, width.line)),
        None => Ok(()),
    }
}

// A value that is written as a component of a file of this type.
fn component_item(
    scopes: &Scopes<'_>,
    file: PasType,
    argument: &Argument,
) -> Result<Judged<Value>, Stop>
    ensures { IsClear (scopes_view scopes.now) → (n : ℕ) (component : spec_type.PasType)
        → component_of (scopes_view scopes.now).outer.types (type_view file) ≡ Some component
        → Stands (argument_words n (argument_in scopes.now.spellings.now argument.now))
        (spec_value.met (spec.component_demand (scopes_view scopes.now).outer.types (Some component))
        (spec.without_width (spec.actual_of (scopes_view scopes.now)
        (argument_in scopes.now.spellings.now argument.now)))) value_view result }
{
    let found = value_of(scopes, &argument.value)?;
    let found = component_only(scopes, file, found)?;
    no_width(argument)?;
    Ok(found)
}

// A value that components of a file of this type fit.
fn component_only(
    scopes: &Scopes<'_>,
    file: PasType,
    found: Judged<Value>,
) -> Result<Judged<Value>, Stop>
    ensures { (words : List Word) (part : SpecJudged SpecValue) (component : spec_type.PasType)
        → component_of (scopes_view scopes.now).outer.types (type_view file) ≡ Some component
        → EndsAs words part (value_view found.value) (end_in found.end)
        → Stands words (checked (spec.component_demand (scopes_view scopes.now).outer.types (Some component)) part)
        value_view result }
{
    let is_fit = takes(scopes, file, found.value.pas_type());
    let found = found.noted(is_fit, WRONG_TYPE);
    found.end.stands()?;
    Ok(found)
}

// A value that is written on a text: an integer or a char.
fn printed_only(scopes: &Scopes<'_>, found: Judged<Value>) -> Result<Judged<Value>, Stop>
    ensures { (words : List Word) (part : SpecJudged SpecValue)
        → EndsAs words part (value_view found.value) (end_in found.end)
        → Stands words (checked (spec.printed_only (scopes_view scopes.now).outer.types) part) value_view result }
{
    let is_fit = is_printed(scopes, found.value.pas_type());
    let found = found.noted(is_fit, WRONG_TYPE);
    found.end.stands()?;
    Ok(found)
}

// Whether values of a type are written on a text.
fn is_printed(scopes: &Scopes<'_>, pas_type: PasType) -> bool
    ensures { result ≡ (spec_type.is_of spec_type.integer (scopes_view scopes.now).outer.types (type_view pas_type)
        || spec_type.is_of spec_type.char (scopes_view scopes.now).outer.types (type_view pas_type)) }
{
    scopes.types.is_of(Base::Integer, pas_type) || scopes.types.is_of(Base::Char, pas_type)
}

// What an integer or a char that is written on a text means, with its width or without.
fn printed_item(scopes: &Scopes<'_>, argument: &Argument) -> Result<Judged<Item>, Stop>
    ensures { IsClear (scopes_view scopes.now) → (n : ℕ)
        → Stands (argument_words n (argument_in scopes.now.spellings.now argument.now))
        (spec.item_on_text (scopes_view scopes.now).outer.types (spec.actual_of (scopes_view scopes.now)
        (argument_in scopes.now.spellings.now argument.now)) None) (item_view scopes.now.spellings.now) result }
{
    let found = value_of(scopes, &argument.value)?;
    let found = printed_only(scopes, found)?;
    match &argument.width {
        Some(width) => {
            let value = found.before(width.line)?;
            let given = width_of(scopes, &width.item)?;
            Ok(Judged {
                value: item_as(scopes, value, Some(given.value)),
                end: given.end,
            })
        }
        None => Ok(Judged {
            value: item_as(scopes, found.value, None),
            end: found.end,
        }),
    }
}

// What the width of an item means.
fn width_of(scopes: &Scopes<'_>, width: &Expr) -> Result<Judged<Value>, Stop>
    ensures { IsClear (scopes_view scopes.now) → (n : ℕ)
        → Stands (expr_words n 0 (expr_in scopes.now.spellings.now width.now))
        (checked (spec_value.only spec_type.integer (scopes_view scopes.now).outer.types)
        (spec_value.value_of (scopes_view scopes.now) (expr_in scopes.now.spellings.now width.now))) value_view
        result }
{
    let found = only(scopes, Base::Integer, value_of(scopes, width)?);
    found.end.stands()?;
    Ok(found)
}

// A value with a width or not, as it is written on a text.
fn item_as(scopes: &Scopes<'_>, value: Value, width: Option<Value>) -> Item
    ensures { item_view scopes.now.spellings.now result ≡ spec.item_of (scopes_view scopes.now).outer.types
        (value_view value) (option_map value_view width) }
{
    if scopes.types.is_of(Base::Char, value.pas_type()) {
        Item::Char(value, width)
    } else {
        Item::Number(value, width)
    }
}

// The line of the word behind an argument, of which this is the number among those behind the first one.
fn line_behind(arguments: &Arguments, index: usize) -> u32
    ensures { result ≡ spec_line_behind arguments.now.closed (slice_get arguments.now.items.more index) }
{
    match arguments.items.more.get(index) {
        Some(more) => more.line,
        None => arguments.closed,
    }
}

// The file that an argument names, if it does: a variable by itself, as a file is no part of anything.
fn named_file(scopes: &Scopes<'_>, argument: &Argument) -> Result<Option<Judged<Place>>, Stop>
    ensures { IsClear (scopes_view scopes.now) → (n : ℕ)
        → NamesFile (scopes_view scopes.now).outer.types
        (expr_words n 0 (expr_in scopes.now.spellings.now argument.now.value))
        (spec_value.value_of (scopes_view scopes.now) (expr_in scopes.now.spellings.now argument.now.value)) result }
{
    match value_of(scopes, &argument.value) {
        Ok(found) => Ok(file_alone(scopes, found)),
        Err(Stop::OutOfMemory) => Err(Stop::OutOfMemory),
        Err(Stop::Fault(_)) => Ok(None),
        Err(Stop::Missing) => Ok(None),
    }
}

// The file that a value is, if it is a variable by itself.
fn file_alone(scopes: &Scopes<'_>, found: Judged<Value>) -> Option<Judged<Place>>
    ensures { (words : List Word) (part : SpecJudged SpecValue)
        → EndsAs words part (value_view found.value) (end_in found.end)
        → IsFileAlone (scopes_view scopes.now).outer.types words part result }
{
    let Judged { value, end } = found;
    match value {
        Value::Read(place) => {
            let place = place.into_inner();
            if is_file_alone(scopes, &place) {
                Some(Judged { value: place, end })
            } else {
                None
            }
        }
        _ => None,
    }
}

// Whether a place is a file, and a variable by itself.
fn is_file_alone(scopes: &Scopes<'_>, place: &Place) -> bool
    ensures { spec.whole_file (scopes_view scopes.now).outer.types (read (place_view place.now))
        ≡ (if result then Some (place_view place.now) else None) }
{
    place.parts.is_empty() && scopes.types.is_file(place.pas_type())
}

// The file that an argument names, behind which no width may stand. Only a text has lines.
fn file_only(
    extent: Extent,
    argument: &Argument,
    found: Judged<Place>,
) -> Result<Judged<Place>, Stop>
    ensures { (scopes : SpecScopes) (spellings : List ℕ) (n : ℕ)
        → EndsAs (expr_words n 0 (expr_in spellings argument.now.value))
        (spec_value.value_of scopes (expr_in spellings argument.now.value)) (read (place_view found.value))
        (end_in found.end)
        → Stands (argument_words n (argument_in spellings argument.now))
        (spec_value.met (spec.demand_on_file (extent_view extent))
        (spec.without_width (spec.actual_of scopes (argument_in spellings argument.now))))
        (λ place. read (place_view place)) result }
{
    let has_lines = is_on(extent, found.value.pas_type());
    let found = found.noted(has_lines, FILE_RULE);
    found.end.stands()?;
    no_width(argument)?;
    Ok(found)
}

// Whether as much as this is read from a file of this type, or written on it.
fn is_on(extent: Extent, file: PasType) -> bool
    ensures { (value : SpecValue) → type_of value ≡ type_view file
        → spec.demand_on_file (extent_view extent) value ≡ unless result (wrong FILE_RULE_CODE) }
{
    match extent {
        Extent::ItemsAlone => true,
        Extent::WholeLine => file.is(PasType::Text),
    }
}

// Where items alone are read or written, there must be one behind the file. The parenthesis shows that none is.
fn some_item(extent: Extent, arguments: &Arguments) -> Result<(), Stop>
    ensures { (scopes : SpecScopes) (spellings : List ℕ) → result ≡ refused_by arguments.now.closed
        (spec.missing_items (extent_view extent) (behind_actuals scopes spellings arguments.now.items.more)) }
{
    match extent {
        Extent::ItemsAlone => demand(
            !arguments.items.more.is_empty(),
            WRONG_TYPE,
            arguments.closed,
        ),
        Extent::WholeLine => Ok(()),
    }
}

// The places behind these that the other arguments are, which are read from a file of this type.
fn read_more(
    scopes: &Scopes<'_>,
    file: PasType,
    arguments: &Arguments,
    places: Items<Place>,
) -> Result<Items<Place>, Stop>
    ensures { IsClear (scopes_view scopes.now) → (n : ℕ) (place : SpecPlace) → type_of_place place ≡ type_view file
        → is_some (component_of (scopes_view scopes.now).outer.types (type_view file)) ≡ true
        → Gathers place_view (map place_view places) (items_behind (scopes_view scopes.now) scopes.now.spellings.now n
        (spec.read_item (scopes_view scopes.now).outer.types (Some place)) arguments.now.items.more)
        (at n k.RightParenthesis arguments.now.closed) result }
{
    let mut places = places;
    for (index, more) in arguments.items.more.as_slice().iter().enumerate() {
        let found = read_item(scopes, file, &more.item)?;
        places.push(found.before(line_behind(arguments, index + 1))?)?;
    }
    Ok(places)
}

// The values behind these that the other arguments are, which are written as components of a file of this type.
fn components_more(
    scopes: &Scopes<'_>,
    file: PasType,
    arguments: &Arguments,
    values: Items<Value>,
) -> Result<Items<Value>, Stop>
    ensures { IsClear (scopes_view scopes.now) → (n : ℕ) (component : spec_type.PasType)
        → component_of (scopes_view scopes.now).outer.types (type_view file) ≡ Some component
        → Gathers value_view (map value_view values) (items_behind (scopes_view scopes.now) scopes.now.spellings.now n
        (component_of_item (scopes_view scopes.now).outer.types (Some component)) arguments.now.items.more)
        (at n k.RightParenthesis arguments.now.closed) result }
{
    let mut values = values;
    for (index, more) in arguments.items.more.as_slice().iter().enumerate() {
        let found = component_item(scopes, file, &more.item)?;
        values.push(found.before(line_behind(arguments, index + 1))?)?;
    }
    Ok(values)
}

// What `write` means on the file that the first argument names, which is no text.
fn write_components(
    scopes: &Scopes<'_>,
    arguments: &Arguments,
    file: Judged<Place>,
) -> Result<Statement, Stop>
    ensures { IsClear (scopes_view scopes.now) → (n : ℕ) (word : Word)
        → IsFileAlone (scopes_view scopes.now).outer.types
        (expr_words (n + 1) 0 (expr_in scopes.now.spellings.now arguments.now.items.first.value))
        (spec_value.value_of (scopes_view scopes.now)
        (expr_in scopes.now.spellings.now arguments.now.items.first.value)) (Some file)
        → spec.is_text (place_view file.value) ≡ false
        → Settles (word ∷ arguments_words n (arguments_in scopes.now.spellings.now arguments.now))
        (spec.write_with spec.items_alone (scopes_view scopes.now).outer.types (spec.output (scopes_view scopes.now))
        (spec.actuals_of (scopes_view scopes.now) (arguments_in scopes.now.spellings.now arguments.now).items))
        (statement_view scopes.now.spellings.now) result }
{
    let file = file_only(Extent::ItemsAlone, &arguments.items.first, file)?;
    let file = file.before(line_behind(arguments, 0))?;
    let values = components_more(scopes, file.pas_type(), arguments, Items::new(scopes.alloc))?;
    some_item(Extent::ItemsAlone, arguments)?;
    writes_components(scopes, file, values)
}

// Writing components on a file.
fn writes_components(
    scopes: &Scopes<'_>,
    file: Place,
    values: Items<Value>,
) -> Result<Statement, Stop>
    ensures { Makes (statement_view scopes.now.spellings.now)
        (writes_bytes (place_view file) (map value_view values)) result }
{
    let file = Boxed::new(scopes.alloc, file)?;
    Ok(Statement::WritesBytes(file, values))
}

// What `read` or `readln` with arguments means.
pub(crate) fn read_call(
    scopes: &Scopes<'_>,
    line: u32,
    extent: Extent,
    arguments: &Arguments,
) -> Result<Statement, Stop>
    ensures { IsClear (scopes_view scopes.now) → (n : ℕ) (word : Word) → word.token.line ≡ line → Settles
        (word ∷ arguments_words n (arguments_in scopes.now.spellings.now arguments.now))
        (spec.procedure_of (scopes_view scopes.now) (reading extent) (spec.actuals_of (scopes_view scopes.now)
        (arguments_in scopes.now.spellings.now arguments.now).items)) (statement_view scopes.now.spellings.now)
        result }
{
    match named_file(scopes, &arguments.items.first)? {
        Some(file) => read_named(scopes, extent, arguments, file),
        None => read_standard(scopes, line, extent, arguments),
    }
}

// The same on the file that the first argument names.
fn read_named(
    scopes: &Scopes<'_>,
    extent: Extent,
    arguments: &Arguments,
    file: Judged<Place>,
) -> Result<Statement, Stop>
    ensures { IsClear (scopes_view scopes.now) → (n : ℕ) (word : Word)
        → IsFileAlone (scopes_view scopes.now).outer.types
        (expr_words (n + 1) 0 (expr_in scopes.now.spellings.now arguments.now.items.first.value))
        (spec_value.value_of (scopes_view scopes.now)
        (expr_in scopes.now.spellings.now arguments.now.items.first.value)) (Some file)
        → Settles (word ∷ arguments_words n (arguments_in scopes.now.spellings.now arguments.now))
        (spec.read_with (extent_view extent) (scopes_view scopes.now).outer.types (spec.input (scopes_view scopes.now))
        (spec.actuals_of (scopes_view scopes.now) (arguments_in scopes.now.spellings.now arguments.now).items))
        (statement_view scopes.now.spellings.now) result }
{
    let file = file_only(extent, &arguments.items.first, file)?;
    let file = file.before(line_behind(arguments, 0))?;
    let places = read_more(scopes, file.pas_type(), arguments, Items::new(scopes.alloc))?;
    some_item(extent, arguments)?;
    reads(scopes, extent, file, places)
}

// The same on the file that is meant where none is named.
fn read_standard(
    scopes: &Scopes<'_>,
    line: u32,
    extent: Extent,
    arguments: &Arguments,
) -> Result<Statement, Stop>
    ensures { IsClear (scopes_view scopes.now) → (n : ℕ) (word : Word) → word.token.line ≡ line
        → option_and_then (spec.whole_file (scopes_view scopes.now).outer.types)
        (spec_value.value_of (scopes_view scopes.now)
        (expr_in scopes.now.spellings.now arguments.now.items.first.value)).value ≡ None
        → Settles (word ∷ arguments_words n (arguments_in scopes.now.spellings.now arguments.now))
        (spec.read_with (extent_view extent) (scopes_view scopes.now).outer.types (spec.input (scopes_view scopes.now))
        (spec.actuals_of (scopes_view scopes.now) (arguments_in scopes.now.spellings.now arguments.now).items))
        (statement_view scopes.now.spellings.now) result }
{
    let file = standard_only(scopes, scopes.standard_file(b"input"), line)?;
    let found = read_item(scopes, PasType::Text, &arguments.items.first)?;
    let mut places = Items::new(scopes.alloc);
    places.push(found.before(line_behind(arguments, 0))?)?;
    let places = read_more(scopes, PasType::Text, arguments, places)?;
    reads(scopes, extent, file, places)
}

// What `write` or `writeln` with arguments means.
pub(crate) fn write_call(
    scopes: &Scopes<'_>,
    line: u32,
    extent: Extent,
    arguments: &Arguments,
) -> Result<Statement, Stop>
    ensures { IsClear (scopes_view scopes.now) → (n : ℕ) (word : Word) → word.token.line ≡ line → Settles
        (word ∷ arguments_words n (arguments_in scopes.now.spellings.now arguments.now))
        (spec.procedure_of (scopes_view scopes.now) (writing extent) (spec.actuals_of (scopes_view scopes.now)
        (arguments_in scopes.now.spellings.now arguments.now).items)) (statement_view scopes.now.spellings.now)
        result }
{
    match named_file(scopes, &arguments.items.first)? {
        Some(file) => write_named(scopes, extent, arguments, file),
        None => write_standard(scopes, line, extent, arguments),
    }
}

// The same on the file that the first argument names.
fn write_named(
    scopes: &Scopes<'_>,
    extent: Extent,
    arguments: &Arguments,
    file: Judged<Place>,
) -> Result<Statement, Stop>
    ensures { IsClear (scopes_view scopes.now) → (n : ℕ) (word : Word)
        → IsFileAlone (scopes_view scopes.now).outer.types
        (expr_words (n + 1) 0 (expr_in scopes.now.spellings.now arguments.now.items.first.value))
        (spec_value.value_of (scopes_view scopes.now)
        (expr_in scopes.now.spellings.now arguments.now.items.first.value)) (Some file)
        → Settles (word ∷ arguments_words n (arguments_in scopes.now.spellings.now arguments.now))
        (spec.write_with (extent_view extent) (scopes_view scopes.now).outer.types
        (spec.output (scopes_view scopes.now)) (spec.actuals_of (scopes_view scopes.now)
        (arguments_in scopes.now.spellings.now arguments.now).items)) (statement_view scopes.now.spellings.now)
        result }
{
    match extent {
        Extent::ItemsAlone => write_items(scopes, arguments, file),
        Extent::WholeLine => write_text(scopes, extent, arguments, file),
    }
}

// What `write` means on the file that the first argument names.
fn write_items(
    scopes: &Scopes<'_>,
    arguments: &Arguments,
    file: Judged<Place>,
) -> Result<Statement, Stop>
    ensures { IsClear (scopes_view scopes.now) → (n : ℕ) (word : Word)
        → IsFileAlone (scopes_view scopes.now).outer.types
        (expr_words (n + 1) 0 (expr_in scopes.now.spellings.now arguments.now.items.first.value))
        (spec_value.value_of (scopes_view scopes.now)
        (expr_in scopes.now.spellings.now arguments.now.items.first.value)) (Some file)
        → Settles (word ∷ arguments_words n (arguments_in scopes.now.spellings.now arguments.now))
        (spec.write_with spec.items_alone (scopes_view scopes.now).outer.types (spec.output (scopes_view scopes.now))
        (spec.actuals_of (scopes_view scopes.now) (arguments_in scopes.now.spellings.now arguments.now).items))
        (statement_view scopes.now.spellings.now) result }
{
    if file.value.pas_type().is(PasType::Text) {
        write_text(scopes, Extent::ItemsAlone, arguments, file)
    } else {
        write_components(scopes, arguments, file)
    }
}

// What `write` or `writeln` means on the file that the first argument names, which is a text where `write` is called.
fn write_text(
    scopes: &Scopes<'_>,
    extent: Extent,
    arguments: &Arguments,
    file: Judged<Place>,
) -> Result<Statement, Stop>
    ensures { IsClear (scopes_view scopes.now) → (n : ℕ) (word : Word)
        → IsFileAlone (scopes_view scopes.now).outer.types
        (expr_words (n + 1) 0 (expr_in scopes.now.spellings.now arguments.now.items.first.value))
        (spec_value.value_of (scopes_view scopes.now)
        (expr_in scopes.now.spellings.now arguments.now.items.first.value)) (Some file)
        → IsOnText (extent_view extent) (place_view file.value)
        → Settles (word ∷ arguments_words n (arguments_in scopes.now.spellings.now arguments.now))
        (spec.write_with (extent_view extent) (scopes_view scopes.now).outer.types
        (spec.output (scopes_view scopes.now)) (spec.actuals_of (scopes_view scopes.now)
        (arguments_in scopes.now.spellings.now arguments.now).items)) (statement_view scopes.now.spellings.now)
        result }
{
    let file = file_only(extent, &arguments.items.first, file)?;
    let file = file.before(line_behind(arguments, 0))?;
    let items = items_more(scopes, arguments, Items::new(scopes.alloc))?;
    some_item(extent, arguments)?;
    writes(scopes, extent, file, items)
}

// What `write` or `writeln` means on the file that is meant where none is named.
fn write_standard(
    scopes: &Scopes<'_>,
    line: u32,
    extent: Extent,
    arguments: &Arguments,
) -> Result<Statement, Stop>
    ensures { IsClear (scopes_view scopes.now) → (n : ℕ) (word : Word) → word.token.line ≡ line
        → option_and_then (spec.whole_file (scopes_view scopes.now).outer.types)
        (spec_value.value_of (scopes_view scopes.now)
        (expr_in scopes.now.spellings.now arguments.now.items.first.value)).value ≡ None
        → Settles (word ∷ arguments_words n (arguments_in scopes.now.spellings.now arguments.now))
        (spec.write_with (extent_view extent) (scopes_view scopes.now).outer.types
        (spec.output (scopes_view scopes.now)) (spec.actuals_of (scopes_view scopes.now)
        (arguments_in scopes.now.spellings.now arguments.now).items)) (statement_view scopes.now.spellings.now)
        result }
{
    let file = standard_only(scopes, scopes.standard_file(b"output"), line)?;
    let found = text_item(scopes, &arguments.items.first)?;
    let mut items = Items::new(scopes.alloc);
    items.push(found.before(line_behind(arguments, 0))?)?;
    let items = items_more(scopes, arguments, items)?;
    writes(scopes, extent, file, items)
}

// Writing items on a text.
fn writes(
    scopes: &Scopes<'_>,
    extent: Extent,
    file: Place,
    items: Items<Item>,
) -> Result<Statement, Stop>
    ensures { Makes (statement_view scopes.now.spellings.now)
        (writes_by (extent_view extent) (place_view file) (map (item_view scopes.now.spellings.now) items)) result }
{
    let file = Boxed::new(scopes.alloc, file)?;
    match extent {
        Extent::ItemsAlone => Ok(Statement::Writes(file, items)),
        Extent::WholeLine => Ok(Statement::WritesLine(file, items)),
    }
}

// The items behind these that the other arguments are, which are written on a text.
fn items_more(
    scopes: &Scopes<'_>,
    arguments: &Arguments,
    items: Items<Item>,
) -> Result<Items<Item>, Stop>
    ensures { IsClear (scopes_view scopes.now) → (n : ℕ) → Gathers (item_view scopes.now.spellings.now)
        (map (item_view scopes.now.spellings.now) items)
        (items_behind (scopes_view scopes.now) scopes.now.spellings.now n
        (item_written (scopes_view scopes.now).outer.types) arguments.now.items.more)
        (at n k.RightParenthesis arguments.now.closed) result }
{
    let mut items = items;
    for (index, more) in arguments.items.more.as_slice().iter().enumerate() {
        let found = text_item(scopes, &more.item)?;
        items.push(found.before(line_behind(arguments, index + 1))?)?;
    }
    Ok(items)
}

// What an item that is written on a text means: an integer, a char or a string, with its width or without.
fn text_item(scopes: &Scopes<'_>, argument: &Argument) -> Result<Judged<Item>, Stop>
    ensures { IsClear (scopes_view scopes.now) → (n : ℕ)
        → Stands (argument_words n (argument_in scopes.now.spellings.now argument.now))
        (item_written (scopes_view scopes.now).outer.types (spec.actual_of (scopes_view scopes.now)
        (argument_in scopes.now.spellings.now argument.now))) (item_view scopes.now.spellings.now) result }
{
    match long_text(scopes, &argument.value) {
        Some(quoted) => string_item(scopes, quoted, argument),
        None => printed_item(scopes, argument),
    }
}

// The string of more than one byte that an expression is by itself.
fn long_text(scopes: &Scopes<'_>, expr: &Expr) -> Option<Quoted>
    ensures { IsLongText scopes.now.spellings.now (expr_in scopes.now.spellings.now expr.now) result }
{
    match expr {
        Expr::Sum(sum) => long_sum(scopes, sum),
        Expr::Relation(_, _, _) => None,
    }
}

// The same of a sum.
fn long_sum(scopes: &Scopes<'_>, sum: &Sum) -> Option<Quoted>
    ensures { IsLongText scopes.now.spellings.now (tree.sum (sum_in scopes.now.spellings.now sum.now)) result }
{
    match sum {
        Sum::FirstTerm(term) => long_term(scopes, term),
        Sum::SignedTerm(_, _) => None,
        Sum::MoreTerms(_, _, _) => None,
    }
}

// The same of a term.
fn long_term(scopes: &Scopes<'_>, term: &Term) -> Option<Quoted>
    ensures { IsLongText scopes.now.spellings.now
        (tree.sum (tree.first_term (term_in scopes.now.spellings.now term.now))) result }
{
    match term {
        Term::FirstFactor(factor) => long_factor(scopes, factor),
        Term::MoreFactors(_, _, _) => None,
    }
}

// The same of a factor.
fn long_factor(scopes: &Scopes<'_>, factor: &Factor) -> Option<Quoted>
    ensures { IsLongText scopes.now.spellings.now
        (tree.sum (tree.first_term (tree.first_factor (factor_in scopes.now.spellings.now factor.now)))) result }
{
    match factor {
        Factor::Text(quoted) => long_quoted(scopes, *quoted),
        Factor::Literal(_) => None,
        Factor::Parenthesized(_, _, _) => None,
        Factor::Negated(_, _) => None,
        Factor::Variable(_) => None,
        Factor::Call(_) => None,
    }
}

// A string, if it has more than one byte.
fn long_quoted(scopes: &Scopes<'_>, quoted: Quoted) -> Option<Quoted>
    ensures { IsLongText scopes.now.spellings.now (text_alone (quoted_in scopes.now.spellings.now quoted)) result }
{
    if is_long(scopes.spelling(quoted.span)) {
        Some(quoted)
    } else {
        None
    }
}

// Whether a string has more than one byte, in which a quote stands twice.
fn is_long(text: &[u8]) -> bool
    ensures { result ≡ nat_lt 1 (length (undoubled text.now)) }
{
    match text.len() {
        0 => false,
        1 => false,
        2 if text[0] == b'\'' => false,
        _ => true,
    }
}

// What a string that is written as one means, with its width or without.
fn string_item(
    scopes: &Scopes<'_>,
    quoted: Quoted,
    argument: &Argument,
) -> Result<Judged<Item>, Stop>
    ensures { IsClear (scopes_view scopes.now) → (n : ℕ)
        → Stands (text_at n (quoted_in scopes.now.spellings.now quoted)
        ∷ words_if (width_words n) (argument_in scopes.now.spellings.now argument.now).width)
        (string_written (scopes_view scopes.now).outer.types
        (undoubled (quoted_in scopes.now.spellings.now quoted).text) (spec.width_of (scopes_view scopes.now)
        (argument_in scopes.now.spellings.now argument.now).width)) (item_view scopes.now.spellings.now) result }
{
    match &argument.width {
        Some(width) => {
            let given = width_of(scopes, &width.item)?;
            Ok(Judged {
                value: Item::Text(quoted.span, Some(given.value)),
                end: given.end,
            })
        }
        None => Ok(Judged::lawful(Item::Text(quoted.span, None), quoted.line)),
    }
}
