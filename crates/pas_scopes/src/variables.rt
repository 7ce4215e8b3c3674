//! Variables and their parts (ISO 7185, 6.5, in this project's profile).
ghost use Rattle.std.specs.Prelude.{◌≡◌, ◌∷◌, ◌++◌, [], ℕ, List, Some, None, false, is_some, position, map, IfOk};
ghost use Rattle.std.specs.Str.{bytes_eq};
ghost use Rattle.wb_base.specs.declared.faults.TheConstants.{WRONG_TYPE as WRONG_TYPE_CODE};
ghost use Rattle.pas_syntax.specs.Tree.{Exprs as ExprsTree, Variable as VariableTree};
ghost use Rattle.pas_syntax.specs.Views.{spelled_in, ident_in, expr_in, exprs_in, selector_in, variable_in};
ghost use Rattle.pas_syntax.specs.Views.{in_turn, more_expr_in};
ghost use Rattle.pas_syntax.specs.Words.{Word, name_at, expr_words, exprs_words, variable_words};
ghost use Rattle.pas_typed.specs.Types as spec_types;
ghost use Rattle.pas_typed.specs.Types.{Field as SpecField};
ghost use Rattle.pas_typed.specs.Typed as typed;
ghost use Rattle.pas_typed.specs.Typed.{Place as SpecPlace, Value as SpecValue};
ghost use Rattle.pas_typed.specs.TypeOf.{type_of_place};
ghost use Rattle.pas_typed.specs.TypeViews.{type_view, elements_view, field_view};
ghost use Rattle.pas_typed.specs.TypedViews.{slot_view, part_view, place_view, value_view};
ghost use Rattle.pas_rules.specs.Marks.{Judged as SpecJudged};
ghost use Rattle.pas_rules.specs.Scopes.{entity_of};
ghost use Rattle.pas_rules.specs.Expressions as spec;
ghost use Rattle.pas_scopes.specs.ScopeViews.{scopes_view, IsClear};
ghost use Rattle.pas_scopes.specs.Ends.{Ends};
ghost use Rattle.pas_scopes.specs.Answers.{end_in, noted_end, EndsAs, Answers, StandsAs, Stands};
ghost use Rattle.pas_scopes.specs.inner.ExpressionAnswers.{Finds};

use crate::expressions::{only, value_of};
use crate::functions::one_too_many;
use crate::judged::Judged;
use crate::names::Entity;
use crate::scopes::Scopes;
use crate::stop::{Stop, count_of, fault};
use pas_syntax::tree::{Expr, Exprs, Ident, MoreExpr, Selector, Variable};
use pas_typed::typed::{Part, Place, Slot, Value};
use pas_typed::types::{ArrayParts, Field, PasType};
use sqlite_items::Items;
use std::alloc::AllocError;
use wb_base::OutOfMemory;
use wb_base::faults::{UNKNOWN_NAME, WRONG_TYPE};

/// A whole variable.
pub fn whole(scopes: &Scopes<'_>, slot: Slot) -> Place
    ensures { place_view result ≡ typed.slot (slot_view slot) }
{
    Place {
        slot,
        parts: Items::new(scopes.alloc),
    }
}

/// What a variable means as a place.
#[cycle(expression)]
pub fn place_of(scopes: &Scopes<'_>, variable: &Variable) -> Result<Judged<Place>, Stop>
    ensures { IsClear (scopes_view scopes.now) → (lead deep : ℕ)
        → Answers (variable_words lead deep (variable_in scopes.now.spellings.now variable.now))
        (spec.place_of (scopes_view scopes.now) (variable_in scopes.now.spellings.now variable.now)) place_view
        result }
{
    let mut found = variable_named(scopes, variable.name)?;
    for selector in variable.selectors.as_slice() {
        found = select(scopes, found, selector)?;
    }
    Ok(found)
}

// What a name means as a place: a whole variable.
fn variable_named(scopes: &Scopes<'_>, ident: Ident) -> Result<Judged<Place>, Stop>
    ensures { IsClear (scopes_view scopes.now) → (n : ℕ)
        → Answers (name_at n (ident_in scopes.now.spellings.now ident) ∷ [])
        (spec.as_place (entity_of (scopes_view scopes.now) (ident_in scopes.now.spellings.now ident).name)) place_view
        result }
{
    match scopes.named(ident) {
        Some(Entity::Variable(slot)) => Ok(Judged::lawful(whole(scopes, slot), ident.line)),
        Some(_) => Err(fault(WRONG_TYPE, ident.line)),
        None => Err(fault(UNKNOWN_NAME, ident.line)),
    }
}

// The part of a place that a selector selects.
#[cycle(expression)]
fn select(
    scopes: &Scopes<'_>,
    found: Judged<Place>,
    selector: &Selector,
) -> Result<Judged<Place>, Stop>
    ensures { IsClear (scopes_view scopes.now) → (lead deep : ℕ) (variable : VariableTree)
        → EndsAs (variable_words lead deep variable) (spec.place_of (scopes_view scopes.now) variable)
        (place_view found.value) (end_in found.end)
        → Answers (variable_words lead deep (selector_in scopes.now.spellings.now selector.now variable))
        (spec.place_of (scopes_view scopes.now) (selector_in scopes.now.spellings.now selector.now variable))
        place_view result }
{
    match selector {
        Selector::Indexes(opened, indexes, closed) => {
            let array = array_of(scopes, found).before(*opened)?;
            elements_of(scopes, indexes.get(), array)?.closed(*closed)
        }
        Selector::Field(dot, ident) => field_of(scopes, found, *dot, *ident),
        Selector::Buffer(caret) => buffer_of(scopes, found, *caret),
    }
}

// The elements of a place by one index after another.
#[cycle(expression)]
fn elements_of(scopes: &Scopes<'_>, indexes: &Exprs, place: Place) -> Result<Judged<Place>, Stop>
    ensures { IsClear (scopes_view scopes.now) → (lead deep : ℕ) (words : List Word) (word : Word)
        (part : SpecJudged SpecPlace) (line : ℕ) → Ends words part (place_view place) line None false
        → Stands (words ++ word ∷ exprs_words lead deep (exprs_in scopes.now.spellings.now indexes.now))
        (spec.elements_at (scopes_view scopes.now) part (exprs_in scopes.now.spellings.now indexes.now)) place_view
        result }
{
    let found = element_of(scopes, &indexes.first, place)?;
    more_elements(scopes, indexes.more.as_slice(), found)
}

// The elements of what some indexes select, by one index after another behind these.
#[cycle(expression)]
fn more_elements(
    scopes: &Scopes<'_>,
    indexes: &[MoreExpr],
    found: Judged<Place>,
) -> Result<Judged<Place>, Stop>
    ensures { IsClear (scopes_view scopes.now) → (lead deep : ℕ) (words : List Word) (word : Word)
        (part : SpecJudged SpecPlace) (before : ExprsTree)
        → StandsAs (words ++ word ∷ exprs_words lead deep before)
        (spec.elements_at (scopes_view scopes.now) part before) (place_view found.value) (end_in found.end)
        → Stands (words ++ word ∷ exprs_words lead deep
        (in_turn before (map (more_expr_in scopes.now.spellings.now) indexes.now)))
        (spec.elements_at (scopes_view scopes.now) part
        (in_turn before (map (more_expr_in scopes.now.spellings.now) indexes.now))) place_view result }
{
    let mut found = found;
    for more in indexes {
        let place = found.before(more.line)?;
        found = element_of(scopes, &more.value, place)?;
    }
    Ok(found)
}

// The element of a place by an index, which is of the base of the indexes. An index too many shows it at its first
// token.
#[cycle(expression)]
fn element_of(scopes: &Scopes<'_>, index: &Expr, place: Place) -> Result<Judged<Place>, Stop>
    ensures { IsClear (scopes_view scopes.now) → (lead deep : ℕ) (words : List Word) (word : Word)
        (part : SpecJudged SpecPlace) (line : ℕ) → Ends words part (place_view place) line None false
        → Stands (words ++ word ∷ expr_words lead deep (expr_in scopes.now.spellings.now index.now))
        (spec.element_of (scopes_view scopes.now).outer.types part
        (spec.value_of (scopes_view scopes.now) (expr_in scopes.now.spellings.now index.now))) place_view result }
{
    match scopes.types.elements_of(place.pas_type()) {
        Some(parts) => {
            let found = value_of(scopes, index)?;
            element_by(scopes, place, parts, found)
        }
        None => Err(one_too_many(scopes, index)),
    }
}

// The element of an array by what an index means.
fn element_by(
    scopes: &Scopes<'_>,
    place: Place,
    parts: ArrayParts,
    index: Judged<Value>,
) -> Result<Judged<Place>, Stop>
    ensures { (words more : List Word) (word : Word) (before : SpecJudged SpecPlace) (part : SpecJudged SpecValue)
        (line : ℕ) → Ends words before (place_view place) line None false
        → spec_types.elements_of (scopes_view scopes.now).outer.types (type_of_place (place_view place))
        ≡ Some (elements_view parts)
        → EndsAs more part (value_view index.value) (end_in index.end)
        → Stands (words ++ word ∷ more) (spec.element_of (scopes_view scopes.now).outer.types before part) place_view
        result }
{
    let index = only(scopes, parts.indexes.base, index);
    index.end.stands()?;
    let part = Part::Element(parts.indexes, parts.element, index.value);
    Ok(Judged {
        value: with_part(place, part)?,
        end: index.end,
    })
}

// A place that must be an array.
fn array_of(scopes: &Scopes<'_>, found: Judged<Place>) -> Judged<Place>
    ensures value { result.value ≡ found.value }
    ensures end { end_in result.end ≡ noted_end
        (is_some (spec_types.elements_of (scopes_view scopes.now).outer.types
        (type_of_place (place_view found.value))))
        WRONG_TYPE_CODE (end_in found.end) }
{
    let is_array = scopes.types.elements_of(found.value.pas_type()).is_some();
    found.noted(is_array, WRONG_TYPE)
}

// A place that must be a record.
fn record_of(scopes: &Scopes<'_>, found: Judged<Place>) -> Judged<Place>
    ensures value { result.value ≡ found.value }
    ensures end { end_in result.end ≡ noted_end
        (is_some (spec_types.fields_of (scopes_view scopes.now).outer.types (type_of_place (place_view found.value))))
        WRONG_TYPE_CODE (end_in found.end) }
{
    let is_record = scopes.types.fields_of(found.value.pas_type()).is_some();
    found.noted(is_record, WRONG_TYPE)
}

// A field of a record, behind the point in this line.
fn field_of(
    scopes: &Scopes<'_>,
    found: Judged<Place>,
    dot: u32,
    ident: Ident,
) -> Result<Judged<Place>, Stop>
    ensures { (words : List Word) (point name : Word) (part : SpecJudged SpecPlace) → point.token.line ≡ dot
        → name.token.line ≡ ident.line → EndsAs words part (place_view found.value) (end_in found.end)
        → Answers (words ++ point ∷ (name ∷ []))
        (spec.field_of (scopes_view scopes.now).outer.types part (ident_in scopes.now.spellings.now ident)) place_view
        result }
{
    let place = record_of(scopes, found).before(dot)?;
    match field_named(scopes, place.pas_type(), scopes.spelling(ident.span))? {
        Some(field) => Ok(Judged::lawful(with_part(place, field)?, ident.line)),
        None => Err(fault(UNKNOWN_NAME, ident.line)),
    }
}

// The buffer of a file, at the caret in this line.
fn buffer_of(scopes: &Scopes<'_>, found: Judged<Place>, caret: u32) -> Result<Judged<Place>, Stop>
    ensures { (words : List Word) (word : Word) (part : SpecJudged SpecPlace) → word.token.line ≡ caret
        → EndsAs words part (place_view found.value) (end_in found.end)
        → Answers (words ++ word ∷ []) (spec.buffer_of (scopes_view scopes.now).outer.types part) place_view result }
{
    match scopes.types.component_of(found.value.pas_type()) {
        Some(component) => {
            let file = found.closed(caret)?;
            Ok(Judged {
                value: with_part(file.value, Part::Buffer(component))?,
                end: file.end,
            })
        }
        None => Err(found.end.shows(WRONG_TYPE)),
    }
}

// The field with this name of a record of this type.
fn field_named(
    scopes: &Scopes<'_>,
    pas_type: PasType,
    name: &[u8],
) -> Result<Option<Part>, OutOfMemory>
    ensures { (fields : List SpecField)
        → spec_types.fields_of (scopes_view scopes.now).outer.types (type_view pas_type) ≡ Some fields
        → IfOk result (Finds (λ place. spec.field_in name.now place (Some fields))) }
{
    match scopes.types.fields_of(pas_type) {
        Some(fields) => field_among(scopes, fields, name),
        None => Ok(None),
    }
}

// The field with this name.
fn field_among(
    scopes: &Scopes<'_>,
    fields: &[Field],
    name: &[u8],
) -> Result<Option<Part>, OutOfMemory>
    ensures { IfOk result (Finds (λ place. spec.field_in name.now place
        (Some (map (field_view scopes.now.spellings.now) fields.now)))) }
{
    match field_number(scopes, fields, name) {
        Some(index) => Ok(Some(Part::Field(count_of(index)?, fields[index].pas_type))),
        None => Ok(None),
    }
}

// The number of the field with this name.
fn field_number(scopes: &Scopes<'_>, fields: &[Field], name: &[u8]) -> Option<usize>
    ensures { result ≡ position (λ field. bytes_eq (spelled_in scopes.now.spellings.now field.name) name.now)
        fields.now }
{
    fields
        .iter()
        .position(|field| scopes.spelling(field.name) == name)
}

// The part of a place that is selected so.
fn with_part(place: Place, part: Part) -> Result<Place, AllocError>
    ensures { IfOk result (λ found. place_view found ≡ part_view part (place_view place)) }
{
    let mut place = place;
    place.parts.push(part)?;
    Ok(place)
}
