//! Type expressions (ISO 7185, 6.4, in this project's profile).
ghost use Rattle.std.specs.Prelude.{◌≡◌, ◌+◌, ℕ, List, ◌∷◌, ◌++◌, [], Option, Some, None, map};
ghost use Rattle.std.specs.Prelude.{false, IfOk, IfErr, OnOk, OnErr};
ghost use Rattle.pas_tokens.specs.declared.kinds.Kind.TheVariants as k;
ghost use Rattle.pas_typed.specs.TypeViews.{range_view, type_view, field_view, table_view};
ghost use Rattle.pas_syntax.specs.Words.{Word, at, maybe, separated, simple_words, idents_words, type_words};
ghost use Rattle.pas_syntax.specs.Words.{fields_words};
ghost use Rattle.pas_syntax.specs.Views.{ident_in, simple_in, separated_in};
ghost use Rattle.pas_syntax.specs.ProgramViews.{type_in};
ghost use Rattle.pas_syntax.specs.declared.tree.TypeForm.TheViews.{out-FieldGroup};
ghost use Rattle.pas_rules.specs.Scopes as scope;
ghost use Rattle.pas_rules.specs.Scopes.{Scopes as SpecScopes};
ghost use Rattle.pas_typed.specs.Types.{Table as SpecTable, Made, made};
ghost use Rattle.pas_typed.specs.Types as spec_types;
ghost use Rattle.pas_rules.specs.Marks.{Judged as SpecJudged, checked, noted};
ghost use Rattle.pas_rules.specs.TypeForms as spec;
ghost use Rattle.pas_scopes.specs.ScopeViews.{all_idents, scopes_view, made_view, IsClear, Agrees};
ghost use Rattle.pas_scopes.specs.Answers.{end_in, EndsAs, Answers, Means};
ghost use Rattle.pas_scopes.specs.TypeAnswers.{file_part, IsIndex};
ghost use Rattle.pas_scopes.specs.FormAnswers.{SettlesIf, IsUnknownIf, Knows, FoundIf, SettledIf, Grows};
ghost use Rattle.pas_scopes.specs.FormAnswers.{indexes_view, fields_view, group_part, fields_in};
ghost use Rattle.wb_base.specs.declared.faults.Fault.{Fault as SpecFault};
ghost use Rattle.pas_scopes.specs.declared.stop.Stop.TheVariants as stop;

use crate::judged::Judged;
use crate::name_sets::NameSet;
use crate::new_names::{Region, new_names};
use crate::noting::note;
use crate::scopes::Scopes;
use crate::simple_types::simple_of;
use crate::stop::{Stop, fault};
use pas_rules::CELL_LIMIT;
use pas_syntax::tree::{ArrayHead, FieldGroup, Idents, RecordForm, Simple, TypeForm};
use pas_typed::types::{ArrayParts, Base, Field, PasType, Range, Structure, Table};
use sqlite_items::Items;
use std::alloc::AllocError;
use wb_base::faults::{FILE_RULE, TOO_LARGE, WRONG_TYPE};
use wb_base::{Fault, OutOfMemory};

// What a type expression makes. One that breaks a rule on files or passes a limit stays known, so that the lower of
// two faults of its last token is told.
#[cycle(type_form)]
pub(crate) fn form_of(
    scopes: &mut Scopes<'_>,
    noted: &mut Option<Fault>,
    form: &TypeForm,
) -> Result<Judged<PasType>, Stop>
    ensures answers { noted.old ≡ None → (s : SpecScopes) → Agrees s (scopes_view scopes.old) → (n : ℕ)
        → FoundIf (IsClear s) (type_words n (type_in scopes.old.spellings.now form.now))
        (spec.form_of s (table_view scopes.old.spellings.now scopes.old.types)
        (type_in scopes.old.spellings.now form.now)) (made_view scopes.new) noted.new result }
    ensures value { (s : SpecScopes) → Agrees s (scopes_view scopes.old) → Knows
        (spec.form_of s (table_view scopes.old.spellings.now scopes.old.types)
        (type_in scopes.old.spellings.now form.now)) (λ found. made_view scopes.new found.value) result }
    ensures noted { (fault : SpecFault) → noted.old ≡ Some fault → noted.new ≡ Some fault }
    ensures kept { scopes.new ≡ record scopes.old { types = scopes.new.types } }
    ensures grows { Grows scopes.old.types scopes.new.types }
    ensures whole { IfOk result (λ found. (end_in found.end).is_short ≡ false) }
{
    match form {
        TypeForm::Simple(simple) => simple_of(scopes, *simple),
        TypeForm::Array(head, element) => {
            let ranges = indexes_of(scopes, head.get())?;
            let element = form_of(scopes, noted, element.get())?;
            array_of(scopes, ranges.as_slice(), element)
        }
        TypeForm::Record(form) => {
            let form = form.get();
            let fields = fields_of(scopes, noted, form)?;
            record_of(scopes, fields, form.end)
        }
        TypeForm::File(_, component) => {
            let component = form_of(scopes, noted, component.get())?;
            file_of(scopes, component)
        }
    }
}

// The ranges of the indexes of an array.
fn indexes_of(scopes: &mut Scopes<'_>, head: &ArrayHead) -> Result<Items<Range>, Stop>
    ensures answers { (s : SpecScopes) → Agrees s (scopes_view scopes.old) → (n : ℕ) → SettlesIf (IsClear s)
        (separated n k.Comma (simple_words n) (separated_in (simple_in scopes.old.spellings.now) head.now.indexes))
        (spec.indexes_of s (table_view scopes.old.spellings.now scopes.old.types)
        (separated_in (simple_in scopes.old.spellings.now) head.now.indexes))
        (indexes_view (table_view scopes.new.spellings.now scopes.new.types)) result }
    ensures unknown { (s : SpecScopes) → Agrees s (scopes_view scopes.old) → IsUnknownIf
        (spec.indexes_of s (table_view scopes.old.spellings.now scopes.old.types)
        (separated_in (simple_in scopes.old.spellings.now) head.now.indexes)) result }
    ensures kept { scopes.new ≡ record scopes.old { types = scopes.new.types } }
    ensures grows { Grows scopes.old.types scopes.new.types }
{
    let mut ranges = Items::new(scopes.alloc);
    ranges.push(index_of(scopes, head.indexes.first)?)?;
    for behind in head.indexes.more.as_slice() {
        ranges.push(index_of(scopes, behind.item)?)?;
    }
    Ok(ranges)
}

// The range of an index, of which the type is ordinal, and not all integers.
fn index_of(scopes: &mut Scopes<'_>, simple: Simple) -> Result<Range, Stop>
    ensures answers { (s : SpecScopes) → Agrees s (scopes_view scopes.old) → (n : ℕ) → IsIndex (IsClear s)
        (simple_words n (simple_in scopes.old.spellings.now simple))
        (checked spec.index_only (spec.simple_of s (table_view scopes.old.spellings.now scopes.old.types)
        (simple_in scopes.old.spellings.now simple))) (table_view scopes.new.spellings.now scopes.new.types) result }
    ensures unknown { (s : SpecScopes) → Agrees s (scopes_view scopes.old) → IsUnknownIf
        (checked spec.index_only (spec.simple_of s (table_view scopes.old.spellings.now scopes.old.types)
        (simple_in scopes.old.spellings.now simple))) result }
    ensures kept { scopes.new ≡ record scopes.old { types = scopes.new.types } }
    ensures grows { Grows scopes.old.types scopes.new.types }
{
    let index = simple_of(scopes, simple)?;
    match scopes.types.range_of(index.value) {
        None => Err(fault(WRONG_TYPE, index.end.line)),
        Some(range) => {
            if is_whole_integer(index.value) {
                Err(fault(TOO_LARGE, index.end.line))
            } else {
                Ok(range)
            }
        }
    }
}

// Whether a type is that of all integers.
fn is_whole_integer(pas_type: PasType) -> bool
    ensures { result ≡ spec.is_whole_integer (type_view pas_type) }
{
    matches!(pas_type, PasType::Whole(Base::Integer))
}

// A part of a type is no file.
fn no_file(scopes: &Scopes<'_>, made: Judged<PasType>) -> Judged<PasType>
    ensures value { result.value ≡ made.value }
    ensures ends { (words : List Word) (part : SpecJudged Made)
        → EndsAs words part (made_view scopes.now made.value) (end_in made.end)
        → EndsAs words (noted spec.no_file part) (made_view scopes.now result.value) (end_in result.end) }
    ensures whole { (end_in result.end).is_short ≡ (end_in made.end).is_short }
{
    let is_file = scopes.types.is_file(made.value);
    made.noted(!is_file, FILE_RULE)
}

// A type has no more cells than the limit.
fn within_limit(scopes: &Scopes<'_>, made: Judged<PasType>) -> Judged<PasType>
    ensures value { result.value ≡ made.value }
    ensures ends { (words : List Word) (part : SpecJudged Made)
        → EndsAs words part (made_view scopes.now made.value) (end_in made.end)
        → EndsAs words (noted spec.within_limit part) (made_view scopes.now result.value) (end_in result.end) }
    ensures whole { (end_in result.end).is_short ≡ (end_in made.end).is_short }
{
    let cells = scopes.types.cells_of(made.value);
    made.noted(cells <= u64::from(CELL_LIMIT), TOO_LARGE)
}

// A file of components, which are chars or integers from 0 to 255.
fn file_of(scopes: &mut Scopes<'_>, component: Judged<PasType>) -> Result<Judged<PasType>, Stop>
    ensures answers { (words : List Word) (part : SpecJudged Made)
        → EndsAs words part (made_view scopes.old component.value) (end_in component.end)
        → Answers words (file_part part) (made_view scopes.new) result }
    ensures made { IfOk result (λ found. made_view scopes.new found.value
        ≡ made (table_view scopes.old.spellings.now scopes.old.types) (spec_types.file (type_view component.value))) }
    ensures memory { IfErr result (λ why. why ≡ stop.OutOfMemory) }
    ensures kept { scopes.new ≡ record scopes.old { types = scopes.new.types } }
    ensures grows { Grows scopes.old.types scopes.new.types }
    ensures whole { IfOk result (λ found. (end_in found.end).is_short ≡ (end_in component.end).is_short) }
    ensures err { OnErr result (scopes.new ≡ scopes.old) }
{
    let is_fit = scopes.types.is_component(component.value);
    let component = component.noted(is_fit, FILE_RULE);
    Ok(Judged {
        value: scopes.types.make(Structure::File(component.value))?,
        end: component.end,
    })
}

// Arrays of arrays, one for each range, of which the inner ones are made first.
fn arrays(types: &mut Table, ranges: &[Range], element: PasType) -> Result<PasType, OutOfMemory>
    ensures made { IfOk result (λ found. (spellings : List ℕ)
        → record { type = type_view found; table = table_view spellings types.new }
        ≡ spec.arrays (table_view spellings types.old) (map range_view ranges.now) (type_view element)) }
    ensures grows { Grows types.old types.new }
{
    let mut made = element;
    let mut left = ranges.len();
    while left > 0 {
        left -= 1;
        made = types.make(Structure::Array(ArrayParts {
            indexes: ranges[left],
            element: made,
        }))?;
    }
    Ok(made)
}

// What an array with indexes of these ranges makes.
fn array_of(
    scopes: &mut Scopes<'_>,
    ranges: &[Range],
    element: Judged<PasType>,
) -> Result<Judged<PasType>, Stop>
    ensures answers { (n line opened closed of_line : ℕ) (packed : Option ℕ) (index_words words : List Word)
        (indexes : SpecJudged spec.Indexes) (part : SpecJudged Made) (table : SpecTable)
        → Means index_words indexes (indexes_view table ranges.now)
        → EndsAs words part (made_view scopes.old element.value) (end_in element.end)
        → Answers (maybe n k.Packed packed ++ at (n + 1) k.Array line ∷ (at (n + 2) k.LeftBracket opened
        ∷ (index_words ++ at (n + 2) k.RightBracket closed ∷ (at (n + 1) k.Of of_line ∷ words))))
        (spec.array_of packed indexes part) (made_view scopes.new) result }
    ensures made { IfOk result (λ found. made_view scopes.new found.value
        ≡ spec.arrays (table_view scopes.old.spellings.now scopes.old.types) (map range_view ranges.now)
        (type_view element.value)) }
    ensures memory { IfErr result (λ why. why ≡ stop.OutOfMemory) }
    ensures kept { scopes.new ≡ record scopes.old { types = scopes.new.types } }
    ensures grows { Grows scopes.old.types scopes.new.types }
    ensures whole { IfOk result (λ found. (end_in found.end).is_short ≡ (end_in element.end).is_short) }
{
    let element = no_file(scopes, element);
    let array = Judged {
        value: arrays(&mut scopes.types, ranges, element.value)?,
        end: element.end,
    };
    Ok(within_limit(scopes, array))
}

// The fields of a record.
#[cycle(type_form)]
fn fields_of(
    scopes: &mut Scopes<'_>,
    noted: &mut Option<Fault>,
    form: &RecordForm,
) -> Result<Items<Field>, Stop>
    ensures answers { noted.old ≡ None → (s : SpecScopes) → Agrees s (scopes_view scopes.old) → (n : ℕ)
        → SettledIf (IsClear s) (fields_words n (fields_in scopes.old.spellings.now form.now))
        (spec.groups_of s (table_view scopes.old.spellings.now scopes.old.types)
        (fields_in scopes.old.spellings.now form.now))
        (fields_view scopes.new.spellings.now (table_view scopes.new.spellings.now scopes.new.types)) noted.new
        result }
    ensures value { (s : SpecScopes) → Agrees s (scopes_view scopes.old) → Knows
        (spec.groups_of s (table_view scopes.old.spellings.now scopes.old.types)
        (fields_in scopes.old.spellings.now form.now))
        (fields_view scopes.new.spellings.now (table_view scopes.new.spellings.now scopes.new.types)) result }
    ensures noted { (fault : SpecFault) → noted.old ≡ Some fault → noted.new ≡ Some fault }
    ensures kept { scopes.new ≡ record scopes.old { types = scopes.new.types } }
    ensures grows { Grows scopes.old.types scopes.new.types }
{
    let mut names = NameSet::new(scopes.alloc);
    let mut fields = Items::new(scopes.alloc);
    let pas_type = group_of(scopes, noted, &mut names, &form.first)?;
    add_fields(&mut fields, &form.first.names, pas_type)?;
    for more in form.more.as_slice() {
        let pas_type = group_of(scopes, noted, &mut names, &more.group)?;
        add_fields(&mut fields, &more.group.names, pas_type)?;
    }
    Ok(fields)
}

// The type of fields of one type. That it is no file, and that their names are new, is noted where it does not hold.
// The names are put behind those before them.
#[cycle(type_form)]
fn group_of<'p>(
    scopes: &mut Scopes<'p>,
    noted: &mut Option<Fault>,
    names: &mut NameSet<'p>,
    group: &FieldGroup,
) -> Result<PasType, Stop>
    ensures answers { noted.old ≡ None → (s : SpecScopes) → Agrees s (scopes_view scopes.old) → (n line : ℕ)
        → SettledIf (IsClear s)
        (idents_words n (separated_in (ident_in scopes.old.spellings.now) (out-FieldGroup group.now).names)
        ++ at n k.Colon line ∷ type_words n (type_in scopes.old.spellings.now (out-FieldGroup group.now).form))
        (group_part names.old (separated_in (ident_in scopes.old.spellings.now) (out-FieldGroup group.now).names)
        (spec.form_of s (table_view scopes.old.spellings.now scopes.old.types)
        (type_in scopes.old.spellings.now (out-FieldGroup group.now).form))) (made_view scopes.new) noted.new result }
    ensures value { (s : SpecScopes) → Agrees s (scopes_view scopes.old) → Knows
        (spec.form_of s (table_view scopes.old.spellings.now scopes.old.types)
        (type_in scopes.old.spellings.now (out-FieldGroup group.now).form)) (made_view scopes.new) result }
    ensures noted { (fault : SpecFault) → noted.old ≡ Some fault → noted.new ≡ Some fault }
    ensures kept { scopes.new ≡ record scopes.old { types = scopes.new.types } }
    ensures grows { Grows scopes.old.types scopes.new.types }
    ensures names { noted.new ≡ None → OnOk result (names.new ≡ names.old ++ scope.spellings_of
        (separated_in (ident_in scopes.old.spellings.now) (out-FieldGroup group.now).names)) }
{
    note(
        noted,
        new_names(scopes, Region::Record, names, &group.names),
    )?;
    let made = form_of(scopes, noted, &group.form)?;
    let made = no_file(scopes, made);
    note(noted, made.end.stands())?;
    Ok(made.value)
}

// Adds fields of one type.
fn add_fields(
    fields: &mut Items<Field>,
    names: &Idents,
    pas_type: PasType,
) -> Result<(), AllocError>
    ensures { OnOk result (fields.new ≡ fields.old
        ++ map (λ ident. record { name = ident.span; pas_type = pas_type }) (all_idents names.now)) }
{
    let name = names.first.span;
    fields.push(Field { name, pas_type })?;
    for behind in names.more.as_slice() {
        let name = behind.item.span;
        fields.push(Field { name, pas_type })?;
    }
    Ok(())
}

// What a record of these fields makes, of which the last token stands in this line.
fn record_of(
    scopes: &mut Scopes<'_>,
    fields: Items<Field>,
    end: u32,
) -> Result<Judged<PasType>, Stop>
    ensures answers { (n line : ℕ) (packed semicolon : Option ℕ) (words : List Word) (group : SpecJudged spec.Group)
        → Means words group
        (fields_view scopes.old.spellings.now (table_view scopes.old.spellings.now scopes.old.types) fields)
        → Answers (maybe n k.Packed packed ++ at (n + 1) k.Record line ∷ (words
        ++ (maybe (n + 1) k.Semicolon semicolon ++ at (n + 1) k.End end ∷ [])))
        (spec.record_of packed group semicolon) (made_view scopes.new) result }
    ensures made { IfOk result (λ found. made_view scopes.new found.value
        ≡ made (table_view scopes.old.spellings.now scopes.old.types)
        (spec_types.fields (map (field_view scopes.old.spellings.now) fields))) }
    ensures memory { IfErr result (λ why. why ≡ stop.OutOfMemory) }
    ensures kept { scopes.new ≡ record scopes.old { types = scopes.new.types } }
    ensures grows { Grows scopes.old.types scopes.new.types }
    ensures whole { IfOk result (λ found. (end_in found.end).is_short ≡ false) }
{
    let pas_type = scopes.types.make(Structure::Fields(fields))?;
    Ok(within_limit(scopes, Judged::lawful(pas_type, end)))
}
