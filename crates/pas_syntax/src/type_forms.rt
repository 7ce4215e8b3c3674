//! How types are read.
ghost use Rattle.std.specs.Prelude.{◌≡◌, ◌+◌, ℕ, length};
ghost use Rattle.pas_tokens.specs.declared.kinds.Kind.TheVariants as k;
ghost use Rattle.pas_syntax.specs.Views.{ident_in, constant_in, simple_in, separated_in};
ghost use Rattle.pas_syntax.specs.ProgramViews.{type_in, type_name_in};
ghost use Rattle.pas_syntax.specs.inner.Prog.{head, look, skip, bind};
ghost use Rattle.pas_syntax.specs.inner.Marks.{mark};
ghost use Rattle.pas_syntax.specs.inner.Readers.{ident as ident_reader};
ghost use Rattle.pas_syntax.specs.inner.Places.{Fits, Parses, ParsesIn, same};
ghost use Rattle.pas_syntax.specs.inner.StatementReaders.{with_line};
ghost use Rattle.pas_syntax.specs.inner.TypeReaders as spec;
ghost use Rattle.pas_syntax.specs.inner.DeclarationReaders.{type_name as type_name_reader};
ghost use Rattle.pas_syntax.specs.inner.TypeViews.{IsLeftOut, array_head_in, record_in, group_in, field_list_in};

use crate::constants::constant;
use crate::depth::Depth;
use crate::reader::Reader;
use crate::stop::Stop;
use crate::tree::{
    ArrayHead, Behind, Constant, FieldGroup, FileHead, Ident, Idents, MoreFields, RecordForm,
    Separated, Simple, TypeForm,
};
use pas_tokens::Kind;
use sqlite_items::{Boxed, Items};
use std::alloc::Global;
use wb_base::faults::{ENUMERATIONS, POINTERS, SETS};

// The fields of a record type, and the line of the semicolon behind the last.
#[derive(Drop)]
pub(crate) struct FieldList {
    first: FieldGroup,
    more: Items<MoreFields>,
    semicolon: Option<u32>,
}

// Reads a type.
#[cycle(type_form)]
pub(crate) fn type_form(
    alloc: Global,
    reader: &mut Reader<'_>,
    depth: Depth,
) -> Result<TypeForm, Stop>
    ensures { Parses (λ m. spec.type_form m depth.forms) type_in reader.old result reader.new }
{
    match reader.kind() {
        Kind::Packed => {
            let packed = Some(reader.pass());
            structured(alloc, reader, depth, packed)
        }
        Kind::Array | Kind::Record | Kind::File => structured(alloc, reader, depth, None),
        _ => Ok(TypeForm::Simple(simple(reader)?)),
    }
}

// Reads an array, record or file type behind `packed`, if that is there.
#[cycle(type_form)]
fn structured(
    alloc: Global,
    reader: &mut Reader<'_>,
    depth: Depth,
    packed: Option<u32>,
) -> Result<TypeForm, Stop>
    ensures { ParsesIn (length reader.old.tokens)
        (λ m. look (spec.structured_at (spec.type_form m) m depth.forms packed)) type_in reader.old result reader.new }
{
    match reader.kind() {
        Kind::Array => array_form(alloc, reader, depth, packed),
        Kind::Record => {
            let inner = depth.in_form()?;
            let form = record_form(alloc, reader, inner, packed)?;
            Ok(TypeForm::Record(Boxed::new(alloc, form)?))
        }
        Kind::File => file_form(alloc, reader, depth, packed),
        _ => Err(Stop::Misplaced),
    }
}

// Reads an array type behind `packed`, if that is there.
#[cycle(type_form)]
fn array_form(
    alloc: Global,
    reader: &mut Reader<'_>,
    depth: Depth,
    packed: Option<u32>,
) -> Result<TypeForm, Stop>
    requires { k.Array ≡ (head reader.old.tokens).kind }
    ensures { ParsesIn (length reader.old.tokens)
        (λ m. with_line (λ line. spec.array_by (spec.type_form m) m depth.forms packed line)) type_in reader.old result
        reader.new }
{
    let inner = depth.in_form()?;
    let head = array_head(alloc, reader, inner, packed)?;
    let element = type_form(alloc, reader, inner)?;
    Ok(TypeForm::Array(Boxed::new(alloc, head)?, Boxed::new(alloc, element)?))
}

// Reads a file type behind `packed`, if that is there.
#[cycle(type_form)]
fn file_form(
    alloc: Global,
    reader: &mut Reader<'_>,
    depth: Depth,
    packed: Option<u32>,
) -> Result<TypeForm, Stop>
    requires { k.File ≡ (head reader.old.tokens).kind }
    ensures { ParsesIn (length reader.old.tokens)
        (λ m. with_line (λ line. spec.file_by (spec.type_form m) m depth.forms packed line)) type_in reader.old result
        reader.new }
{
    let inner = depth.in_form()?;
    let line = reader.pass();
    let of_line = reader.take(Kind::Of)?;
    let component = type_form(alloc, reader, inner)?;
    let head = FileHead {
        packed,
        line,
        of_line,
    };
    Ok(TypeForm::File(head, Boxed::new(alloc, component)?))
}

// Reads `"array" "[" simple {"," simple} "]" "of"`.
fn array_head(
    alloc: Global,
    reader: &mut Reader<'_>,
    depth: Depth,
    packed: Option<u32>,
) -> Result<ArrayHead, Stop>
    requires { k.Array ≡ (head reader.old.tokens).kind }
    ensures { (outer : ℕ) → depth.forms ≡ outer + 1 → ParsesIn (length reader.old.tokens)
        (λ m. with_line (λ line. skip (spec.array_start_by m outer packed line))) array_head_in reader.old result
        reader.new }
{
    let line = reader.pass();
    let opened = open_indexes(reader, depth)?;
    let indexes = simples(alloc, reader)?;
    let closed = reader.take(Kind::RightBracket)?;
    let of_line = reader.take(Kind::Of)?;
    Ok(ArrayHead {
        packed,
        line,
        opened,
        indexes,
        closed,
        of_line,
    })
}

// Reads the bracket that opens the indexes of an array type.
fn open_indexes(reader: &mut Reader<'_>, depth: Depth) -> Result<u32, Stop>
    ensures { (outer : ℕ) → depth.forms ≡ outer + 1
        → Parses (λ _. look (spec.open_at (outer + 2))) same reader.old result reader.new }
{
    match reader.kind() {
        Kind::LeftBracket => {
            depth.in_form()?;
            Ok(reader.pass())
        }
        _ => Err(Stop::Misplaced),
    }
}

// Reads `"record" ids ":" type {";" ids ":" type} [";"] "end"`.
#[cycle(type_form)]
fn record_form(
    alloc: Global,
    reader: &mut Reader<'_>,
    depth: Depth,
    packed: Option<u32>,
) -> Result<RecordForm, Stop>
    requires { k.Record ≡ (head reader.old.tokens).kind }
    ensures { ParsesIn (length reader.old.tokens)
        (λ m. with_line (λ line. spec.record_body (spec.type_form m) m depth.forms packed line)) record_in reader.old
        result reader.new }
{
    let line = reader.pass();
    let fields = fields(alloc, reader, depth)?;
    let end = reader.take(Kind::End)?;
    Ok(RecordForm {
        packed,
        line,
        first: fields.first,
        more: fields.more,
        semicolon: fields.semicolon,
        end,
    })
}

// Reads `ids ":" type {";" ids ":" type} [";"]`.
#[cycle(type_form)]
fn fields(alloc: Global, reader: &mut Reader<'_>, depth: Depth) -> Result<FieldList, Stop>
    ensures { Parses (λ m. spec.fields_by (spec.type_form m) m depth.forms) field_list_in reader.old result reader.new }
{
    let first = field_group(alloc, reader, depth)?;
    let mut more = Items::new(alloc);
    'more: loop {
        match reader.kind() {
            Kind::Semicolon => {
                let line = reader.pass();
                match reader.kind() {
                    Kind::Name => {
                        let group = field_group(alloc, reader, depth)?;
                        more.push(MoreFields { line, group })?;
                    }
                    _ => {
                        return Ok(FieldList {
                            first,
                            more,
                            semicolon: Some(line),
                        });
                    }
                }
            }
            _ => {
                return Ok(FieldList {
                    first,
                    more,
                    semicolon: None,
                });
            }
        }
    }
}

// Reads `ids ":" type`.
#[cycle(type_form)]
fn field_group(alloc: Global, reader: &mut Reader<'_>, depth: Depth) -> Result<FieldGroup, Stop>
    ensures { Parses (λ m. spec.group_by (spec.type_form m) m depth.forms) group_in reader.old result reader.new }
{
    let names = idents(alloc, reader)?;
    let colon = reader.take(Kind::Colon)?;
    let form = type_form(alloc, reader, depth)?;
    Ok(FieldGroup { names, colon, form })
}

// Reads `id {"," id}`.
pub(crate) fn idents(alloc: Global, reader: &mut Reader<'_>) -> Result<Idents, Stop>
    ensures { Parses (λ m. spec.idents_by m) (λ spellings. separated_in (ident_in spellings)) reader.old result
        reader.new }
{
    let first = reader.ident()?;
    let mut more = Items::new(alloc);
    'more: loop {
        match reader.kind() {
            Kind::Comma => {
                let line = reader.pass();
                let item = reader.ident()?;
                more.push(Behind { line, item })?;
            }
            _ => return Ok(Separated { first, more }),
        }
    }
}

// Reads `simple {"," simple}`.
fn simples(alloc: Global, reader: &mut Reader<'_>) -> Result<Separated<Simple>, Stop>
    ensures { Parses (λ m. spec.items_by spec.simple m) (λ spellings. separated_in (simple_in spellings)) reader.old
        result reader.new }
{
    let first = simple(reader)?;
    let mut more = Items::new(alloc);
    'more: loop {
        match reader.kind() {
            Kind::Comma => {
                let line = reader.pass();
                let item = simple(reader)?;
                more.push(Behind { line, item })?;
            }
            _ => return Ok(Separated { first, more }),
        }
    }
}

// Reads `id | const ".." const`.
fn simple(reader: &mut Reader<'_>) -> Result<Simple, Stop>
    ensures { Parses (λ _. spec.simple) simple_in reader.old result reader.new }
{
    match reader.kind() {
        Kind::Name => named_simple(reader),
        _ => {
            not_left_out(reader)?;
            let low = constant(reader)?;
            range(reader, low)
        }
    }
}

// Reads `id [".." const]`.
fn named_simple(reader: &mut Reader<'_>) -> Result<Simple, Stop>
    ensures { Parses (λ _. bind ident_reader (λ name. look (spec.behind_simple_name name))) simple_in reader.old result
        reader.new }
{
    let name = reader.ident()?;
    match reader.kind() {
        Kind::Dots => range(reader, Constant::Named(None, name)),
        _ => Ok(Simple::Named(name)),
    }
}

// Reads `".." const` behind a lower bound.
fn range(reader: &mut Reader<'_>, low: Constant) -> Result<Simple, Stop>
    ensures { Parses (λ _. spec.range_by (constant_in reader.old.spellings low)) simple_in reader.old result
        reader.new }
{
    let line = reader.take(Kind::Dots)?;
    let high = constant(reader)?;
    Ok(Simple::Range(low, line, high))
}

// Reads the name of a type.
pub(crate) fn type_name(reader: &mut Reader<'_>) -> Result<Ident, Stop>
    ensures { Parses (λ _. type_name_reader) type_name_in reader.old result reader.new }
{
    match reader.kind() {
        Kind::Name => reader.ident(),
        _ => {
            not_left_out(reader)?;
            Err(Stop::Misplaced)
        }
    }
}

// Refuses what is left out where a type may stand.
fn not_left_out(reader: &Reader<'_>) -> Result<(), Stop>
    ensures { IsLeftOut (head reader.now.tokens).kind result }
{
    match reader.kind() {
        Kind::LeftParenthesis => Err(Stop::LeftOut(ENUMERATIONS)),
        Kind::Set => Err(Stop::LeftOut(SETS)),
        Kind::Caret => Err(Stop::LeftOut(POINTERS)),
        _ => Ok(()),
    }
}
