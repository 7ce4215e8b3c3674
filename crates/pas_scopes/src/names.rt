//! Names, and what they stand for.
ghost use Rattle.std.specs.Prelude.{◌≡◌, [], map, option_map, IfSome, OnOk, OnErr};
ghost use Rattle.pas_rules.specs.Scopes as spec;
ghost use Rattle.pas_rules.specs.Scopes.{entity_in, names_of, contains};
ghost use Rattle.pas_scopes.specs.NameViews.{entity_view, IsSmallEntity};
ghost use Rattle.pas_rules.specs.Scopes.{with_new};
ghost use Rattle.pas_scopes.specs.OutsideViews.{outside_view};

use indexmap::IndexMap;
use pas_tokens::GREATEST_NUMBER;
use pas_typed::typed::{FileStep, FileTest, Function, Slot};
use pas_typed::types::{Base, PasType};
use std::alloc::{AllocError, Global};
use std::marker::Model;

/// The required procedures that are no steps of a file.
#[derive(Clone, Copy, Debug, PartialEq, Eq)]
pub enum Procedure {
    /// `read`.
    Read,
    /// `readln`.
    Readln,
    /// `write`.
    Write,
    /// `writeln`.
    Writeln,
    /// `uexit`.
    Uexit,
}

/// What a name stands for. One of which the declaration shows a fault is unclear.
#[derive(Clone, Copy, Debug, PartialEq, Eq)]
pub enum Entity {
    /// A constant: its base, and its value as a number.
    Constant(Base, i64),
    /// A type.
    Type(PasType),
    /// A variable.
    Variable(Slot),
    /// The routine with this number.
    Routine(u32),
    /// A required function.
    Function(Function),
    /// `eof` or `eoln`.
    FileTest(FileTest),
    /// A required procedure that is a step of a file.
    FileStep(FileStep),
    /// Another required procedure.
    Procedure(Procedure),
    /// A name of which the declaration shows a fault.
    Unclear,
}

/// Names, each with what it stands for, in the order of their declarations. To contracts they are that list.
#[derive(Drop)]
pub struct Names<'p> {
    entities: IndexMap<&'p [u8], Entity>,
}

impl<'p> Model for Names<'p> {
    ghost use Rattle.std.specs.Prelude.{List};
    ghost use Rattle.pas_rules.specs.Scopes.{Named};

    ghost Value = { List Named };

    ghost use Rattle.pas_scopes.specs.NamesInside.{names_in};

    ghost view = { names_in };

    ghost use Rattle.pas_scopes.specs.NamesInside.{AreSmallInside};

    ghost invariant = { AreSmallInside };
}

impl<'p> Names<'p> {
    /// No names.
    pub fn new(alloc: Global) -> Names<'p>
        ensures { result ≡ [] }
    {
        Names {
            entities: IndexMap::new(alloc),
        }
    }

    /// What a name stands for, if it is there.
    pub fn get(&self, name: &[u8]) -> Option<Entity>
        ensures entity { option_map entity_view result ≡ entity_in self.now name.now }
        ensures small { IfSome result (λ entity. IsSmallEntity (entity_view entity)) }
    {
        self.entities.get(name).copied()
    }

    /// Whether a name is there.
    pub fn has(&self, name: &[u8]) -> bool
        ensures { result ≡ contains (names_of self.now) name.now }
    {
        self.entities.contains_key(name)
    }

    /// Declares a name, where it is not there yet. Where no memory is found, the names are as they were.
    pub fn declare(&mut self, name: &'p [u8], entity: Entity) -> Result<(), AllocError>
        requires { IsSmallEntity (entity_view entity) }
        ensures ok { OnOk result (self.new ≡ with_new self.old name.now (entity_view entity)) }
        ensures err { OnErr result (self.new ≡ self.old) }
    {
        if !self.has(name) {
            self.entities.insert(name, entity)?;
        }
        Ok(())
    }
}

// A name that lies outside each program, and what it stands for.
#[derive(Clone, Copy)]
struct Outside {
    name: &'static [u8],
    entity: Entity,
}

// The integers, the chars and the truth values as types.
const INTEGER: Entity = Entity::Type(PasType::Whole(Base::Integer));

const CHAR: Entity = Entity::Type(PasType::Whole(Base::Char));

const BOOLEAN: Entity = Entity::Type(PasType::Whole(Base::Boolean));

// The required names.
#[rattlefmt::skip]
const OUTSIDE: [Outside; 22] = [
    Outside { name: b"integer", entity: INTEGER },
    Outside { name: b"char", entity: CHAR },
    Outside { name: b"boolean", entity: BOOLEAN },
    Outside { name: b"text", entity: Entity::Type(PasType::Text) },
    Outside { name: b"false", entity: Entity::Constant(Base::Boolean, 0) },
    Outside { name: b"true", entity: Entity::Constant(Base::Boolean, 1) },
    Outside { name: b"maxint", entity: Entity::Constant(Base::Integer, GREATEST_NUMBER as i64) },
    Outside { name: b"ord", entity: Entity::Function(Function::Ord) },
    Outside { name: b"chr", entity: Entity::Function(Function::Chr) },
    Outside { name: b"abs", entity: Entity::Function(Function::Abs) },
    Outside { name: b"odd", entity: Entity::Function(Function::Odd) },
    Outside { name: b"eof", entity: Entity::FileTest(FileTest::Eof) },
    Outside { name: b"eoln", entity: Entity::FileTest(FileTest::Eoln) },
    Outside { name: b"reset", entity: Entity::FileStep(FileStep::Reset) },
    Outside { name: b"rewrite", entity: Entity::FileStep(FileStep::Rewrite) },
    Outside { name: b"get", entity: Entity::FileStep(FileStep::Get) },
    Outside { name: b"put", entity: Entity::FileStep(FileStep::Put) },
    Outside { name: b"read", entity: Entity::Procedure(Procedure::Read) },
    Outside { name: b"readln", entity: Entity::Procedure(Procedure::Readln) },
    Outside { name: b"write", entity: Entity::Procedure(Procedure::Write) },
    Outside { name: b"writeln", entity: Entity::Procedure(Procedure::Writeln) },
    Outside { name: b"uexit", entity: Entity::Procedure(Procedure::Uexit) },
];

// What a required name stands for.
pub(crate) fn required(name: &[u8]) -> Option<Entity>
    ensures entity { option_map entity_view result ≡ entity_in spec.required name.now }
    ensures small { IfSome result (λ entity. IsSmallEntity (entity_view entity)) }
{
    entity_among(&OUTSIDE, name)
}

// What a name stands for in these rows.
fn entity_among(rows: &[Outside], name: &[u8]) -> Option<Entity>
    ensures { option_map entity_view result ≡ entity_in (map outside_view rows.now) name.now }
{
    for row in rows {
        if row.name == name {
            return Some(row.entity);
        }
    }
    None
}
