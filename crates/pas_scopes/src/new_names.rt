//! Names that are declared together.
ghost use Rattle.std.specs.Prelude.{◌≡◌, ◌∷◌, ◌++◌, [], OnOk};
ghost use Rattle.pas_syntax.specs.Views.{spelled_in, ident_in, separated_in};
ghost use Rattle.pas_rules.specs.Scopes as spec;
ghost use Rattle.pas_rules.specs.Scopes.{contains, spellings_of};
ghost use Rattle.pas_scopes.specs.ScopeViews.{scopes_view};
ghost use Rattle.pas_scopes.specs.NameAnswers.{taken_in, IsNewName, AreNewNames, AreNew};

use crate::name_sets::NameSet;
use crate::scopes::Scopes;
use crate::stop::{Stop, demand};
use pas_syntax::tree::{Ident, Idents};
use wb_base::faults::DUPLICATE_NAME;

/// Where names are declared.
#[derive(Clone, Copy)]
pub enum Region {
    /// In the program.
    Program,
    /// In a routine.
    Routine,
    /// As a field of a record.
    Record,
}

// The names of the text files that need no declaration where they are parameters of the program.
const INPUT: &[u8] = b"input";

const OUTPUT: &[u8] = b"output";

/// Whether a name is that of a text file that needs no declaration where it is a parameter of the program, and that
/// none declares.
pub fn is_standard(name: &[u8]) -> bool
    ensures { result ≡ contains spec.standard_names name.now }
{
    name == INPUT || name == OUTPUT
}

// Whether a name may not be declared in a region.
pub(crate) fn is_taken(scopes: &Scopes<'_>, region: Region, name: &[u8]) -> bool
    ensures { result ≡ contains (taken_in (scopes_view scopes.now) region) name.now }
{
    match region {
        Region::Program => is_standard(name) || scopes.names.has(name),
        Region::Routine => scopes.is_local(name),
        Region::Record => false,
    }
}

/// Refuses a name that may not be declared in a region.
pub fn new_alone(scopes: &Scopes<'_>, region: Region, ident: Ident) -> Result<(), Stop>
    ensures { IsNewName (taken_in (scopes_view scopes.now) region) (ident_in scopes.now.spellings.now ident) result }
{
    let is_new = !is_taken(scopes, region, scopes.spelling(ident.span));
    demand(is_new, DUPLICATE_NAME, ident.line)
}

/// Refuses names that may not be declared in a region behind those before them, and puts them behind these.
pub fn new_names<'p>(
    scopes: &Scopes<'p>,
    region: Region,
    before: &mut NameSet<'p>,
    idents: &Idents,
) -> Result<(), Stop>
    ensures answer { AreNewNames (taken_in (scopes_view scopes.now) region ++ before.old)
        (separated_in (ident_in scopes.now.spellings.now) idents.now) result }
    ensures new { OnOk result (AreNew (taken_in (scopes_view scopes.now) region ++ before.old)
        (spellings_of (separated_in (ident_in scopes.now.spellings.now) idents.now))) }
    ensures ok { OnOk result (before.new
        ≡ before.old ++ spellings_of (separated_in (ident_in scopes.now.spellings.now) idents.now)) }
{
    new_name(scopes, region, before, idents.first)?;
    for behind in idents.more.as_slice() {
        new_name(scopes, region, before, behind.item)?;
    }
    Ok(())
}

// Refuses a name that may not be declared in a region behind those before it, and puts it behind these.
fn new_name<'p>(
    scopes: &Scopes<'p>,
    region: Region,
    before: &mut NameSet<'p>,
    ident: Ident,
) -> Result<(), Stop>
    ensures answer { IsNewName (taken_in (scopes_view scopes.now) region ++ before.old)
        (ident_in scopes.now.spellings.now ident) result }
    ensures ok { OnOk result (before.new ≡ before.old ++ spelled_in scopes.now.spellings.now ident.span ∷ []) }
{
    let name = scopes.spelling(ident.span);
    let is_new = !is_taken(scopes, region, name) && !before.has(name);
    demand(is_new, DUPLICATE_NAME, ident.line)?;
    before.add(name)?;
    Ok(())
}
