//! What changes while the statements of a block are looked at.
ghost use Rattle.std.specs.Prelude.{◌≡◌, ◌∷◌, [], ℕ, List, Some, None};
ghost use Rattle.pas_syntax.specs.Views.{numeral_in};
ghost use Rattle.pas_syntax.specs.Words.{number_at};
ghost use Rattle.pas_typed.specs.TypedViews.{statement_view};
ghost use Rattle.pas_rules.specs.Labels as rule;
ghost use Rattle.pas_scopes.specs.ScopeViews.{scopes_view};
ghost use Rattle.pas_scopes.specs.Answers.{Settles};
ghost use Rattle.pas_types.specs.inner.LabelViews.{goto_in};
ghost use Rattle.pas_types.specs.inner.FlowViews.{IsFlow};

use crate::labels::{Goto, Labels, goto_of};
use pas_scopes::scopes::Scopes;
use pas_scopes::stop::Stop;
use pas_syntax::tree::Numeral;
use pas_typed::typed::Statement;

// What is known of the labels of a block at a place in it, and, in a routine, of those of the program.
#[derive(Drop)]
pub(crate) struct Flow<'p> {
    pub(crate) block: Labels,
    pub(crate) program: Option<&'p Labels>,
}

impl Flow<'_> {
    // What a goto means.
    pub(crate) fn goto_of(&self, scopes: &Scopes<'_>, numeral: Numeral) -> Result<Statement, Stop>
        ensures { (around before : List ℕ) → IsFlow (scopes_view scopes.now) around before self.now → (n : ℕ)
            → Settles (number_at n (numeral_in numeral) ∷ [])
            (rule.goto_of (scopes_view scopes.now) around numeral.value) (statement_view scopes.now.spellings.now)
            result }
    {
        Ok(leads_to(self.target_of(scopes, numeral)?))
    }

    // Where a goto leads.
    fn target_of(&self, scopes: &Scopes<'_>, numeral: Numeral) -> Result<Goto, Stop>
        ensures { (around before : List ℕ) → IsFlow (scopes_view scopes.now) around before self.now
            → Settles (number_at 0 (numeral_in numeral) ∷ [])
            (rule.goto_of (scopes_view scopes.now) around numeral.value) goto_in result }
    {
        match self.program {
            Some(program) => goto_of(program, scopes.last_label, Some(&self.block), numeral),
            None => goto_of(&self.block, scopes.last_label, None, numeral),
        }
    }
}

// The statement that leads there.
fn leads_to(found: Goto) -> Statement
    ensures { (spellings : List ℕ) → statement_view spellings result ≡ goto_in found }
{
    match found {
        Goto::Label(label) => Statement::Goto(label),
        Goto::Last(status) => Statement::GotoLast(status),
    }
}
