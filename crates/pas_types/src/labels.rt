//! Labels and gotos (ISO 7185, 6.8.1 and 6.8.2.4, in this project's profile).
ghost use Rattle.std.specs.Prelude.{◌≡◌, ℕ, List, [], ◌∷◌, ◌++◌, IfOk, OnOk, OnErr, nat_eq, option_to_list};
ghost use Rattle.std.specs.List.{IsDistinct};
ghost use Rattle.std.specs.Map.{lookup};
ghost use Rattle.std.specs.Option.{option_copied};
ghost use Rattle.pas_syntax.specs.Views.{numeral_in, separated_in, if_there};
ghost use Rattle.pas_syntax.specs.Words.{number_at};
ghost use Rattle.pas_syntax.specs.ProgramViews.{statement_in, statements_in, labels_in};
ghost use Rattle.pas_rules.specs.Labels as rule;
ghost use Rattle.pas_rules.specs.Labels.{has_label, labels_of_list};
ghost use Rattle.pas_rules.specs.Statements as statement_rule;
ghost use Rattle.pas_scopes.specs.Ends.{lowest_of};
ghost use Rattle.pas_scopes.specs.Answers.{stands_at, Settles};
ghost use Rattle.pas_types.specs.inner.LabelViews.{spot_in, numbers_of, put_label, entered, left, stood};
ghost use Rattle.pas_types.specs.inner.LabelViews.{standing_faults, is_around_in, all_stand_in};
ghost use Rattle.pas_types.specs.inner.LabelViews.{goto_in, goto_by, program_by, main_by};
ghost use Rattle.pas_types.specs.inner.LabelAnswers.{fresh_label, IsNew, Numbers, Declares};

use indexmap::IndexMap;
use pas_rules::GREATEST_LABEL;
use pas_scopes::stop::{Stop, demand, fault};
use pas_syntax::tree::{Labels as LabelPart, Numeral, Plain, Separated, Statement, Statements};
use sqlite_items::Items;
use std::alloc::{AllocError, Global};
use std::marker::Model;
use wb_base::OutOfMemory;
use wb_base::faults::{CONSTANT_OUT_OF_RANGE, DUPLICATE_NAME, WRONG_GOTO, WRONG_LABEL};

// What is known of a label of a block at a place in it.
#[derive(Clone, Copy)]
pub(crate) struct Label {
    // Whether it stands before the place.
    stands: bool,
    // How many statements have it in the lists around the place.
    around: u64,
}

// The labels of a block, in the order of their declarations.
#[derive(Drop)]
pub(crate) struct Labels {
    labels: IndexMap<u32, Label>,
}

impl Model for Labels {
    ghost use Rattle.std.specs.Prelude.{ℕ, List};
    ghost use Rattle.pas_types.specs.declared.labels.Label.{Label};

    ghost Value = { List (ℕ × Label) };

    ghost view = { λ inside. inside.labels.entries };
}

impl Labels {
    // No labels.
    pub(crate) fn new(alloc: Global) -> Labels
        ensures { result ≡ [] }
    {
        Labels {
            labels: IndexMap::new(alloc),
        }
    }

    // The labels that a part of the declarations declares.
    pub(crate) fn declared(alloc: Global, part: Option<&LabelPart>) -> Result<Labels, Stop>
        ensures { (spellings : List ℕ) → Declares (if_there (labels_in spellings) (option_copied part.entry)) result }
    {
        match part {
            Some(part) => Labels::numbered(alloc, &part.numbers),
            None => Ok(Labels::new(alloc)),
        }
    }

    // The labels with these numbers.
    fn numbered(alloc: Global, numbers: &Separated<Numeral>) -> Result<Labels, Stop>
        ensures { Numbers (separated_in numeral_in numbers.now) result }
    {
        let mut labels = Labels::new(alloc);
        labels.declare(numbers.first)?;
        for behind in numbers.more.as_slice() {
            labels.declare(behind.item)?;
        }
        Ok(labels)
    }

    // Declares a label.
    fn declare(&mut self, numeral: Numeral) -> Result<(), Stop>
        ensures answer { IsNew self.old (numeral_in numeral) result }
        ensures ok { OnOk result (self.new ≡ self.old ++ fresh_label numeral.value ∷ []) }
    {
        demand(!self.has(numeral.value), DUPLICATE_NAME, numeral.line)?;
        demand(
            numeral.value <= GREATEST_LABEL,
            CONSTANT_OUT_OF_RANGE,
            numeral.line,
        )?;
        let label = Label {
            stands: false,
            around: 0,
        };
        self.labels.insert(numeral.value, label)?;
        Ok(())
    }

    // Whether a label is declared.
    pub(crate) fn has(&self, label: u32) -> bool
        ensures { result ≡ has_label (numbers_of self.now) label }
    {
        self.labels.contains_key(&label)
    }

    // What is known of a label, if it is declared.
    fn known(&self, label: u32) -> Option<Label>
        ensures { result ≡ lookup (nat_eq label) self.now }
    {
        self.labels.get(&label).copied()
    }

    // Whether a label stands in a list around this place.
    fn is_around(&self, label: u32) -> bool
        ensures { result ≡ is_around_in self.now label }
    {
        match self.known(label) {
            Some(found) => found.around > 0,
            None => false,
        }
    }

    // Takes this as what is known of a label, if it is declared.
    fn put(&mut self, label: u32, known: Label)
        ensures put { self.new ≡ put_label label known self.old }
        ensures unique { IsDistinct nat_eq (numbers_of self.old) }
    {
        if let Some(index) = self.labels.get_index_of(&label) {
            self.labels[index] = known;
        }
    }

    // Goes into a list.
    pub(crate) fn enter(&mut self, list: &Statements) -> Result<(), OutOfMemory>
        ensures { (spellings : List ℕ)
            → OnOk result (self.new ≡ entered (labels_of_list (statements_in spellings list.now)) self.old) }
    {
        self.enter_statement(label_of(&list.first))?;
        for more in list.more.as_slice() {
            self.enter_statement(label_of(&more.statement))?;
        }
        Ok(())
    }

    // Goes into the list of a statement with this label. More lists than can be counted are more than there is memory
    // for.
    fn enter_statement(&mut self, label: Option<u32>) -> Result<(), OutOfMemory>
        ensures { OnOk result (self.new ≡ entered (option_to_list label) self.old) }
    {
        match label {
            Some(label) => match self.known(label) {
                Some(found) => {
                    let around = found.around.checked_add(1).ok_or(OutOfMemory)?;
                    self.put(label, Label { around, ..found });
                    Ok(())
                }
                None => Ok(()),
            },
            None => Ok(()),
        }
    }

    // Leaves a list.
    pub(crate) fn leave(&mut self, list: &Statements)
        ensures { (spellings : List ℕ)
            → self.new ≡ left (labels_of_list (statements_in spellings list.now)) self.old }
    {
        self.leave_statement(label_of(&list.first));
        for more in list.more.as_slice() {
            self.leave_statement(label_of(&more.statement));
        }
    }

    // Leaves the list of a statement with this label.
    fn leave_statement(&mut self, label: Option<u32>)
        ensures { self.new ≡ left (option_to_list label) self.old }
    {
        if let Some(label) = label {
            if let Some(found) = self.known(label) {
                let around = found.around.saturating_sub(1);
                self.put(label, Label { around, ..found });
            }
        }
    }

    // Puts a label before a statement: it is declared, stands nowhere before, and the statement is one of a list.
    pub(crate) fn stand(&mut self, numeral: Numeral, spot: Spot) -> Result<(), Stop>
        ensures answer { result
            ≡ stands_at numeral.line (lowest_of (standing_faults self.old (spot_in spot) numeral.value)) }
        ensures ok { OnOk result (self.new ≡ stood numeral.value self.old) }
        ensures err { OnErr result (self.new ≡ self.old) }
    {
        demand(
            numeral.value <= GREATEST_LABEL,
            CONSTANT_OUT_OF_RANGE,
            numeral.line,
        )?;
        match (spot, self.known(numeral.value)) {
            (Spot::InList, Some(label)) if !label.stands => {
                let stands = true;
                self.put(numeral.value, Label { stands, ..label });
                Ok(())
            }
            _ => Err(fault(WRONG_LABEL, numeral.line)),
        }
    }

    // The labels.
    pub(crate) fn numbers(&self, alloc: Global) -> Result<Items<u32>, AllocError>
        ensures { IfOk result (λ numbers. numbers ≡ numbers_of self.now) }
    {
        let mut numbers = Items::new(alloc);
        for number in self.labels.keys() {
            numbers.push(*number)?;
        }
        Ok(numbers)
    }

    // Whether each label stands.
    pub(crate) fn all_stand(&self) -> bool
        ensures { result ≡ all_stand_in self.now }
    {
        self.labels.values().all(|label| label.stands)
    }
}

// Where a statement stands: in a list, or as a part of another statement.
#[derive(Clone, Copy)]
pub(crate) enum Spot {
    InList,
    Elsewhere,
}

// The label of the last statement of a list, if that is empty.
pub(crate) fn label_at_end(list: &Statements) -> Option<u32>
    ensures { (spellings : List ℕ) → result ≡ rule.label_at_end (statements_in spellings list.now) }
{
    match list.more.as_slice().last() {
        Some(more) => label_on_empty(&more.statement),
        None => label_on_empty(&list.first),
    }
}

// The label of a statement, if that is empty.
fn label_on_empty(statement: &Statement) -> Option<u32>
    ensures { (spellings : List ℕ) → result ≡ rule.label_on_empty (statement_in spellings statement.now) }
{
    match statement {
        Statement::Labelled(label, plain) => match plain.get() {
            Plain::Empty => Some(label.numeral.value),
            _ => None,
        },
        Statement::Unlabelled(_) => None,
    }
}

// The label of a statement.
pub(crate) fn label_of(statement: &Statement) -> Option<u32>
    ensures { (spellings : List ℕ) → result ≡ statement_rule.label_of (statement_in spellings statement.now) }
{
    match statement {
        Statement::Labelled(label, _) => Some(label.numeral.value),
        Statement::Unlabelled(_) => None,
    }
}

// Where a goto leads: to a label of its block, or to the last label of the program, which ends it with this status.
#[derive(Clone, Copy, Debug, PartialEq, Eq)]
pub(crate) enum Goto {
    Label(u32),
    Last(u8),
}

// What a goto to a label means, in a routine, of which the labels hide those of the program, or in the program.
pub(crate) fn goto_of(
    program: &Labels,
    last: Option<u32>,
    routine: Option<&Labels>,
    numeral: Numeral,
) -> Result<Goto, Stop>
    ensures { Settles (number_at 0 (numeral_in numeral) ∷ [])
        (goto_by program.now last (option_copied routine.entry) numeral.value) goto_in result }
{
    demand(
        numeral.value <= GREATEST_LABEL,
        CONSTANT_OUT_OF_RANGE,
        numeral.line,
    )?;
    match routine {
        Some(routine) if routine.has(numeral.value) => to_list(routine, numeral),
        Some(_) => to_program(program, last, numeral),
        None => in_program(program, last, numeral),
    }
}

// What a goto to a label of its own block means: that must stand in a list around it.
fn to_list(labels: &Labels, numeral: Numeral) -> Result<Goto, Stop>
    ensures { Settles (number_at 0 (numeral_in numeral) ∷ [])
        (rule.to_list (is_around_in labels.now numeral.value) numeral.value) goto_in result }
{
    demand(labels.is_around(numeral.value), WRONG_GOTO, numeral.line)?;
    Ok(Goto::Label(numeral.value))
}

// What a goto from a routine to a label of the program means: only the last one can be reached.
fn to_program(program: &Labels, last: Option<u32>, numeral: Numeral) -> Result<Goto, Stop>
    ensures { Settles (number_at 0 (numeral_in numeral) ∷ []) (program_by program.now last numeral.value) goto_in
        result }
{
    demand(program.has(numeral.value), WRONG_LABEL, numeral.line)?;
    demand(last == Some(numeral.value), WRONG_GOTO, numeral.line)?;
    Ok(Goto::Last(1))
}

// What a goto in the program means.
fn in_program(program: &Labels, last: Option<u32>, numeral: Numeral) -> Result<Goto, Stop>
    ensures { Settles (number_at 0 (numeral_in numeral) ∷ []) (main_by program.now last numeral.value) goto_in result }
{
    demand(program.has(numeral.value), WRONG_LABEL, numeral.line)?;
    if last == Some(numeral.value) {
        Ok(Goto::Last(0))
    } else {
        to_list(program, numeral)
    }
}
