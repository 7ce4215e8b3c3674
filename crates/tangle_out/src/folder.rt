//! The folder of constants.
ghost use Rattle.std.specs.Prelude.{◌≡◌, ◌++◌, [], ◌∷◌, List, map, All, IfOk, IfErr, OnErr, IfSome, IfNone};
ghost use Rattle.macro_expand.specs.Items.{Expanded, digit, item_of};
ghost use Rattle.tangle_out.specs.Pieces.{piece_of};
ghost use Rattle.macro_expand.specs.Foldable.{IsFoldable, IsDigit};
ghost use Rattle.tangle_out.specs.Folder.{Stands, open_metacomments, HasRoomFor, IsShort};
ghost use Rattle.tangle_out.specs.Folder.{Adds, Shows, AddsAtEnd, ShowsAtEnd, pieces_by};

use crate::folding::{Kept, check, fault_of_held};
use crate::pieces::OutPiece;
use crate::putting::{Follower, Given, glued, put_held};
use crate::units::unit_of;
use arrayvec::ArrayVec;
use macro_expand::Item;
use std::marker::{Model, PhantomData};
use wb_base::faults::METACOMMENT_NOT_ENDED;

#[cfg(test)]
mod tests;

/// What a folder made of an item in a step. This project's own.
#[derive(Drop)]
pub enum Step<'w> {
    /// The item was taken, and adds no piece.
    Nothing,
    /// The item was taken, and adds this piece.
    Gives(OutPiece<'w>),
    /// The item was left for `push`: it may add several pieces, or show a fault.
    Left,
}

/// Folds constants: takes the items of an expansion one at a time and answers the pieces of the output, in which signed
/// constants next to each other are added. It keeps no history: one partial number and what is held of one run.
/// TANGLE folds so; which constants are added, and the faults, are this project's own.
#[derive(Drop)]
pub struct Folder<'w> {
    number: Option<u32>,
    kept: Kept,
    joined: bool,
    web: PhantomData<&'w [u8]>,
}

impl<'w> Model for Folder<'w> {
    ghost use Rattle.std.specs.Prelude.{ℕ};
    ghost use Rattle.tangle_out.specs.Folder.{FolderState};
    ghost use Rattle.tangle_out.specs.inner.Table.{IsSmall, IsSmallNumber};

    ghost Value = { FolderState };

    ghost view = { λ folder. record { number = folder.number; kept = folder.kept; joined = folder.joined } };

    ghost invariant = { λ folder. IsSmallNumber folder.number × IsSmall folder.kept.held };
}

impl<'w> Folder<'w> {
    /// A folder that was given no item.
    pub fn new() -> Self
        ensures { Stands result [] }
    {
        Folder {
            number: None,
            kept: Kept::new(),
            joined: false,
            web: PhantomData,
        }
    }

    /// How many metacomments are begun and not ended.
    pub fn open_metacomments(&self) -> u32
        ensures { result ≡ open_metacomments self.now }
    {
        self.kept.depth
    }

    /// Takes the next item, and answers the pieces that it adds. A digit must be the byte of a decimal digit, a number
    /// from -2147483647 to 2147483647, and a word must have at most 50 bytes; at the begin of a metacomment fewer than
    /// 4294967295 must be open.
    ///
    /// # Errors
    ///
    /// The number of the fault that the item shows: `NUMBERS_WITHOUT_SIGN`, `CONSTANT_TOO_BIG`, `REAL_CONSTANT`,
    /// `STRING_TOO_LONG` or `STRAY_END_OF_METACOMMENT` of `wb_base::faults`. The folder is then as it was.
    pub fn push(&mut self, item: Item<'w>) -> Result<ArrayVec<OutPiece<'w>, 4>, u16>
        requires item { IsFoldable (item_of item) }
        requires room { HasRoomFor self.old (item_of item) }
        ensures ok { IfOk result (λ added. (items : List Expanded) → Stands self.old items
            → Adds items (item_of item.entry) (map piece_of added.items)
            × Stands self.new (items ++ item_of item.entry ∷ [])) }
        ensures fault { IfErr result (λ code. (items : List Expanded) → Stands self.old items
            → Shows items (item_of item.entry) code) }
        ensures unchanged { OnErr result (self.new ≡ self.old) }
        ensures short { IfOk result (λ added. All IsShort (map piece_of added.items)) }
    {
        if let Item::Digit(byte) = item {
            self.number = Some(self.kept.with_digit(self.number, byte)?);
            return Ok(ArrayVec::new());
        }
        let mut given = Given::new(self.joined);
        let kept = self.kept.after_digits(self.number, &mut given)?;
        self.kept = kept.after(unit_of(item), &mut given)?;
        self.joined = given.joined;
        self.number = None;
        Ok(given.pieces)
    }

    /// Takes the next item where it plainly adds one piece or none, as most items do, and else leaves the folder as it
    /// was. The conditions are those of `push`, which takes each item, at more cost.
    pub fn step(&mut self, item: Item<'w>) -> Step<'w>
        requires item { IsFoldable (item_of item) }
        requires room { HasRoomFor self.old (item_of item) }
        ensures taken { IfSome (pieces_by result) (λ pieces. (items : List Expanded) → Stands self.old items
            → Adds items (item_of item.entry) pieces × Stands self.new (items ++ item_of item.entry ∷ [])) }
        ensures left { IfNone (pieces_by result) (self.new ≡ self.old) }
        ensures short { IfSome (pieces_by result) (λ pieces. All IsShort pieces) }
    {
        if let Item::Digit(byte) = item {
            return self.step_digit(byte);
        }
        if self.number.is_some() {
            return Step::Left;
        }
        match self.kept.take_plain(unit_of(item)) {
            Some(Some(piece)) => {
                let piece = glued(self.joined, piece);
                self.joined = false;
                Step::Gives(piece)
            }
            Some(None) => Step::Nothing,
            None => Step::Left,
        }
    }

    // The same for a digit.
    fn step_digit(&mut self, byte: u8) -> Step<'w>
        requires { IsDigit byte }
        ensures taken { IfSome (pieces_by result) (λ pieces. (items : List Expanded) → Stands self.old items
            → Adds items (digit byte) pieces × Stands self.new (items ++ digit byte ∷ [])) }
        ensures left { IfNone (pieces_by result) (self.new ≡ self.old) }
        ensures short { IfSome (pieces_by result) (λ pieces. All IsShort pieces) }
    {
        match self.kept.with_digit(self.number, byte) {
            Ok(number) => {
                self.number = Some(number);
                Step::Nothing
            }
            Err(_) => Step::Left,
        }
    }

    /// Answers the pieces that the end adds. After an Ok the folder is as a new one.
    ///
    /// # Errors
    ///
    /// The number of the fault that the end shows: `METACOMMENT_NOT_ENDED`, which is looked at first,
    /// `NUMBERS_WITHOUT_SIGN` or `CONSTANT_TOO_BIG`. The folder is then as it was.
    pub fn finish(&mut self) -> Result<ArrayVec<OutPiece<'w>, 4>, u16>
        ensures ok { IfOk result (λ added. (items : List Expanded) → Stands self.old items
            → AddsAtEnd items (map piece_of added.items)) }
        ensures new { IfOk result (λ _. Stands self.new []) }
        ensures fault { IfErr result (λ code. (items : List Expanded) → Stands self.old items
            → ShowsAtEnd items code) }
        ensures unchanged { OnErr result (self.new ≡ self.old) }
        ensures short { IfOk result (λ added. All IsShort (map piece_of added.items)) }
    {
        if self.kept.depth > 0 {
            return Err(METACOMMENT_NOT_ENDED);
        }
        let mut given = Given::new(self.joined);
        let kept = self.kept.after_digits(self.number, &mut given)?;
        check(fault_of_held(kept.held))?;
        put_held(kept.held, Follower::Other, &mut given);
        *self = Folder::new();
        Ok(given.pieces)
    }
}
