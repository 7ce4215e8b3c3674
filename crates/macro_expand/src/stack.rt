//! The stack of open levels.
ghost use Rattle.std.specs.Prelude.{◌≡◌, ◌+◌, ◌-◌, ◌<◌, ◌≤◌, ◌==◌, [], ◌∷◌, ◌++◌, List, length, take, get_or, OnErr};
ghost use Rattle.web_scan.specs.Lawful.{IsTokenOf, IsTextOf};
ghost use Rattle.web_scan.specs.Pieces.{pascal_texts_at};
ghost use Rattle.macro_expand.specs.Expansion.{removal, token_removed, with_argument, replaced, meaning, section};
ghost use Rattle.macro_expand.specs.Flat.{pieces_before, nothing, ends, followed_by, text_before};
ghost use Rattle.macro_expand.specs.inner.Levels.{Level, level_of, levels_of, list_of, argument_of, AreLevels};
ghost use Rattle.macro_expand.specs.inner.Levels.{HaveSameArgument};
ghost use Rattle.macro_expand.specs.inner.Heads.{ArePiecesOf};
ghost use Rattle.macro_expand.specs.inner.Places.{levels_at};
ghost use Rattle.macro_expand.specs.inner.Answers.{lower_levels, list_left, IsSound, Answers, GivesFoldable};

use crate::arguments::Place;
use crate::frames::{Argument, Frame, Head};
use crate::items::Item;
use crate::limits::{LEVEL_LIMIT, STEP_LIMIT};
use crate::meanings::{Meaning, meaning_of};
use crate::refusals::ExpandErr;
use arrayvec::ArrayVec;
use wb_base::Tok;
use web_scan::{Piece, Web};

// What is still to be expanded: the open levels, the lowest first, and how many steps may still be taken.
#[derive(Drop)]
pub(crate) struct Stack<'w> {
    web: &'w Web,
    frames: ArrayVec<Frame<'w>, LEVEL_LIMIT>,
    steps: u32,
}

impl<'w> Stack<'w> {
    // The begin of an expansion.
    pub(crate) fn new(web: &'w Web) -> Stack<'w>
        ensures list { list_left result ≡ pieces_before web.now.unnamed (ends nothing) }
        ensures steps { result.steps ≡ STEP_LIMIT }
        ensures web { result.web.now ≡ web.now }
        ensures sound { IsSound result }
    {
        let mut frames = ArrayVec::new();
        frames.push(Frame::of_pieces(web.unnamed(), 0));
        Stack {
            web,
            frames,
            steps: STEP_LIMIT,
        }
    }

    // Whether nothing is left.
    pub(crate) fn is_empty(&self) -> bool
        ensures { result ≡ (length self.now.frames.items == 0) }
    {
        self.frames.is_empty()
    }

    // Removes the head of what is left, and answers the item that it gives, if it does.
    pub(crate) fn remove_head(&mut self) -> Result<Option<Item<'w>>, ExpandErr>
        requires sound { IsSound self.old }
        requires some { 0 < length self.old.frames.items }
        ensures answers { Answers (removal self.old.web.now self.old.steps (list_left self.old)) result self.new }
        ensures unchanged { OnErr result (self.new ≡ self.old) }
        ensures foldable { GivesFoldable result }
        ensures sound { IsSound self.new }
        ensures web { self.new.web ≡ self.old.web }
    {
        if self.steps == 0 {
            return Err(ExpandErr::Steps);
        }
        let last = self.frames.len() - 1;
        let (head, top) = self.frames[last].split_head(self.web);
        match head {
            Head::Token(token) => self.remove_token(top, token),
            Head::Parameter => self.open_argument(top),
            Head::Open(number) => {
                self.put(top);
                Ok(Some(Item::Open(number)))
            }
            Head::Close(number) => {
                self.put(top);
                Ok(Some(Item::Close(number)))
            }
            Head::End => {
                self.end_level();
                Ok(None)
            }
        }
    }

    // Ends the topmost level.
    fn end_level(&mut self)
        requires sound { IsSound self.old }
        requires some { 0 < length self.old.frames.items }
        requires left { 0 < self.old.steps }
        ensures list { list_left self.new ≡ list_of self.old.web.now.tokens (lower_levels self.old) }
        ensures steps { self.new.steps ≡ self.old.steps - 1 }
        ensures sound { IsSound self.new }
        ensures web { self.new.web ≡ self.old.web }
    {
        let last = self.frames.len() - 1;
        self.frames.truncate(last);
        self.steps -= 1;
    }

    // Puts the topmost level, whose head was removed, in its place.
    fn put(&mut self, top: Frame<'w>)
        requires sound { IsSound self.old }
        requires some { 0 < length self.old.frames.items }
        requires left { 0 < self.old.steps }
        requires levels { AreLevels self.old.web.now (level_of top ∷ lower_levels self.old) }
        ensures list { list_left self.new
            ≡ list_of self.old.web.now.tokens (level_of top.entry ∷ lower_levels self.old) }
        ensures steps { self.new.steps ≡ self.old.steps - 1 }
        ensures sound { IsSound self.new }
        ensures web { self.new.web ≡ self.old.web }
    {
        let last = self.frames.len() - 1;
        self.frames[last] = top;
        self.steps -= 1;
    }

    // The place of the topmost level, whose head was removed.
    fn place_of(&self, top: Frame<'w>) -> Place<'w>
        requires some { 0 < length self.now.frames.items }
        requires left { 0 < self.now.steps }
        ensures level { result.level ≡ length self.now.frames.items - 1 }
        ensures levels { levels_at result self.now.frames.items
            ≡ level_of top.entry ∷ lower_levels self.now }
        ensures steps { result.steps ≡ self.now.steps - 1 }
    {
        Place {
            level: self.frames.len() - 1,
            top,
            steps: self.steps - 1,
        }
    }

    // Replaces a token, which is removed from the topmost level.
    fn remove_token(
        &mut self,
        top: Frame<'w>,
        token: &'w Tok,
    ) -> Result<Option<Item<'w>>, ExpandErr>
        requires sound { IsSound self.old }
        requires some { 0 < length self.old.frames.items }
        requires left { 0 < self.old.steps }
        requires levels { AreLevels self.old.web.now (level_of top ∷ lower_levels self.old) }
        requires token { IsTokenOf self.old.web.now token.now }
        ensures answers { Answers (token_removed (self.old.steps - 1)
            (list_of self.old.web.now.tokens (level_of top.entry ∷ lower_levels self.old))
            (meaning self.old.web.now token.now)) result self.new }
        ensures unchanged { OnErr result (self.new ≡ self.old) }
        ensures foldable { GivesFoldable result }
        ensures sound { IsSound self.new }
        ensures web { self.new.web ≡ self.old.web }
    {
        match meaning_of(self.web, token) {
            Meaning::Itself(item) => {
                self.put(top);
                Ok(Some(item))
            }
            Meaning::Simple(text) => self.open_text(self.place_of(top), text, Argument::default()),
            Meaning::Parametric(text) => self.open_parametric(top, text),
            Meaning::Section(pieces) => self.open_section(top, pieces),
        }
    }

    // Opens a level for the argument that a parameter stands for, which is removed from the topmost level.
    fn open_argument(&mut self, top: Frame<'w>) -> Result<Option<Item<'w>>, ExpandErr>
        requires sound { IsSound self.old }
        requires some { 0 < length self.old.frames.items }
        requires left { 0 < self.old.steps }
        requires levels { AreLevels self.old.web.now (level_of top ∷ lower_levels self.old) }
        requires same { HaveSameArgument
            (level_of (get_or self.old.frames.items (length self.old.frames.items - 1) top)) (level_of top) }
        ensures answers { let all = level_of top.entry ∷ lower_levels self.old in
            Answers (replaced (self.old.steps - 1) (followed_by (argument_of all top.entry.environment)
            (ends (list_of self.old.web.now.tokens all)))) result self.new }
        ensures unchanged { OnErr result (self.new ≡ self.old) }
        ensures foldable { GivesFoldable result }
        ensures sound { IsSound self.new }
        ensures web { self.new.web ≡ self.old.web }
    {
        let argument = self.frames[top.environment].argument;
        self.open(self.place_of(top), Frame::of_argument(argument))
    }

    // Opens a level for the text of a parametric macro, which is removed from the topmost level.
    fn open_parametric(
        &mut self,
        top: Frame<'w>,
        text: &'w [Tok],
    ) -> Result<Option<Item<'w>>, ExpandErr>
        requires sound { IsSound self.old }
        requires some { 0 < length self.old.frames.items }
        requires left { 0 < self.old.steps }
        requires levels { AreLevels self.old.web.now (level_of top ∷ lower_levels self.old) }
        requires text { IsTextOf self.old.web.now text.now }
        ensures answers { Answers (with_argument text.now (self.old.steps - 1)
            (list_of self.old.web.now.tokens (level_of top.entry ∷ lower_levels self.old))) result self.new }
        ensures unchanged { OnErr result (self.new ≡ self.old) }
        ensures foldable { GivesFoldable result }
        ensures sound { IsSound self.new }
        ensures web { self.new.web ≡ self.old.web }
    {
        let place = self.place_of(top).behind_ends(&self.frames)?;
        let (argument, place) = place.take_argument()?;
        self.open_text(place, text, argument)
    }

    // Opens a level for the pieces of a section, whose name is removed from the topmost level.
    fn open_section(
        &mut self,
        top: Frame<'w>,
        pieces: &'w [Piece],
    ) -> Result<Option<Item<'w>>, ExpandErr>
        requires sound { IsSound self.old }
        requires some { 0 < length self.old.frames.items }
        requires left { 0 < self.old.steps }
        requires levels { AreLevels self.old.web.now (level_of top ∷ lower_levels self.old) }
        requires pieces { ArePiecesOf self.old.web.now pieces.now }
        ensures answers { Answers (token_removed (self.old.steps - 1)
            (list_of self.old.web.now.tokens (level_of top.entry ∷ lower_levels self.old))
            (section (pascal_texts_at self.old.web.now.tokens pieces.now))) result self.new }
        ensures unchanged { OnErr result (self.new ≡ self.old) }
        ensures foldable { GivesFoldable result }
        ensures sound { IsSound self.new }
        ensures web { self.new.web ≡ self.old.web }
    {
        if pieces.is_empty() {
            return Err(ExpandErr::NotPresent);
        }
        let place = self.place_of(top);
        self.open(place, Frame::of_pieces(pieces, place.level + 1))
    }

    // Opens a level for the text of a macro over the one at a place.
    fn open_text(
        &mut self,
        place: Place<'w>,
        text: &'w [Tok],
        argument: Argument<'w>,
    ) -> Result<Option<Item<'w>>, ExpandErr>
        requires within { place.level < length self.old.frames.items }
        requires sound { IsSound self.old }
        requires levels { AreLevels self.old.web.now (levels_at place self.old.frames.items) }
        requires text { IsTextOf self.old.web.now text.now }
        requires argument { IsTextOf self.old.web.now argument.text.now }
        requires environment { argument.environment ≤ place.level }
        ensures answers { let lower = levels_at place.entry self.old.frames.items in
            Answers (replaced place.entry.steps (text_before
            (text_before (argument_of lower argument.entry.environment) argument.entry.text.now nothing) text.now
            (ends (list_of self.old.web.now.tokens lower)))) result self.new }
        ensures unchanged { OnErr result (self.new ≡ self.old) }
        ensures foldable { GivesFoldable result }
        ensures sound { IsSound self.new }
        ensures web { self.new.web ≡ self.old.web }
    {
        self.open(place, Frame::of_macro(text, argument, place.level + 1))
    }

    // Opens a level over the one at a place.
    fn open(&mut self, place: Place<'w>, opened: Frame<'w>) -> Result<Option<Item<'w>>, ExpandErr>
        requires within { place.level < length self.old.frames.items }
        requires sound { IsSound self.old }
        requires levels { AreLevels self.old.web.now (level_of opened ∷ levels_at place self.old.frames.items) }
        ensures answers { Answers (replaced place.entry.steps (list_of self.old.web.now.tokens
            (level_of opened.entry ∷ levels_at place.entry self.old.frames.items)))
            result self.new }
        ensures unchanged { OnErr result (self.new ≡ self.old) }
        ensures foldable { GivesFoldable result }
        ensures sound { IsSound self.new }
        ensures web { self.new.web ≡ self.old.web }
    {
        if place.level + 1 == LEVEL_LIMIT {
            return Err(ExpandErr::Levels);
        }
        self.frames.truncate(place.level);
        self.frames.push(place.top);
        self.frames.push(opened);
        self.steps = place.steps;
        Ok(None)
    }
}
