//! The arguments of parametric macros.
ghost use Rattle.std.specs.Prelude.{◌≡◌, ◌<◌, ◌≤◌, false, List, ◌∷◌, length, take, IfOk, IfErr, IfSome, Err};
ghost use Rattle.wb_base.specs.declared.tokens.Tok.{Tok};
ghost use Rattle.web_scan.specs.Scanned.{Scanned};
ghost use Rattle.macro_expand.specs.Expansion.{with_argument};
ghost use Rattle.macro_expand.specs.Flat.{is_opening, is_closing, depth_behind};
ghost use Rattle.macro_expand.specs.inner.Levels.{Level, level_of, list_of, is_finished, AreLevels};
ghost use Rattle.macro_expand.specs.inner.Places.{closing_place, levels_at, IsTaken};

use crate::frames::{Argument, Frame};
use crate::refusals::ExpandErr;
use wb_base::Tok;

// A place in the stack: the number of a level, that level, and the steps that are left there. The levels over it have
// ended.
#[derive(Clone, Copy)]
pub(crate) struct Place<'w> {
    pub(crate) level: usize,
    pub(crate) top: Frame<'w>,
    pub(crate) steps: u32,
}

impl<'w> Place<'w> {
    // The place behind the ends of levels, where these levels lie below it.
    pub(crate) fn behind_ends(self, lower: &[Frame<'w>]) -> Result<Place<'w>, ExpandErr>
        requires { self.level ≤ length lower.now }
        ensures found { (web : Scanned) (text : List Tok) → IfOk result (λ place.
            with_argument text self.entry.steps (list_of web.tokens (levels_at self.entry lower.now))
            ≡ with_argument text place.steps (list_of web.tokens (levels_at place lower.now))) }
        ensures refused { (web : Scanned) (text : List Tok) → IfErr result (λ refusal.
            with_argument text self.entry.steps (list_of web.tokens (levels_at self.entry lower.now)) ≡ Err refusal) }
        ensures unfinished { IfOk result (λ place. is_finished (level_of place.top) ≡ false) }
        ensures lower { IfOk result (λ place. place.level ≤ self.entry.level) }
        ensures kept { (web : Scanned) → AreLevels web (levels_at self.entry lower.now)
            → IfOk result (λ place. AreLevels web (levels_at place lower.now)) }
    {
        let Place {
            mut level,
            mut top,
            mut steps,
        } = self;
        while top.is_finished() {
            if steps == 0 {
                return Err(ExpandErr::Steps);
            }
            if level == 0 {
                return Err(ExpandErr::NoParameter);
            }
            steps -= 1;
            level -= 1;
            top = lower[level];
        }
        Ok(Place { level, top, steps })
    }

    // The argument at this place, and the place behind its `)`.
    pub(crate) fn take_argument(self) -> Result<(Argument<'w>, Place<'w>), ExpandErr>
        requires { is_finished (level_of self.top) ≡ false }
        ensures taken { (web : Scanned) (lower : List Level) → AreLevels web (level_of self.entry.top ∷ lower)
            → IfOk result (λ taken. IsTaken web lower self.entry taken.0 taken.1) }
        ensures refused { (web : Scanned) (lower : List Level) (text : List Tok)
            → AreLevels web (level_of self.entry.top ∷ lower)
            → IfErr result (λ refusal. with_argument text self.entry.steps
            (list_of web.tokens (level_of self.entry.top ∷ lower)) ≡ Err refusal) }
    {
        let Some((first, opened)) = self.top.text.split_first() else {
            return Err(ExpandErr::NoParameter);
        };
        if !is_opening(first) {
            return Err(ExpandErr::NoParameter);
        }
        let steps = self.steps as usize;
        let searched = opened.len().min(steps);
        let Some(count) = find_closing(&opened[..searched]) else {
            return Err(ExpandErr::Steps);
        };
        if steps < count + 2 {
            return Err(ExpandErr::Steps);
        }
        let argument = Argument {
            text: &opened[..count],
            environment: self.top.environment,
        };
        let text = &opened[count + 1..];
        let place = Place {
            level: self.level,
            top: Frame { text, ..self.top },
            steps: self.steps - (count as u32 + 2),
        };
        Ok((argument, place))
    }
}

// How many tokens stand before the `)` that closes a text.
fn find_closing(text: &[Tok]) -> Option<usize>
    ensures place { result ≡ closing_place 0 text.now }
    ensures within { IfSome result (λ count. count < length text.now) }
{
    let mut depth = 0;
    for (index, token) in text.iter().enumerate() {
        if depth == 0 && is_closing(token) {
            return Some(index);
        }
        depth = depth_behind(depth, token);
    }
    None
}

// Whether a token opens a parenthesis.
fn is_opening(token: &Tok) -> bool
    ensures { result ≡ is_opening token.now }
{
    matches!(token, Tok::Sign(b'('))
}

// Whether a token closes a parenthesis.
fn is_closing(token: &Tok) -> bool
    ensures { result ≡ is_closing token.now }
{
    matches!(token, Tok::Sign(b')'))
}

// How many parentheses are open behind a token, where so many are before it.
fn depth_behind(depth: usize, token: &Tok) -> usize
    requires { depth < usize.MAX }
    ensures { result ≡ depth_behind depth token.now }
{
    if is_opening(token) {
        depth + 1
    } else if is_closing(token) {
        depth.saturating_sub(1)
    } else {
        depth
    }
}
