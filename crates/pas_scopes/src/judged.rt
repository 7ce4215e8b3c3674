//! Parts that were looked at.
ghost use Rattle.std.specs.Prelude.{◌≡◌};
ghost use Rattle.pas_tokens.specs.Cutting.{wrong};
ghost use Rattle.pas_scopes.specs.Ends.{lower_of};
ghost use Rattle.pas_scopes.specs.Stopping.{wrong_in, shown_in, found_before};
ghost use Rattle.pas_scopes.specs.Answers.{end_in, lawful_end, short_end, refused_end, noted_end, closed_end};
ghost use Rattle.pas_scopes.specs.Answers.{stands_by, settled_by, Closes};

use crate::stop::{Stop, Wrong, before, shown};
use wb_base::faults::WRONG_TYPE;

/// The end of a part: the line of its last token, the lowest fault that this token shows because the part breaks a
/// rule, and whether something is missing at the token behind.
#[derive(Clone, Copy)]
pub struct End {
    /// The line of the last token.
    pub line: u32,
    /// The lowest fault that the last token shows.
    pub refusal: Option<Wrong>,
    /// Whether something is missing at the token behind.
    pub is_short: bool,
}

/// What a part means, and its end. A part that breaks a rule stays known by its type, so that each fault of its last
/// token is seen.
#[derive(Drop)]
pub struct Judged<T> {
    /// What the part means.
    pub value: T,
    /// How it ends.
    pub end: End,
}

impl End {
    /// The end of a part that breaks no rule.
    pub fn lawful(line: u32) -> End
        ensures { end_in result ≡ lawful_end line }
    {
        End {
            line,
            refusal: None,
            is_short: false,
        }
    }

    // This, of a part behind which something is missing.
    pub(crate) fn short(self) -> End
        ensures { end_in result ≡ short_end (end_in self) }
    {
        End {
            is_short: true,
            ..self
        }
    }

    // The end of a larger part that the token behind this one closes, in this line.
    fn closed(self, line: u32) -> End
        ensures { end_in result ≡ closed_end line (end_in self) }
    {
        let end = End::lawful(line);
        if self.is_short {
            end.refused(Wrong {
                code: WRONG_TYPE,
                which: 0,
            })
        } else {
            end
        }
    }

    // The lower of the fault that the last token shows, and of this one.
    fn lower(self, found: Wrong) -> Wrong
        ensures { wrong_in result ≡ lower_of (end_in self).refusal (wrong_in found) }
    {
        match self.refusal {
            Some(lower) if lower.code <= found.code => lower,
            _ => found,
        }
    }

    // This, with a fault of the last token.
    fn refused(self, found: Wrong) -> End
        ensures { end_in result ≡ refused_end (end_in self) (wrong_in found) }
    {
        End {
            refusal: Some(self.lower(found)),
            ..self
        }
    }

    // Why the part is refused, where its last token shows this fault too.
    pub(crate) fn shows(self, code: u16) -> Stop
        ensures { result ≡ shown_in (end_in self).line (lower_of (end_in self).refusal (wrong code)) }
    {
        shown(self.lower(Wrong { code, which: 0 }), self.line)
    }

    /// Why the part is refused, where its last token shows what is wrong with it too.
    pub fn refuses(self, found: Wrong) -> Stop
        ensures { result ≡ shown_in (end_in self).line (lower_of (end_in self).refusal (wrong_in found)) }
    {
        shown(self.lower(found), self.line)
    }

    /// Refuses the part by the fault of its last token.
    pub fn stands(self) -> Result<(), Stop>
        ensures { result ≡ stands_by (end_in self) }
    {
        match self.refusal {
            Some(wrong) => Err(shown(wrong, self.line)),
            None => Ok(()),
        }
    }

    // Refuses the part by the fault of its last token, or where something is missing behind it.
    fn is_whole(self) -> Result<(), Stop>
        ensures { result ≡ settled_by (end_in self) tt }
    {
        self.stands()?;
        if self.is_short {
            Err(Stop::Missing)
        } else {
            Ok(())
        }
    }
}

impl<T: Drop> Judged<T> {
    /// A part that breaks no rule.
    pub fn lawful(value: T, line: u32) -> Judged<T>
        ensures value { result.value ≡ value }
        ensures end { end_in result.end ≡ lawful_end line }
    {
        Judged {
            value,
            end: End::lawful(line),
        }
    }

    /// This, with a fault of the last token where a rule does not hold.
    pub fn noted(self, holds: bool, code: u16) -> Judged<T>
        ensures value { result.value ≡ self.value }
        ensures end { end_in result.end ≡ noted_end holds code (end_in self.end) }
    {
        if holds {
            self
        } else {
            self.refused(Wrong { code, which: 0 })
        }
    }

    // This, with a fault of the last token.
    pub(crate) fn refused(self, found: Wrong) -> Judged<T>
        ensures value { result.value ≡ self.value }
        ensures end { end_in result.end ≡ refused_end (end_in self.end) (wrong_in found) }
    {
        let Judged { value, end } = self;
        Judged {
            value,
            end: end.refused(found),
        }
    }

    // This, where the last token breaks no rule, and the token behind closes a larger part, in this line.
    pub(crate) fn closed(self, line: u32) -> Result<Judged<T>, Stop>
        ensures { Closes self line result }
    {
        self.end.stands()?;
        let Judged { value, end } = self;
        Ok(Judged {
            value,
            end: end.closed(line),
        })
    }

    /// What a part means that breaks no rule.
    pub fn settled(self) -> Result<T, Stop>
        ensures { result ≡ settled_by (end_in self.end) self.value }
    {
        self.end.is_whole()?;
        Ok(self.value)
    }

    /// What a part means that breaks no rule, where the token behind it stands in this line.
    pub fn before(self, line: u32) -> Result<T, Stop>
        ensures { result ≡ found_before line (settled_by (end_in self.end) self.value) }
    {
        before(line, self.settled())
    }
}
