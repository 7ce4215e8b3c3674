//! What tokens of Pascal are.

/// What a token is (ISO 7185, 6.1): a reserved word, a sign, a name, a number, a string, or the end of the text.
#[derive(Clone, Copy, Debug, PartialEq, Eq)]
pub enum Kind {
    /// A name that is not reserved.
    Name,
    /// A number without a sign.
    Number,
    /// A string in single quotes.
    Text,
    /// `and`
    And,
    /// `array`
    Array,
    /// `begin`
    Begin,
    /// `case`
    Case,
    /// `const`
    Const,
    /// `div`
    Div,
    /// `do`
    Do,
    /// `downto`
    Downto,
    /// `else`
    Else,
    /// `end`
    End,
    /// `file`
    File,
    /// `for`
    For,
    /// `function`
    Function,
    /// `goto`
    Goto,
    /// `if`
    If,
    /// `in`
    In,
    /// `label`
    Label,
    /// `mod`
    Mod,
    /// `nil`
    Nil,
    /// `not`
    Not,
    /// `of`
    Of,
    /// `or`
    Or,
    /// `packed`
    Packed,
    /// `procedure`
    Procedure,
    /// `program`
    Program,
    /// `record`
    Record,
    /// `repeat`
    Repeat,
    /// `set`
    Set,
    /// `then`
    Then,
    /// `to`
    To,
    /// `type`
    Type,
    /// `until`
    Until,
    /// `var`
    Var,
    /// `while`
    While,
    /// `with`
    With,
    /// `+`
    Plus,
    /// `-`
    Minus,
    /// `*`
    Star,
    /// `/`
    Slash,
    /// `=`
    Equal,
    /// `<>`
    NotEqual,
    /// `<`
    Less,
    /// `<=`
    LessOrEqual,
    /// `>`
    Greater,
    /// `>=`
    GreaterOrEqual,
    /// `(`
    LeftParenthesis,
    /// `)`
    RightParenthesis,
    /// `[`, also written `(.`
    LeftBracket,
    /// `]`, also written `.)`
    RightBracket,
    /// `,`
    Comma,
    /// `;`
    Semicolon,
    /// `:`
    Colon,
    /// `:=`
    Becomes,
    /// `.`
    Dot,
    /// `..`
    Dots,
    /// `^`
    Caret,
    /// The end of the text.
    EndOfText,
}
